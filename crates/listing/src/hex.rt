// Bytes as pairs of uppercase hexadecimal digits.
ghost use Rattle.std.specs.Prelude.{◌≡◌, ◌<◌, IfSome};
ghost use Rattle.listing.specs.Scan.{digit_of, joined};
ghost use Rattle.listing.specs.Writing.{pair_text};

use hex_text::spell::digits;

// The value of a digit. `char::to_digit` takes lower case too.
pub fn digit(byte: u8) -> Option<u8>
    ensures value { result ≡ digit_of byte }
    ensures small { IfSome result (λ v. v < 16) }
{
    match byte {
        b'0'..=b'9' => Some(byte - b'0'),
        b'A'..=b'F' => Some(byte - b'A' + 10),
        _ => None,
    }
}

// The byte that two digits spell, the high one first.
pub fn byte(high: u8, low: u8) -> Option<u8>
    ensures { result ≡ joined (digit_of high) (digit_of low) }
{
    Some(digit(high)? * 16 + digit(low)?)
}

// The two digits of a byte, the high one first. `Spaced` shows the same through a formatter, which can fail: here the room of the
// lent buffer is known.
pub fn pair(byte: u8) -> [u8; 2]
    ensures { result ≡ pair_text byte }
{
    digits(byte)
}
