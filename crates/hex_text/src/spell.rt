// Bytes spelled into lent buffers, as pairs of uppercase hexadecimal digits.
ghost use Rattle.std.specs.Prelude.{◌≡◌, ◌*◌, ◌<◌, ◌≤◌, true, length};
ghost use Rattle.std.specs.Fmt.{digit_glyph};
ghost use Rattle.hex_text.specs.HexText.{pair, spaced};

use std::str::from_utf8;

// A space and two digits.
pub(crate) const WIDTH: usize = 3;

// The digit of a value below 16. `char::from_digit` gives lower case.
fn digit(value: u8) -> u8
    requires { value < 16 }
    ensures { result ≡ digit_glyph true value }
{
    if value < 10 {
        b'0' + value
    } else {
        b'A' - 10 + value
    }
}

// The two digits of a byte, the high one first.
pub fn digits(byte: u8) -> [u8; 2]
    ensures { result ≡ pair byte }
{
    [digit(byte / 16), digit(byte % 16)]
}

// The same put into a lent buffer, as text.
pub fn pair(byte: u8, text: &mut [u8; 2]) -> &str
    ensures { result.now ≡ pair byte }
{
    *text = digits(byte);
    from_utf8(text).unwrap()
}

// The pair of each byte, each with a space before it, at the start of a buffer that is long enough.
pub(crate) fn spell<'a>(bytes: &[u8], text: &'a mut [u8]) -> &'a str
    requires { 3 * length bytes.now ≤ length text.old }
    ensures { result.now ≡ spaced bytes.now }
{
    for (i, byte) in bytes.iter().enumerate() {
        let place = i * WIDTH;
        let [high, low] = digits(*byte);
        text[place..place + WIDTH].copy_from_slice(&[b' ', high, low]);
    }
    from_utf8(&text[..bytes.len() * WIDTH]).unwrap()
}
