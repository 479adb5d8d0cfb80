// Numbers and bytes as a script spells them.
ghost use Rattle.std.specs.Prelude.{◌≡◌};
ghost use Rattle.std.specs.Char.{is_ascii_digit};
ghost use Rattle.std.specs.List.{list_all};
ghost use Rattle.script.specs.Spelling.{byte_of, decimal_of};

use crate::fault::Fault;
use hex::FromHex;

fn are_digits(word: &[u8]) -> bool
    ensures { result ≡ list_all is_ascii_digit word.now }
{
    word.iter().all(|b| b.is_ascii_digit())
}

// The number that decimal digits write. They are looked at first, since `parse` takes a `+` before them.
pub(crate) fn decimal(word: &str) -> Result<usize, Fault>
    ensures { result ≡ decimal_of word.now }
{
    if word.is_empty() || !are_digits(word.as_bytes()) {
        return Err(Fault::Number);
    }
    word.parse::<usize>().map_err(|_| Fault::Large)
}

// The byte that two hexadecimal digits spell.
pub(crate) fn byte(word: &str) -> Result<u8, Fault>
    ensures { result ≡ byte_of word.now }
{
    let [byte] = <[u8; 1]>::from_hex(word).map_err(|_| Fault::Byte)?;
    Ok(byte)
}
