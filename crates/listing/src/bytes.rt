// What stands at the start of a text.
ghost use Rattle.std.specs.Prelude.{◌≡◌, ◌≤◌, true, length, OnSome, ◌==◌, position};
ghost use Rattle.listing.specs.Scan.{pair_of, goes_on};

use crate::hex::byte;

// The byte that the pair at the start spells, if there is one.
pub fn read_pair(text: &[u8]) -> Option<u8>
    ensures value { result ≡ pair_of text.now }
    ensures within { OnSome result (2 ≤ length text.now) }
{
    match text {
        [high, low, ..] => byte(*high, *low),
        _ => None,
    }
}

// If another pair has to follow, in the text after a pair: it begins with a space, and no `>` after that.
pub(crate) fn goes_on(text: &[u8]) -> bool
    ensures value { result ≡ goes_on text.now }
    ensures within { result ≡ true → 1 ≤ length text.now }
{
    text.starts_with(b" ") && !text.starts_with(b" >")
}

// Where the line at the start of the text ends: at its first 0Ah.
pub(crate) fn line_end(text: &[u8]) -> Option<usize>
    ensures { result ≡ position (λ b. b == 10) text.now }
{
    text.iter().position(|byte| *byte == b'\n')
}
