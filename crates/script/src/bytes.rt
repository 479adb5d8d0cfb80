// Bytes in a script, as its words spell them.
ghost use Rattle.std.specs.Prelude.{◌≡◌, ◌≤◌, [], IfOk, vec_items, vec_len};
ghost use Rattle.script.specs.Results.{Gives};
ghost use Rattle.script.specs.Spelling.{copies_of, spelled};
ghost use Rattle.script.specs.Words.{texts};

use crate::fault::Fault;
use crate::numbers::{byte, decimal};
use memory::geometry::MOST_BYTES;
use std::alloc::Global;
use std::str::FromStr;

// The bytes of the largest chip.
pub(crate) const MOST: usize = MOST_BYTES;

// A byte, so many times.
#[derive(Clone, Copy, PartialEq, Eq, Debug)]
struct Copies {
    count: usize,
    value: u8,
}

impl FromStr for Copies {
    type Err = Fault;

    ghost from_str_gives = { λ word result. result ≡ copies_of word };

    // `N*BB` is N copies of a byte, and `BB` one.
    #[tactic(auto, unfolding(crate::specs::Spelling::copies_of))]
    fn from_str(word: &str) -> Result<Copies, Fault> {
        let (count, value) = match word.split_once('*') {
            Some((count, value)) => (decimal(count)?, value),
            None => (1, word),
        };
        Ok(Copies {
            count,
            value: byte(value)?,
        })
    }
}

// The bytes that the words spell, one after another.
pub(crate) fn bytes(heap: Global, words: &[&str]) -> Result<Vec<u8>, Fault>
    ensures spelled { Gives vec_items result (spelled [] (texts words.now)) }
    ensures few { IfOk result (λ v. vec_len v ≤ 16777216) }
{
    let mut bytes = Vec::new(heap);
    for word in words {
        let Copies { count, value } = word.parse()?;
        if count > MOST - bytes.len() {
            return Err(Fault::Bytes);
        }
        bytes.resize(bytes.len() + count, value)?;
    }
    Ok(bytes)
}
