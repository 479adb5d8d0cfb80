// A text that is written part by part into a lent buffer.
ghost use Rattle.std.specs.Prelude.{◌≡◌, ℕ, ◌<◌, ◌^◌, length, slice_index};
ghost use Rattle.listing.specs.Sheets.{Room, Wrote};
ghost use Rattle.listing.specs.Writing.{pair_text, spaced_text, back_text};

use crate::hex::pair;

// A pair, with the space or the 0Ah beside it.
pub(crate) const PAIR: usize = 3;

// ` > ` and a pair.
pub(crate) const COUNT: usize = 5;

// The buffer, and the length of the text at its start. There is no heap here: a lent buffer stands for a `Vec`.
#[derive(Drop)]
pub(crate) struct Sheet<'a> {
    into: &'a mut [u8],
    pub(crate) at: usize,
}

impl<'a> Sheet<'a> {
    pub(crate) fn new(into: &'a mut [u8]) -> Sheet<'a>
        ensures same { result.into.ghost_name ≡ into.entry.ghost_name }
        ensures place { result.at ≡ 0 }
        ensures buffer { result.into.now ≡ into.old }
    {
        Sheet { into, at: 0 }
    }

    // Writes bytes behind the text.
    pub(crate) fn put(&mut self, bytes: &[u8])
        requires { Room self.old bytes.now }
        ensures { Wrote self.old self.new bytes.now }
    {
        let end = self.at + bytes.len();
        self.into[self.at..end].copy_from_slice(bytes);
        self.at = end;
    }

    // Writes the pair of a byte.
    pub(crate) fn put_pair(&mut self, byte: u8)
        requires { Room self.old (pair_text byte) }
        ensures { Wrote self.old self.new (pair_text byte) }
    {
        self.put(&pair(byte));
    }

    // Writes the pair of each byte, each after a space.
    pub(crate) fn put_spaced(&mut self, bytes: &[u8])
        requires { Room self.old (spaced_text bytes.now) }
        ensures { Wrote self.old self.new (spaced_text bytes.now) }
    {
        // a byte's three at once: two parts for each take a fifth longer
        for byte in bytes {
            let [high, low] = pair(*byte);
            self.put(&[b' ', high, low]);
        }
    }

    // Writes the count of the bytes wanted back, if there are any.
    pub(crate) fn put_back(&mut self, back: u8)
        requires { Room self.old (back_text back) }
        ensures { Wrote self.old self.new (back_text back) }
    {
        if back > 0 {
            self.put(b" > ");
            self.put_pair(back);
        }
    }
}

// The length of the pairs of bytes, each after a space. It can be longer than any buffer.
// Its callers are also told that the elements are below 256, by which a line that is written reads back.
pub(crate) fn spaced_len(bytes: &[u8]) -> u128
    ensures exact { result ≡ length (spaced_text bytes.now) }
    ensures most { result < 2 ^ 66 }
    ensures bytes { (i : ℕ) → slice_index bytes.now i < 256 }
{
    PAIR as u128 * bytes.len() as u128
}
