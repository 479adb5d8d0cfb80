// Bytes as pairs with a space before each.
ghost use Rattle.std.specs.Prelude.{Some};
ghost use Rattle.hex_text.specs.HexText.{spaced};

use crate::spell::{WIDTH, spell};
use std::fmt;

// So many bytes are written at once.
const MOST: usize = 32;

// Shows its bytes as pairs of uppercase hexadecimal digits, each with a space before it.
#[derive(Clone, Copy)]
pub struct Spaced<'a>(pub &'a [u8]);

impl fmt::Display for Spaced<'_> {
    ghost output = { λ s. Some (spaced s.0.now) };

    // Not `{:02X}` of each byte: that takes several times as long, and most of what the programs print are bytes.
    fn fmt<W: fmt::Write>(&self, f: &mut fmt::Formatter<W>) -> fmt::Result {
        for at in (0..self.0.len()).step_by(MOST) {
            let end = self.0.len().min(at + MOST);
            let mut text = [0; MOST * WIDTH];
            f.write_str(spell(&self.0[at..end], &mut text))?;
        }
        Ok(())
    }
}
