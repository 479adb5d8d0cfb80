// Bytes back as text.
ghost use Rattle.std.specs.Prelude.{Some};
ghost use Rattle.replay.specs.Shown.{shown};

use hex_text::spaced::Spaced;
use hex_text::spell::pair;
use std::fmt;

// Shows its bytes as pairs with single spaces, or `-` for none. `Spaced` has a space before each, so the first stands
// by itself.
#[derive(Clone, Copy, PartialEq, Eq, Debug)]
pub(crate) struct Shown<'a>(pub(crate) &'a [u8]);

impl fmt::Display for Shown<'_> {
    ghost output = { λ s. Some (shown s.0.now) };

    fn fmt<W: fmt::Write>(&self, f: &mut fmt::Formatter<W>) -> fmt::Result {
        match self.0 {
            [] => write!(f, "-"),
            [first, others @ ..] => {
                let mut text = [0; 2];
                let first = pair(*first, &mut text);
                write!(f, "{first}{}", Spaced(others))
            }
        }
    }
}
