// The line of a frame.
ghost use Rattle.std.specs.Prelude.{◌≡◌, ℕ, ◌<◌, length, slice_index};
ghost use Rattle.listing.specs.Sheets.{Room, Wrote};
ghost use Rattle.listing.specs.Values.{fitted, over};
ghost use Rattle.listing.specs.Writing.{line_text, exchange_of, ReadsAlone, ReadsBack};

use crate::fault::ListingFault;
use crate::room::check_room;
use crate::sheet::{COUNT, PAIR, Sheet, spaced_len};

// A frame to be listed: its bytes, at least one, and how many bytes are wanted back. For 0 the line has no count.
// `back` is no `Option<NonZeroU8>`: wanting nothing is no other kind of frame, and a chip, an exchange of the theorems and
// the line's length all take it as a number of bytes.
#[derive(Clone, Copy, PartialEq, Eq, Debug)]
pub struct Frame<'a> {
    pub code: u8,
    pub rest: &'a [u8],
    pub back: u8,
}

impl Frame<'_> {
    // The length of its line, 0Ah included. A line can be longer than any buffer.
    fn line_len(&self) -> u128
        ensures exact { result ≡ length (line_text (exchange_of self.now)) }
        ensures bytes { (i : ℕ) → slice_index self.now.rest.now i < 256 }
    {
        let pairs = PAIR as u128 + spaced_len(self.rest);
        if self.back == 0 {
            pairs
        } else {
            pairs + COUNT as u128
        }
    }
}

// Writes the line of a frame, 0Ah included.
pub(crate) fn put_line(frame: Frame, sheet: &mut Sheet)
    requires { Room sheet.old (line_text (exchange_of frame)) }
    ensures { Wrote sheet.old sheet.new (line_text (exchange_of frame.entry)) }
{
    sheet.put_pair(frame.code);
    sheet.put_spaced(frame.rest);
    sheet.put_back(frame.back);
    sheet.put(b"\n");
}

// Writes the line of a frame, 0Ah included, at the start of the buffer, and gives its length.
// A buffer that is too short stays as it was, as does what lies past the line.
pub fn write_frame(frame: Frame, into: &mut [u8]) -> Result<usize, ListingFault>
    ensures answer { result ≡ fitted (line_text (exchange_of frame.entry)) (length into.old) }
    ensures buffer { into.new ≡ over (line_text (exchange_of frame.entry)) into.old }
    ensures reads { ReadsBack (exchange_of frame.entry) }
    ensures alone { ReadsAlone (exchange_of frame.entry) }
{
    let needed = frame.line_len();
    check_room(needed, into)?;
    let mut sheet = Sheet::new(into);
    put_line(frame, &mut sheet);
    Ok(sheet.at)
}
