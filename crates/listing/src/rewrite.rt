// A listing written again without its notes.
ghost use Rattle.std.specs.Prelude.{◌≡◌, ◌^◌, ◌<◌, length, MatchResult};
ghost use Rattle.listing.specs.Grammar.{Unambiguous};
ghost use Rattle.listing.specs.Parts.{part_of, spots_of, count_of};
ghost use Rattle.listing.specs.Promise.{Measured, Refuses, HasRoom, Copied, Rewrites};
ghost use Rattle.listing.specs.Sheets.{Room, Wrote};
ghost use Rattle.listing.specs.Writing.{held, frame_text, kept_of, kept_count};

use crate::fault::ListingFault;
use crate::item::{Item, Line, Placed};
use crate::reader::Reader;
use crate::room::check_room;
use crate::sheet::Sheet;

// The length of what follows the pairs of a frame: ` > ` and the count, if there is one, and 0Ah.
fn count_len(count: Option<Placed>) -> usize
    ensures { result ≡ length (kept_count (count_of count.entry)) }
{
    match count {
        Some(count) => count.item.text().len() + 4,
        None => 1,
    }
}

// The pairs of a frame, and nothing of another item.
fn kept<'a>(item: Item<'a>) -> Option<&'a [u8]>
    ensures { held result ≡ frame_text (part_of item.entry) }
{
    match item {
        Item::Frame(pairs) => Some(pairs),
        Item::Note(_) | Item::Count(_) => None,
    }
}

// The length of what is kept of a line, 0Ah included: nothing of a note.
fn kept_len(line: Line) -> usize
    requires { length (kept_of (spots_of line)) < 2 ^ 64 }
    ensures { result ≡ length (kept_of (spots_of line.entry)) }
{
    match kept(line.first.item) {
        Some(pairs) => pairs.len() + count_len(line.count),
        None => 0,
    }
}

// Writes what follows the pairs of a frame: ` > ` and the count, if there is one, and 0Ah.
fn keep_count(count: Option<Placed>, sheet: &mut Sheet)
    requires { Room sheet.old (kept_count (count_of count)) }
    ensures { Wrote sheet.old sheet.new (kept_count (count_of count.entry)) }
{
    if let Some(count) = count {
        sheet.put(b" > ");
        sheet.put(count.item.text());
    }
    sheet.put(b"\n");
}

// Writes what is kept of a line.
fn keep(line: Line, sheet: &mut Sheet)
    requires { Room sheet.old (kept_of (spots_of line)) }
    ensures { Wrote sheet.old sheet.new (kept_of (spots_of line.entry)) }
{
    if let Some(pairs) = kept(line.first.item) {
        sheet.put(pairs);
        keep_count(line.count, sheet);
    }
}

// The length of a listing without its notes.
pub fn rewritten_len(text: &[u8]) -> Result<usize, ListingFault>
    ensures measured { MatchResult result (λ n. Measured text.now n) (λ f. Refuses text.now f) }
    ensures unambiguous { Unambiguous }
{
    let mut reader = Reader::new(text);
    let mut needed = 0;
    while let Some(line) = reader.next_line()? {
        needed += kept_len(line);
    }
    Ok(needed)
}

// Writes the kept lines of a listing that reads to its end and fits.
fn copy_kept(text: &[u8], into: &mut [u8])
    requires { HasRoom text.now (length into.old) }
    ensures { Copied text.now into.old into.new }
{
    let mut reader = Reader::new(text);
    let mut sheet = Sheet::new(into);
    while let Ok(Some(line)) = reader.next_line() {
        keep(line, &mut sheet);
    }
}

// Reads a listing and writes it again, without its notes, at the start of the buffer, and gives its length.
// Refused, the buffer stays as it was.
pub fn rewrite(text: &[u8], into: &mut [u8]) -> Result<usize, ListingFault>
    ensures { Rewrites text.now into.old into.new result }
{
    let needed = rewritten_len(text)?;
    check_room(needed as u128, into)?;
    copy_kept(text, into);
    Ok(needed)
}
