// Reading a listing line by line. Each pair is taken by `let .. else`, which answers the line and the column where there is none
// (docs/DECISIONS.md).
ghost use Rattle.std.specs.Prelude.{◌≡◌, ℕ, ◌+◌, ◌-◌, ◌^◌, ◌<◌, ◌≤◌, List, [], ◌∷◌, length, drop, Ok, Err, MatchResult};
ghost use Rattle.listing.specs.declared.fault.ListingFault.TheVariants.{Malformed};
ghost use Rattle.listing.specs.Parts.{spot, part_of, spot_of, spots_of};
ghost use Rattle.listing.specs.Scan.{scan, inside, pairs, closing, at_mark, refused, Sized, size_of, spots_by};
ghost use Rattle.listing.specs.Promise.{Next};

use crate::bytes::{goes_on, line_end, read_pair};
use crate::extent::Extent;
use crate::fault::ListingFault;
use crate::item::{Item, Line, Placed};
use crate::sheet::COUNT;

// The least number of bytes that a line may want back.
const LEAST_COUNT: u8 = 1;

// What is left of a text, and the number of its first line.
#[derive(Drop)]
pub struct Reader<'a> {
    rest: &'a [u8],
    line: usize,
    // A line has at least one byte, so its number cannot pass what a usize holds.
    ghost room: { line + length rest.now ≤ 2 ^ 63 },
}

impl<'a> Reader<'a> {
    pub fn new(text: &'a [u8]) -> Reader<'a>
        ensures rest { result.rest.now ≡ text.now }
        ensures line { result.line ≡ 1 }
    {
        Reader {
            rest: text,
            line: 1,
        }
    }

    // The refusal of a line that cannot go on after `at` bytes.
    fn stuck(&self, at: usize) -> ListingFault
        requires { at < 2 ^ 64 - 1 }
        ensures { result ≡ Malformed self.now.line (at + 1) }
    {
        ListingFault::after(self.line, at)
    }

    // The note at the start of the rest.
    fn note(&self) -> Result<Extent, ListingFault>
        ensures { result ≡ refused self.now.line (inside 0 self.now.rest.now) }
    {
        let end = line_end(self.rest).ok_or(self.stuck(self.rest.len()))?;
        Ok(Extent::Note(end))
    }

    // Where the pairs at the start of the rest end: any text may follow, as a line goes on after its frame.
    fn pairs_end(&self) -> Result<usize, ListingFault>
        ensures { MatchResult result
            (λ e. (pairs 0 self.now.rest.now ≡ closing e (drop e self.now.rest.now)) × (2 ≤ e) × (e ≤ length self.now.rest.now))
            (λ f. refused self.now.line (pairs 0 self.now.rest.now) ≡ Err f) }
    {
        let rest = self.rest;
        // `at` is also the place that is told, so an iterator would have to count beside it.
        let mut at = 0;
        loop {
            let Some(_) = read_pair(&rest[at..]) else {
                return Err(self.stuck(at));
            };
            at += 2;
            if !goes_on(&rest[at..]) {
                return Ok(at);
            }
            at += 1;
        }
    }

    // The count after a `>`, with `gap` the place where a space has to stand.
    fn count(&self, gap: usize) -> Result<Extent, ListingFault>
        requires { (gap ≤ length self.now.rest.now + 1) × (2 ≤ gap) }
        ensures { result ≡ refused self.now.line (at_mark gap (drop gap self.now.rest.now)) }
    {
        let rest = self.rest;
        let Some(b' ') = rest.get(gap) else {
            return Err(self.stuck(gap));
        };
        let digits = gap + 1;
        let Some(LEAST_COUNT..) = read_pair(&rest[digits..]) else {
            return Err(self.stuck(digits));
        };
        let end = digits + 2;
        let Some(b'\n') = rest.get(end) else {
            return Err(self.stuck(end));
        };
        Ok(Extent::Counted(end))
    }

    // The frame at the start of the rest, with its count.
    fn frame(&self) -> Result<Extent, ListingFault>
        ensures { result ≡ refused self.now.line (pairs 0 self.now.rest.now) }
    {
        let end = self.pairs_end()?;
        match self.rest.get(end) {
            Some(b'\n') => Ok(Extent::Frame(end)),
            Some(b' ') => self.count(end + 2),
            _ => Err(self.stuck(end)),
        }
    }

    // What the line at the start of the rest holds.
    fn extent(&self) -> Result<Extent, ListingFault>
        ensures { result ≡ refused self.now.line (scan self.now.rest.now) }
    {
        match self.rest.first() {
            Some(b';') => self.note(),
            _ => self.frame(),
        }
    }

    // An item of this line.
    fn placed(&self, item: Item<'a>, column: usize) -> Placed<'a>
        ensures { spot_of result ≡ spot (part_of item.entry) self.now.line column }
    {
        Placed {
            item,
            line: self.line,
            column,
        }
    }

    // The items of the line at the start of the rest.
    fn items(&self, extent: Extent) -> Line<'a>
        requires { Sized extent (length self.now.rest.now) }
        ensures { spots_of result ≡ spots_by self.now.line self.now.rest.now extent }
    {
        let rest = self.rest;
        match extent {
            Extent::Note(end) => Line {
                first: self.placed(Item::Note(&rest[..end]), 1),
                count: None,
            },
            Extent::Frame(end) => Line {
                first: self.placed(Item::Frame(&rest[..end]), 1),
                count: None,
            },
            Extent::Counted(end) => Line {
                first: self.placed(Item::Frame(&rest[..end - COUNT]), 1),
                count: Some(self.placed(Item::Count(&rest[end - 2..end]), end - 1)),
            },
        }
    }

    // The items of the next line; none at the end of the text. Refused, the reader stays where it was. (One enum tells all that is
    // refused of a listing, so a caller meets `TextShort` here too: the contract says that it is never answered.)
    pub fn next_line(&mut self) -> Result<Option<Line<'a>>, ListingFault>
        ensures { Next self.old.line self.new.line self.old.rest.now self.new.rest.now result }
    {
        let rest = self.rest;
        if rest.is_empty() {
            return Ok(None);
        }
        let extent = self.extent()?;
        let line = self.items(extent);
        self.rest = &rest[extent.len() + 1..];
        self.line += 1;
        Ok(Some(line))
    }
}
