// The items of a listing, each a part of its text.
ghost use Rattle.std.specs.Prelude.{◌≡◌};
ghost use Rattle.listing.specs.Parts.{part_of};
ghost use Rattle.listing.specs.Writing.{text_of};

#[derive(Clone, Copy, PartialEq, Eq, Debug)]
pub enum Item<'a> {
    // From the `;` to the end of the line.
    Note(&'a [u8]),
    // Pairs, with the single spaces between them.
    Frame(&'a [u8]),
    // One pair.
    Count(&'a [u8]),
}

impl<'a> Item<'a> {
    pub fn text(self) -> &'a [u8]
        ensures { result.now ≡ text_of (part_of self.entry) }
    {
        match self {
            Item::Note(text) | Item::Frame(text) | Item::Count(text) => text,
        }
    }
}

// An item and where it begins, both counted from 1, the column in bytes.
#[derive(Clone, Copy, PartialEq, Eq, Debug)]
pub struct Placed<'a> {
    pub item: Item<'a>,
    pub line: usize,
    pub column: usize,
}

// The items of one line: a note, or a frame that a count may follow. `Reader::next_line` promises that a note has no count
// behind it. The type does not say so: each item already bears its kind, and an enum of lines would bear it again.
#[derive(Clone, Copy, PartialEq, Eq, Debug)]
pub struct Line<'a> {
    pub first: Placed<'a>,
    pub count: Option<Placed<'a>>,
}
