// Why a part refuses. specs/Rows.antt gives each case its layer, number and values.

#[derive(Clone, Copy, PartialEq, Eq, Debug)]
pub enum PartFault {
    // the address is past the end, or the bytes from it on are
    Outside(usize),
    NoSector(usize),
    // a page cycle with no data, or with more than a page
    PageData(usize),
    // polls are due
    Busy,
    // the address of the cycle; 0 for a bulk erase
    Protected(usize),
    // a preset of a page that is not wholly FFh
    NotBlank(usize),
}

// Why a plain image cannot be made. `port::fault::ChipMaking` is a bench chip's: another layer tells it, and it has a case more.
#[derive(Clone, Copy, PartialEq, Eq, Debug)]
pub enum PlainMaking {
    // not 1 to 128 sectors of 1 to 2,048 pages
    Geometry = 1,
    // the bytes are not those of the sectors
    Length = 2,
    // bit 7 is clear, or bit 1 or 0 is set
    Status = 3,
}
