// How a memory is divided.
ghost use Rattle.std.specs.Prelude.{◌≡◌, ◌*◌, ◌<◌, ◌≤◌, true, false, MatchOption};
ghost use Rattle.memory.specs.Shape.{shaped, size, sector_at};

use crate::model::PAGE_BYTES;

pub const MOST_SECTORS: usize = 128;

pub const MOST_PAGES: usize = 2048;

// The bytes of the largest memory.
pub const MOST_BYTES: usize = MOST_SECTORS * MOST_PAGES * PAGE_BYTES;

const _: () = prove!(MOST_BYTES == 16_777_216);

// 1 to 128 sectors of 1 to 2,048 pages.
#[derive(Clone, Copy, PartialEq, Eq, Debug)]
pub struct Geometry {
    pub sectors: usize,
    // in a sector
    pub pages: usize,
    ghost some: { 0 < sectors },
    ghost few: { sectors ≤ 128 },
    ghost paged: { 0 < pages },
    ghost low: { pages ≤ 2048 },
    ghost small: { sectors * pages ≤ 262144 },
}

impl Geometry {
    ghost use Rattle.memory.specs.Image.{in_range};

    // So many sectors of so many pages, if a memory may be divided so.
    pub fn new(sectors: usize, pages: usize) -> Option<Geometry>
        ensures { MatchOption result (in_range sectors pages ≡ false) (λ g. (in_range sectors pages ≡ true) × (g.sectors ≡ sectors) × (g.pages ≡ pages)) }
    {
        if !(1..=MOST_SECTORS).contains(&sectors) || !(1..=MOST_PAGES).contains(&pages) {
            return None;
        }
        Some(Geometry { sectors, pages })
    }

    // How many bytes there are.
    pub fn size(&self) -> usize
        ensures { result ≡ size (shaped self.now.sectors self.now.pages) }
    {
        self.sectors * self.pages * PAGE_BYTES
    }

    // The sector that an address lies in.
    pub fn sector_of(&self, address: usize) -> usize
        ensures { result ≡ sector_at (shaped self.now.sectors self.now.pages) address }
    {
        address / PAGE_BYTES / self.pages
    }
}
