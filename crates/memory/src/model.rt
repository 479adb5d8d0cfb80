// The chips that are known, and their pages.
ghost use Rattle.std.specs.Prelude.{◌≡◌, ◌*◌, ◌/◌};

use crate::geometry::Geometry;

// A page is 64 bytes on every chip.
pub const PAGE_BYTES: usize = 64;

// Where the page of an address begins.
pub fn page_start(address: usize) -> usize
    ensures { result ≡ address / 64 * 64 }
{
    address / PAGE_BYTES * PAGE_BYTES
}

// A chip's geometry, by the last byte of its identification.
#[derive(Clone, Copy, PartialEq, Eq, Debug)]
pub struct Model {
    pub capacity: u8,
    pub geometry: Geometry,
}

const MODELS: [Model; 4] = [
    Model {
        capacity: 0x16,
        geometry: Geometry {
            sectors: 32,
            pages: 2048,
        },
    },
    Model {
        capacity: 0x17,
        geometry: Geometry {
            sectors: 64,
            pages: 2048,
        },
    },
    Model {
        capacity: 0x18,
        geometry: Geometry {
            sectors: 128,
            pages: 2048,
        },
    },
    Model {
        capacity: 0x0B,
        geometry: Geometry {
            sectors: 8,
            pages: 4,
        },
    },
];

impl Model {
    ghost use Rattle.memory.specs.Models.{models, lookup};

    // The chip with this capacity byte.
    pub fn find(capacity: u8) -> Option<Model>
        ensures { result ≡ lookup models capacity }
    {
        MODELS
            .iter()
            .find(|model| model.capacity == capacity)
            .copied()
    }
}
