// A write to try, and the memory that it is tried on.
ghost use Rattle.std.specs.Prelude.{◌≡◌, replicate, IfOk};

use std::alloc::{AllocError, Global};

// The status byte of a memory in which nothing is protected.
pub const OPEN: u8 = 0x80;

// The status byte of a memory in which the highest sector is protected.
pub const TOP_PROTECTED: u8 = 0x84;

// A status byte, what the memory holds, and the write.
#[derive(PartialEq, Eq, Debug, Drop)]
pub struct Trial {
    pub status: u8,
    pub image: Vec<u8>,
    pub address: usize,
    pub bytes: Vec<u8>,
}

impl Trial {
    // FFh everywhere in a memory of so many bytes, and a write of so many bytes FFh.
    pub fn blank(
        heap: Global,
        size: usize,
        status: u8,
        address: usize,
        length: usize,
    ) -> Result<Trial, AllocError>
        ensures { IfOk result (λ t. (t.status ≡ status) × (t.image.items ≡ replicate size 255) × (t.address ≡ address) × (t.bytes.items ≡ replicate length 255)) }
    {
        Ok(Trial {
            status,
            image: vec![in heap; 0xFF; size]?,
            address,
            bytes: vec![in heap; 0xFF; length]?,
        })
    }
}
