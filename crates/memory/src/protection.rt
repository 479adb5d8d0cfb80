// The status byte, and which sectors it protects.
ghost use Rattle.std.specs.Prelude.{◌≡◌, ℕ, ◌-◌, ◌%◌, ◌<◌, true, false, ◌==◌, bit_and, MatchOption};
ghost use Rattle.memory.specs.Protection.{at_rest, free, protects};

use crate::geometry::Geometry;
use crate::kind::Kind;

// A cycle is in progress.
pub const WIP: u8 = 0x01;

// The latch that write enable sets.
pub const WEL: u8 = 0x02;

const TB: u8 = 0x20;

const BP3: u8 = 0x40;

// BP3 and BP2 to BP0
const BLOCK_PROTECT: u8 = 0x5C;

const SRWD: u8 = 0x80;

// Bits 7 to 2 of a status byte.
#[derive(Clone, Copy, PartialEq, Eq, Debug)]
pub struct Status {
    pub bits: u8,
    ghost steady: { bits % 4 ≡ 0 },
    ghost byte: { bits < 256 },
}

impl Status {
    // A status byte at rest, with bit 7 set and bits 1 and 0 clear. Another is none.
    pub fn new(byte: u8) -> Option<Status>
        ensures { MatchOption result (at_rest byte ≡ false) (λ s. (at_rest byte ≡ true) × (s.bits ≡ byte)) }
    {
        if byte < SRWD || byte % 4 != 0 {
            return None;
        }
        Some(Status { bits: byte })
    }

    // What a status byte has in bits 7 to 2.
    pub fn masked(byte: u8) -> Status
        ensures { result.bits ≡ byte - byte % 4 }
    {
        Status {
            bits: byte - byte % 4,
        }
    }

    pub fn protects(self, sectors: usize, sector: usize) -> bool
        ensures { result ≡ protects self.bits sectors sector }
    {
        is_protected(self.bits, sectors, sector)
    }

    // If no sector is protected, however many there are.
    pub fn protects_none(self) -> bool
        ensures bits { result ≡ (bit_and self.bits 0x5C == 0) }
        ensures free { (sectors : ℕ) → 0 < sectors → result ≡ free (protects self.bits sectors) sectors }
    {
        self.bits & BLOCK_PROTECT == 0
    }
}

impl Status {
    ghost use Rattle.memory.specs.declared.kind.Kind.TheVariants.{BulkErase};
    ghost use Rattle.memory.specs.Shape.{shaped};
    ghost use Rattle.memory.specs.Cycle.{permits};

    // Whether nothing that a cycle of this kind alters is protected: the sector of its address, and for a bulk erase all.
    pub fn permits(self, geometry: Geometry, kind: Kind, address: usize) -> bool
        ensures value { result ≡ permits (shaped geometry.sectors geometry.pages) (protects self.bits geometry.sectors) kind address }
        ensures bits { kind ≡ BulkErase → result ≡ (bit_and self.bits 0x5C == 0) }
    {
        if !kind.has_address() {
            return self.protects_none();
        }
        !self.protects(geometry.sectors, geometry.sector_of(address))
    }
}

// Of any byte that a status register may show, also one that is no `Status`.
pub fn is_protected(status: u8, sectors: usize, sector: usize) -> bool
    ensures { result ≡ protects status sectors sector }
{
    let n = status / 4 & 7;
    let count = if status & BP3 != 0 {
        sectors
    } else if n == 0 {
        0
    } else {
        sectors.min(1usize << (n - 1))
    };
    let sectors_protected = if status & TB == 0 {
        sectors - count..sectors
    } else {
        0..count
    };
    sectors_protected.contains(&sector)
}

#[cfg(test)]
mod tests {
    use super::*;

    // Status byte, first protected sector, first one after them.
    struct Row(u8, usize, usize);

    fn holds(sectors: usize, rows: &[Row]) -> bool {
        rows.iter().all(|row| {
            (0..sectors).all(|sector| {
                is_protected(row.0, sectors, sector) == (row.1 <= sector && sector < row.2)
            })
        })
    }

    // The data sheet's table for the 32Mb chip.
    const MB32: [Row; 20] = [
        Row(0x80, 0, 0),
        Row(0x84, 31, 32),
        Row(0x88, 30, 32),
        Row(0x8C, 28, 32),
        Row(0x90, 24, 32),
        Row(0x94, 16, 32),
        Row(0x98, 0, 32),
        Row(0x9C, 0, 32),
        Row(0xC0, 0, 32),
        Row(0xD4, 0, 32),
        Row(0xA0, 0, 0),
        Row(0xA4, 0, 1),
        Row(0xA8, 0, 2),
        Row(0xAC, 0, 4),
        Row(0xB0, 0, 8),
        Row(0xB4, 0, 16),
        Row(0xB8, 0, 32),
        Row(0xBC, 0, 32),
        Row(0xE0, 0, 32),
        Row(0xF4, 0, 32),
    ];

    // The data sheet's table for the 64Mb chip.
    const MB64: [Row; 20] = [
        Row(0x80, 0, 0),
        Row(0x84, 63, 64),
        Row(0x88, 62, 64),
        Row(0x8C, 60, 64),
        Row(0x90, 56, 64),
        Row(0x94, 48, 64),
        Row(0x98, 32, 64),
        Row(0x9C, 0, 64),
        Row(0xC0, 0, 64),
        Row(0xD4, 0, 64),
        Row(0xA0, 0, 0),
        Row(0xA4, 0, 1),
        Row(0xA8, 0, 2),
        Row(0xAC, 0, 4),
        Row(0xB0, 0, 8),
        Row(0xB4, 0, 16),
        Row(0xB8, 0, 32),
        Row(0xBC, 0, 64),
        Row(0xE0, 0, 64),
        Row(0xF4, 0, 64),
    ];

    // The data sheet's table for the 128Mb chip.
    const MB128: [Row; 20] = [
        Row(0x80, 0, 0),
        Row(0x84, 127, 128),
        Row(0x88, 126, 128),
        Row(0x8C, 124, 128),
        Row(0x90, 120, 128),
        Row(0x94, 112, 128),
        Row(0x98, 96, 128),
        Row(0x9C, 64, 128),
        Row(0xC0, 0, 128),
        Row(0xD4, 0, 128),
        Row(0xA0, 0, 0),
        Row(0xA4, 0, 1),
        Row(0xA8, 0, 2),
        Row(0xAC, 0, 4),
        Row(0xB0, 0, 8),
        Row(0xB4, 0, 16),
        Row(0xB8, 0, 32),
        Row(0xBC, 0, 64),
        Row(0xE0, 0, 128),
        Row(0xF4, 0, 128),
    ];

    const BENCH: [Row; 4] = [
        Row(0x8C, 4, 8),
        Row(0xA4, 0, 1),
        Row(0x90, 0, 8),
        Row(0xC0, 0, 8),
    ];

    #[test]
    fn protects_as_the_data_sheet_lists(rt: HostRuntime) {
        assert!(rt; holds(32, &MB32), "32Mb");
        assert!(rt; holds(64, &MB64), "64Mb");
        assert!(rt; holds(128, &MB128), "128Mb");
        assert!(rt; holds(8, &BENCH), "bench");
    }
}
