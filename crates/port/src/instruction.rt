// The chip's instructions, as one table that the chip machine and the frame builder read.
ghost use Rattle.std.specs.Prelude.{◌≡◌, ◌+◌};
ghost use Rattle.port.specs.Instructions.{allows, fits, lookup, table};
ghost use Rattle.port.specs.Operations.{operation_of};

use memory::kind::Kind;

// The five kinds of cycle stand among the others, and not as one case with a `Kind`, so that an operation is the index of its row in
// `TABLE`.
#[derive(Clone, Copy, PartialEq, Eq, Debug)]
pub enum Operation {
    WriteEnable,
    WriteDisable,
    ReadStatus,
    Identify,
    Read,
    FastRead,
    Program,
    Alter,
    Preset,
    SectorErase,
    BulkErase,
}

// What sends a cycle of a kind.
impl From<Kind> for Operation {
    ghost from_gives = { λ old new. new ≡ operation_of old };

    fn from(kind: Kind) -> Operation {
        match kind {
            Kind::Program => Operation::Program,
            Kind::Alter => Operation::Alter,
            Kind::Preset => Operation::Preset,
            Kind::SectorErase => Operation::SectorErase,
            Kind::BulkErase => Operation::BulkErase,
        }
    }
}

// How many bytes back a frame may want.
#[derive(Clone, Copy, PartialEq, Eq, Debug)]
pub enum Back {
    Nothing,
    // the three bytes of the identification, or fewer
    Identification,
    Any,
}

impl Back {
    pub fn allows(self, wanted: usize) -> bool
        ensures { result ≡ allows self wanted }
    {
        match self {
            Back::Nothing => wanted == 0,
            Back::Identification => wanted <= 3,
            Back::Any => true,
        }
    }
}

#[derive(Clone, Copy, PartialEq, Eq, Debug)]
pub struct Instruction {
    pub operation: Operation,
    pub code: u8,
    // bytes of address after the code, the highest first
    pub address_bytes: u8,
    // bytes without meaning after the address
    pub dummy_bytes: u8,
    // whether one or more bytes of data follow
    pub has_data: bool,
    pub back: Back,
}

pub(crate) const TABLE: [Instruction; 11] = [
    Instruction {
        operation: Operation::WriteEnable,
        code: 0x06,
        address_bytes: 0,
        dummy_bytes: 0,
        has_data: false,
        back: Back::Nothing,
    },
    Instruction {
        operation: Operation::WriteDisable,
        code: 0x04,
        address_bytes: 0,
        dummy_bytes: 0,
        has_data: false,
        back: Back::Nothing,
    },
    Instruction {
        operation: Operation::ReadStatus,
        code: 0x05,
        address_bytes: 0,
        dummy_bytes: 0,
        has_data: false,
        back: Back::Any,
    },
    Instruction {
        operation: Operation::Identify,
        code: 0x9F,
        address_bytes: 0,
        dummy_bytes: 0,
        has_data: false,
        back: Back::Identification,
    },
    Instruction {
        operation: Operation::Read,
        code: 0x03,
        address_bytes: 3,
        dummy_bytes: 0,
        has_data: false,
        back: Back::Any,
    },
    Instruction {
        operation: Operation::FastRead,
        code: 0x0B,
        address_bytes: 3,
        dummy_bytes: 1,
        has_data: false,
        back: Back::Any,
    },
    Instruction {
        operation: Operation::Program,
        code: 0x02,
        address_bytes: 3,
        dummy_bytes: 0,
        has_data: true,
        back: Back::Nothing,
    },
    Instruction {
        operation: Operation::Alter,
        code: 0x22,
        address_bytes: 3,
        dummy_bytes: 0,
        has_data: true,
        back: Back::Nothing,
    },
    Instruction {
        operation: Operation::Preset,
        code: 0xD1,
        address_bytes: 3,
        dummy_bytes: 0,
        has_data: true,
        back: Back::Nothing,
    },
    Instruction {
        operation: Operation::SectorErase,
        code: 0xD8,
        address_bytes: 3,
        dummy_bytes: 0,
        has_data: false,
        back: Back::Nothing,
    },
    Instruction {
        operation: Operation::BulkErase,
        code: 0xC7,
        address_bytes: 0,
        dummy_bytes: 0,
        has_data: false,
        back: Back::Nothing,
    },
];

impl Instruction {
    // The instruction with this code.
    pub fn find(code: u8) -> Option<Instruction>
        ensures { result ≡ lookup table code }
    {
        TABLE
            .iter()
            .find(|instruction| instruction.code == code)
            .copied()
    }

    // How many bytes stand before the data: the code, the address and the dummy bytes.
    pub fn head(&self) -> usize
        ensures { result ≡ 1 + self.now.address_bytes + self.now.dummy_bytes }
    {
        1 + self.address_bytes as usize + self.dummy_bytes as usize
    }

    // If a frame has the instruction's shape: so many bytes after its code, and so many wanted back.
    pub fn fits(&self, after: usize, wanted: usize) -> bool
        ensures { result ≡ fits self.now after wanted }
    {
        // the code is none of the bytes after it
        let head = self.head() - 1;
        let is_long = if self.has_data {
            after > head
        } else {
            after == head
        };
        is_long && self.back.allows(wanted)
    }
}
