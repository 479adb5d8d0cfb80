// Frames taken apart.
ghost use Rattle.std.specs.Prelude.{◌≡◌, ◌+◌, ◌*◌, ◌⊎◌};
ghost use Rattle.port.specs.Instructions.{lookup, table};
ghost use Rattle.port.specs.Asks.{Plain, Within, heard, meant, ordered, said, shaped_by};

use crate::instruction::{Instruction, Operation};
use crate::order::Order;
use memory::kind::Kind;

fn address_of(a2: u8, a1: u8, a0: u8) -> usize
    ensures { result ≡ a2 * 65536 + a1 * 256 + a0 }
{
    u32::from_be_bytes([0, a2, a1, a0]) as usize
}

// What an instruction asks at an address, with data.
fn order_of<'a>(operation: Operation, address: usize, data: &'a [u8]) -> Order<'a>
    ensures said { said result ≡ meant operation address «data».now }
    ensures plain { Plain result }
{
    let cycle = |kind| Order::Cycle {
        kind,
        address,
        data,
    };
    match operation {
        Operation::WriteEnable => Order::Enable,
        Operation::WriteDisable => Order::Disable,
        Operation::ReadStatus => Order::Status,
        Operation::Identify => Order::Identify,
        Operation::Read | Operation::FastRead => Order::Read(address),
        Operation::Program => cycle(Kind::Program),
        Operation::Alter => cycle(Kind::Alter),
        Operation::Preset => cycle(Kind::Preset),
        Operation::SectorErase => Order::Cycle {
            kind: Kind::SectorErase,
            address,
            data: &[],
        },
        Operation::BulkErase => Order::Cycle {
            kind: Kind::BulkErase,
            address: 0,
            data: &[],
        },
    }
}

// What a frame of this code asks, if its shape is right: so many bytes after the code, so many wanted back.
fn order_by_code<'a>(
    code: u8,
    after: usize,
    wanted: usize,
    address: usize,
    data: &'a [u8],
) -> Order<'a>
    ensures said { said result ≡ shaped_by (lookup table code) after wanted address «data».now }
    ensures plain { Plain result }
{
    match Instruction::find(code) {
        Some(instruction) if instruction.fits(after, wanted) => {
            order_of(instruction.operation, address, data)
        }
        _ => Order::Unknown,
    }
}

// What a frame asks, if so many bytes are wanted back. What would mean nothing is left out: data of an erase, and the address of a
// bulk erase, which is 0.
pub fn decode<'a>(sent: &'a [u8], wanted: usize) -> Order<'a>
    ensures said { said result ≡ ordered sent.now wanted }
    ensures plain { Plain result }
{
    match sent {
        [] => Order::Unknown,
        [code, a2, a1, a0, data @ ..] => order_by_code(
            *code,
            sent.len() - 1,
            wanted,
            address_of(*a2, *a1, *a0),
            data,
        ),
        [code, ..] => order_by_code(*code, sent.len() - 1, wanted, 0, &[]),
    }
}

// The order that a chip of so many bytes takes: only read status while it is busy, and none beyond its end. One that it takes is left
// as it is.
pub fn hear<'a>(busy: usize, size: usize, order: Order<'a>) -> Order<'a>
    ensures same { said result ≡ heard busy size (said order.entry) }
    ensures within { Within size (said result) }
    ensures kept { (result ≡ order.entry) ⊎ (result ≡ Order.Unknown) }
{
    if busy > 0 {
        return match order {
            Order::Status => Order::Status,
            _ => Order::Unknown,
        };
    }
    match order {
        Order::Cycle {
            kind: Kind::BulkErase,
            ..
        } => order,
        Order::Read(address) | Order::Cycle { address, .. } if address >= size => Order::Unknown,
        _ => order,
    }
}
