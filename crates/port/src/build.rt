// Frames put together by the instruction table.
ghost use Rattle.std.specs.Prelude.{◌≡◌, ◌+◌, ◌≤◌, ◌++◌, length, drop, is_some, if◌then◌else◌, Some, None, nat_le};
ghost use Rattle.memory.specs.Page.{put};
ghost use Rattle.port.specs.Build.{Understood, built, carried_by, headed, high_first, listed, place};

use crate::instruction::{Instruction, Operation, TABLE};
use memory::bytes::fill;
use memory::model::PAGE_BYTES;
use memory::range::is_inside;

// The longest frame that is built, a page cycle's: a code, three bytes of address and a page of data. Every port carries it.
pub const LONGEST_BUILT: usize = 4 + PAGE_BYTES;

const _: () = prove!(LONGEST_BUILT == 68);

// The table stands in the order of the operations.
fn place(operation: Operation) -> usize
    ensures { result ≡ place operation }
{
    operation as usize
}

impl Instruction {
    // The instruction of an operation.
    pub fn of(operation: Operation) -> Instruction
        ensures { result ≡ listed operation }
    {
        TABLE[place(operation)]
    }
}

// The lowest bytes of an address, the highest first, as many as the buffer takes.
fn write_address(address: usize, into: &mut [u8])
    requires { length into.old ≤ 8 }
    ensures { into.new ≡ high_first (length into.old) address }
{
    let bytes = address.to_be_bytes();
    into.copy_from_slice(&bytes[bytes.len() - into.len()..]);
}

// The code, the address, the dummy bytes and the data, at the buffer's start.
fn lay_out(row: Instruction, address: usize, data: &[u8], into: &mut [u8])
    requires address { row.address_bytes ≤ 8 }
    requires room { 1 + row.address_bytes + row.dummy_bytes + length «data».now ≤ length into.old }
    ensures { into.new ≡ headed row address «data».now ++ drop (1 + row.address_bytes + row.dummy_bytes + length «data».now) into.old }
{
    let dummy = 1 + row.address_bytes as usize;
    let head = row.head();
    into[0] = row.code;
    write_address(address, &mut into[1..dummy]);
    fill(&mut into[dummy..head], 0);
    into[head..head + data.len()].copy_from_slice(data);
}

// The data that follow, if any may.
fn carried<'a>(has_data: bool, data: &'a [u8]) -> &'a [u8]
    ensures { result.now ≡ carried_by has_data «data».now }
{
    if has_data { data } else { &[] }
}

// Writes a frame into the buffer, and says how long it is. Where the buffer is too short there is none, and it stays.
pub fn build(operation: Operation, address: usize, data: &[u8], into: &mut [u8]) -> Option<usize>
    ensures result { result ≡ (if nat_le (length (built operation address «data».now)) (length into.old) then Some (length (built operation address «data».now)) else None) }
    ensures bytes { into.new ≡ (if is_some result then put 0 (built operation address «data».now) into.old else into.old) }
    ensures understood { Understood }
{
    let row = Instruction::of(operation);
    let head = row.head();
    let sent = carried(row.has_data, data);
    if !is_inside(into.len(), head, sent.len()) {
        return None;
    }
    lay_out(row, address, sent, into);
    Some(head + sent.len())
}
