// Cycles and reads that a part refuses, and in which order it looks. Sector 7 is protected.
use crate::memories::{blank, make_driver, make_image};
use crate::tries::{rest, try_cycle, try_read};
use memory::kind::Kind;
use part::part::Part;
use std::alloc::{AllocError, Global};
use trials::trial::TOP_PROTECTED;

// A byte more than a page.
const LONG: [u8; 65] = [0; 65];

// A 00h where the first sector begins, and one where the protected sector does, at 1,792.
fn used(heap: Global) -> Result<Vec<u8>, AllocError> {
    let mut bytes = blank(heap)?;
    for byte in bytes.iter_mut().step_by(1792) {
        *byte = 0;
    }
    Ok(bytes)
}

// With nothing due: by 1, 2, 4 and 5.
fn try_idle<P: Part>(rt: &HostRuntime, part: &mut P) -> anyhow::Result<()> {
    try_cycle(rt, part, Kind::Program, 2048, &[0])?;
    try_cycle(rt, part, Kind::SectorErase, 2048, &[])?;
    try_cycle(rt, part, Kind::Alter, 2048, &[])?;
    try_cycle(rt, part, Kind::Program, 64, &[])?;
    try_cycle(rt, part, Kind::Alter, 64, &LONG)?;
    try_cycle(rt, part, Kind::Alter, 1792, &[])?;
    try_cycle(rt, part, Kind::Preset, 1, &LONG)?;
    try_cycle(rt, part, Kind::Program, 1792, &[0])?;
    try_cycle(rt, part, Kind::SectorErase, 2047, &[])?;
    try_cycle(rt, part, Kind::BulkErase, 5, &[])?;
    try_cycle(rt, part, Kind::Preset, 1793, &[0])?;
    try_cycle(rt, part, Kind::Preset, 1, &[0])
}

// With polls due: by 3, and by 1 and 2 before it.
fn try_busy<P: Part>(rt: &HostRuntime, part: &mut P) -> anyhow::Result<()> {
    try_cycle(rt, part, Kind::Program, 64, &[0])?;
    try_cycle(rt, part, Kind::Program, 2048, &[0])?;
    try_cycle(rt, part, Kind::Alter, 64, &[])?;
    try_cycle(rt, part, Kind::Program, 64, &[0])?;
    try_cycle(rt, part, Kind::Program, 1792, &[0])?;
    try_cycle(rt, part, Kind::BulkErase, 0, &[])?;
    try_cycle(rt, part, Kind::Preset, 1, &[0])?;
    try_read(rt, part, 0, 2)?;
    try_read(rt, part, 2047, 2)
}

// And what is left: nothing was carried out but the one cycle.
fn try_part<P: Part>(rt: &HostRuntime, part: &mut P) -> anyhow::Result<()> {
    try_idle(rt, part)?;
    try_busy(rt, part)?;
    rest(part)?;
    try_read(rt, part, 2047, 2)?;
    try_read(rt, part, 2049, 0)?;
    try_read(rt, part, 2048, 0)?;
    try_read(rt, part, 0, 2)?;
    try_read(rt, part, 64, 2)?;
    try_read(rt, part, 1792, 2)
}

pub(crate) fn try_cycles(rt: &HostRuntime) -> anyhow::Result<()> {
    println!(rt; "cycles of a plain image")?;
    try_part(rt, &mut make_image(TOP_PROTECTED, used(rt.alloc())?)?)?;
    println!(rt; "cycles of a driver")?;
    try_part(rt, &mut make_driver(TOP_PROTECTED, used(rt.alloc())?)?)
}
