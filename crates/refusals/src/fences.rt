// A fence: sectors closed and opened, and what it refuses in them.
use crate::memories::{blank, make_image};
use crate::sectors::show_protected;
use crate::told::Told;
use crate::tries::{rest, try_cycle, try_read};
use fence::fence::Fence;
use memory::kind::Kind;
use part::part::Part;
use trials::trial::{OPEN, TOP_PROTECTED};

fn try_close<P: Part>(rt: &HostRuntime, fence: &mut Fence<P>, sector: usize) -> anyhow::Result<()> {
    let told = Told::new(fence.close(sector));
    print!(rt; "  close {sector}: {told}, ")?;
    show_protected(rt, fence)
}

fn try_open<P: Part>(rt: &HostRuntime, fence: &mut Fence<P>, sector: usize) -> anyhow::Result<()> {
    let told = Told::new(fence.open(sector));
    print!(rt; "  open {sector}: {told}, ")?;
    show_protected(rt, fence)
}

// Sector 1 is closed: it has the addresses 256 to 511.
fn try_closed<P: Part>(rt: &HostRuntime, fence: &mut Fence<P>) -> anyhow::Result<()> {
    try_cycle(rt, fence, Kind::Program, 255, &[0])?;
    rest(fence)?;
    try_cycle(rt, fence, Kind::Program, 256, &[0])?;
    try_cycle(rt, fence, Kind::SectorErase, 511, &[])?;
    try_cycle(rt, fence, Kind::Alter, 256, &[])?;
    try_cycle(rt, fence, Kind::BulkErase, 256, &[])?;
    try_cycle(rt, fence, Kind::Program, 512, &[0])?;
    try_cycle(rt, fence, Kind::Program, 256, &[0])?;
    rest(fence)?;
    try_read(rt, fence, 255, 2)?;
    try_read(rt, fence, 511, 2)
}

// Sector 1 is open again.
fn try_opened<P: Part>(rt: &HostRuntime, fence: &mut Fence<P>) -> anyhow::Result<()> {
    try_cycle(rt, fence, Kind::Program, 256, &[0])?;
    rest(fence)?;
    try_read(rt, fence, 255, 2)?;
    try_cycle(rt, fence, Kind::BulkErase, 256, &[])?;
    rest(fence)?;
    try_read(rt, fence, 255, 2)
}

fn try_open_part(rt: &HostRuntime) -> anyhow::Result<()> {
    println!(rt; "a fence over a plain image")?;
    let mut fence = Fence::new(make_image(OPEN, blank(rt.alloc())?)?);
    try_close(rt, &mut fence, 8)?;
    try_open(rt, &mut fence, 8)?;
    try_close(rt, &mut fence, 1)?;
    try_close(rt, &mut fence, 1)?;
    try_closed(rt, &mut fence)?;
    try_open(rt, &mut fence, 1)?;
    try_open(rt, &mut fence, 1)?;
    try_opened(rt, &mut fence)
}

// A sector that the part protects itself is protected whatever the fence is told.
fn try_protected_part(rt: &HostRuntime) -> anyhow::Result<()> {
    println!(rt; "a fence over a plain image with sector 7 protected")?;
    let mut fence = Fence::new(make_image(TOP_PROTECTED, blank(rt.alloc())?)?);
    try_open(rt, &mut fence, 7)?;
    try_close(rt, &mut fence, 0)?;
    try_cycle(rt, &mut fence, Kind::Program, 0, &[0])?;
    try_cycle(rt, &mut fence, Kind::Program, 1792, &[0])?;
    try_open(rt, &mut fence, 0)?;
    try_cycle(rt, &mut fence, Kind::BulkErase, 0, &[])?;
    try_cycle(rt, &mut fence, Kind::Program, 0, &[0])?;
    // the part comes back as the calls left it
    let mut part = fence.release();
    rest(&mut part)?;
    try_read(rt, &mut part, 0, 2)
}

pub(crate) fn try_fences(rt: &HostRuntime) -> anyhow::Result<()> {
    try_open_part(rt)?;
    try_protected_part(rt)
}
