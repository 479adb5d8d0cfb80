// Memories made of a caller's bytes, which are handed back where there is none.
use memory::report::Reported;
use memory::unmade::Unmade;
use part::plain::PlainImage;
use port::bench::BenchChip;

// What each byte is that is handed over.
const HELD: u8 = 0x5A;

fn show<M: Drop, F: Reported>(rt: &HostRuntime, made: Result<M, Unmade<F>>) -> anyhow::Result<()> {
    match made {
        Ok(_memory) => println!(rt; "made")?,
        Err(unmade) => {
            let Unmade { fault, bytes } = unmade;
            let report = fault.report();
            let n = bytes.len();
            let same = bytes.iter().all(|byte| *byte == HELD);
            println!(rt; "refused {report}, {n} bytes back, as they were {same}")?;
        }
    }
    Ok(())
}

fn make_image(
    rt: &HostRuntime,
    sectors: usize,
    pages: usize,
    n: usize,
    status: u8,
) -> anyhow::Result<()> {
    print!(rt; "  {sectors} sectors of {pages} pages, {n} bytes, status {status:02X}h: ")?;
    let bytes = vec![in rt.alloc(); HELD; n]?;
    show(rt, PlainImage::new(sectors, pages, status, bytes))
}

fn make_chip(
    rt: &HostRuntime,
    capacity: u8,
    n: usize,
    status: u8,
    busy: usize,
) -> anyhow::Result<()> {
    print!(rt; "  chip {capacity:02X}h, {n} bytes, status {status:02X}h, busy number {busy}: ")?;
    let bytes = vec![in rt.alloc(); HELD; n]?;
    show(rt, BenchChip::new(capacity, bytes, status, busy))
}

fn make_images(rt: &HostRuntime) -> anyhow::Result<()> {
    println!(rt; "plain images made")?;
    make_image(rt, 8, 4, 2048, 0x80)?;
    make_image(rt, 0, 4, 2048, 0x80)?;
    make_image(rt, 129, 4, 2048, 0x80)?;
    make_image(rt, 8, 0, 2048, 0x80)?;
    make_image(rt, 8, 2049, 2048, 0x80)?;
    make_image(rt, 8, 4, 2047, 0x80)?;
    make_image(rt, 8, 4, 2049, 0x80)?;
    make_image(rt, 8, 4, 2048, 0x7C)?;
    make_image(rt, 8, 4, 2048, 0x81)?;
    make_image(rt, 8, 4, 2048, 0x82)?;
    // where two apply, or all
    make_image(rt, 0, 4, 2047, 0x7C)?;
    make_image(rt, 8, 4, 0, 0x7C)
}

fn make_chips(rt: &HostRuntime) -> anyhow::Result<()> {
    println!(rt; "bench chips made")?;
    make_chip(rt, 0x0B, 2048, 0x80, 4096)?;
    make_chip(rt, 0x0C, 2048, 0x80, 2)?;
    make_chip(rt, 0x0B, 2047, 0x80, 2)?;
    make_chip(rt, 0x0B, 2048, 0x7C, 2)?;
    make_chip(rt, 0x0B, 2048, 0x81, 2)?;
    make_chip(rt, 0x0B, 2048, 0x82, 2)?;
    make_chip(rt, 0x0B, 2048, 0x80, 4097)?;
    // where two apply, or all
    make_chip(rt, 0x0C, 2047, 0x7C, 4097)?;
    make_chip(rt, 0x0B, 2049, 0x7C, 4097)?;
    make_chip(rt, 0x0B, 2048, 0x7C, 4097)
}

pub(crate) fn try_making(rt: &HostRuntime) -> anyhow::Result<()> {
    make_images(rt)?;
    make_chips(rt)
}
