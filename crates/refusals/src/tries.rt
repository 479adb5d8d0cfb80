// Calls of a part, a line for each.
use crate::memories::UNTOUCHED;
use crate::told::Told;
use anyhow::ensure;
use hex_text::spaced::Spaced;
use memory::kind::Kind;
use part::limit::MOST_POLLS;
use part::part::Part;
use planner::wait::wait;

pub(crate) fn try_cycle<P: Part>(
    rt: &HostRuntime,
    part: &mut P,
    kind: Kind,
    address: usize,
    data: &[u8],
) -> anyhow::Result<()> {
    let told = Told::new(part.cycle(kind, address, data));
    let n = data.len();
    println!(rt; "  {kind:?} at {address}, {n} bytes: {told}")?;
    Ok(())
}

// Shows the buffer of a refused read too.
pub(crate) fn try_read<P: Part>(
    rt: &HostRuntime,
    part: &mut P,
    address: usize,
    n: usize,
) -> anyhow::Result<()> {
    let mut buffer = vec![in rt.alloc(); UNTOUCHED; n]?;
    let told = Told::new(part.read(address, &mut buffer));
    println!(rt;
        "  read of {n} bytes at {address}: {told}, buffer{}",
        Spaced(&buffer)
    )?;
    Ok(())
}

// Polls until nothing is due.
pub(crate) fn rest<P: Part>(part: &mut P) -> anyhow::Result<()> {
    ensure!(wait(part, MOST_POLLS), "the memory is still busy");
    Ok(())
}
