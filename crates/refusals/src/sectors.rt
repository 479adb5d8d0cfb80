// Which sectors a status byte protects, as a part answers for each.
use crate::memories::{SECTORS, blank, make_driver, make_image};
use crate::told::Told;
use part::part::Part;

const STATUSES: [u8; 5] = [0x80, 0x8C, 0xA4, 0x90, 0xC0];

// Those that the part answers are protected.
pub(crate) fn show_protected<P: Part>(rt: &HostRuntime, part: &P) -> anyhow::Result<()> {
    print!(rt; "protected:")?;
    for sector in 0..SECTORS {
        if matches!(part.is_protected(sector), Ok(true)) {
            print!(rt; " {sector}")?;
        }
    }
    println!(rt; "")?;
    Ok(())
}

fn try_part<P: Part>(rt: &HostRuntime, status: u8, part: &P) -> anyhow::Result<()> {
    print!(rt; "  status {status:02X}h, ")?;
    show_protected(rt, part)?;
    let told = Told::new(part.is_protected(SECTORS).map(|_| ()));
    println!(rt; "  status {status:02X}h, sector {SECTORS}: {told}")?;
    Ok(())
}

pub(crate) fn try_sectors(rt: &HostRuntime) -> anyhow::Result<()> {
    println!(rt; "sectors of a plain image")?;
    for status in STATUSES {
        try_part(rt, status, &make_image(status, blank(rt.alloc())?)?)?;
    }
    println!(rt; "sectors of a driver")?;
    for status in STATUSES {
        try_part(rt, status, &make_driver(status, blank(rt.alloc())?)?)?;
    }
    Ok(())
}
