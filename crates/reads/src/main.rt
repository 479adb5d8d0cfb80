// How many bytes planning asks of a memory: of a 128Mb plain image, and of small memories where it has to read most.
#![tactic(auto)]

ghost use Rattle.std.specs.Prelude.{◌≡◌, ◌*◌, ◌≤◌, IfOk, nat_le};

mod adverse;
mod counting;

use adverse::make;
use anyhow::Context;
use counting::{Asked, Counting, plan_counted};
use least::step::Step;
use memory::geometry::{Geometry, MOST_BYTES, MOST_PAGES, MOST_SECTORS};
use memory::model::PAGE_BYTES;
use std::alloc::Global;
use trials::plain::plain_image;
use trials::stretch::Stretch;
use trials::trial::{OPEN, Trial};

const SECTOR: usize = MOST_PAGES * PAGE_BYTES;

const BYTES: usize = MOST_BYTES;

// Writes tried on each small memory.
const TRIED: usize = 4000;

// Plans a write over a plain image.
fn ask(heap: Global, geometry: Geometry, trial: Trial) -> anyhow::Result<Asked> {
    let Trial {
        status,
        image,
        address,
        bytes,
    } = trial;
    let mut steps = vec![in heap; Step::UNUSED; image.len() / PAGE_BYTES + 1]?;
    let mut data = vec![in heap; 0; image.len()]?;
    let inner = plain_image(geometry.sectors, geometry.pages, status, image)?;
    let mut part = Counting { inner, asked: 0 };
    Ok(plan_counted(&mut part, address, &bytes, &mut steps, &mut data))
}

// What a 128Mb memory holds: one value, but for a stretch that may hold another.
#[derive(Clone, Copy, PartialEq, Eq, Debug)]
struct Held {
    value: u8,
    but: Option<Stretch>,
}

const USED: Held = Held {
    value: 0x5A,
    but: None,
};

const FRESH: Held = Held {
    value: 0xFF,
    but: None,
};

// Sixteen bytes of the sixth sector.
const EDIT: Stretch = Stretch {
    address: 5 * SECTOR + 1000,
    length: 16,
    value: 0xA5,
};

const ALL: Stretch = Stretch {
    address: 0,
    length: BYTES,
    value: 0xA5,
};

// A memory, a write of it, and how they are named.
#[derive(Clone, Copy, PartialEq, Eq, Debug)]
struct Case {
    what: &'static str,
    held: Held,
    write: Stretch,
}

const CASES: [Case; 7] = [
    Case {
        what: "16 bytes in a used memory",
        held: USED,
        write: EDIT,
    },
    Case {
        what: "16 bytes in a fresh memory",
        held: FRESH,
        write: EDIT,
    },
    Case {
        what: "16 bytes over the end of a page",
        held: USED,
        write: Stretch {
            address: 5 * SECTOR + 1016,
            ..EDIT
        },
    },
    Case {
        what: "16 bytes back to FFh, the last in their sector",
        held: Held {
            but: Some(Stretch {
                value: 0x5A,
                ..EDIT
            }),
            ..FRESH
        },
        write: Stretch {
            value: 0xFF,
            ..EDIT
        },
    },
    Case {
        what: "a sector",
        held: USED,
        write: Stretch {
            address: 5 * SECTOR,
            length: SECTOR,
            value: 0xA5,
        },
    },
    Case {
        what: "all",
        held: USED,
        write: ALL,
    },
    Case {
        what: "all back to FFh",
        held: USED,
        write: Stretch { value: 0xFF, ..ALL },
    },
];

fn show(rt: &HostRuntime, case: Case) -> anyhow::Result<()> {
    let Case { what, held, write } = case;
    let heap = rt.alloc();
    let mut image = vec![in heap; held.value; BYTES]?;
    if let Some(stretch) = held.but {
        stretch.fill(&mut image);
    }
    let trial = Trial {
        status: OPEN,
        image,
        address: write.address,
        bytes: vec![in heap; write.value; write.length]?,
    };
    let geometry = geometry(MOST_SECTORS, MOST_PAGES)?;
    let Asked { plan, bytes: asked } = ask(heap, geometry, trial)?;
    match plan {
        Ok((cycles, sent)) => println!(rt;
            "{what}: {asked} bytes asked for a plan of {cycles} cycles, {sent} bytes"
        )?,
        Err(_) => println!(rt; "{what}: {asked} bytes asked, and no plan")?,
    }
    Ok(())
}

fn geometry(sectors: usize, pages: usize) -> anyhow::Result<Geometry> {
    Geometry::new(sectors, pages).context("no memory is divided so")
}

// Plans over a memory: how many were made, and the most bytes that one of them asked of it.
#[derive(Clone, Copy, PartialEq, Eq, Debug)]
struct Plans {
    made: usize,
    most: usize,
}

fn worst(heap: Global, geometry: Geometry) -> anyhow::Result<Plans>
    ensures { IfOk result (λ plans. plans.made ≡ TRIED) }
{
    let mut plans = Plans { made: 0, most: 0 };
    // not a chain: what cannot be allocated ends it by `?`
    for number in 0..TRIED {
        let trial = make(heap, geometry.size(), number)?;
        let asked = ask(heap, geometry, trial)?.bytes;
        plans.made += 1;
        plans.most = plans.most.max(asked);
    }
    Ok(plans)
}

// Whether no more was asked than three times a memory's bytes.
fn is_within_three(asked: usize, size: usize) -> bool
    requires { size ≤ BYTES }
    ensures { result ≡ nat_le asked (3 * size) }
{
    asked <= 3 * size
}

fn show_worst(rt: &HostRuntime, geometry: Geometry) -> anyhow::Result<()> {
    let Plans { made, most } = worst(rt.alloc(), geometry)?;
    let sectors = geometry.sectors;
    let pages = geometry.pages;
    let size = geometry.size();
    let within = is_within_three(most, size);
    println!(rt;
        "sectors {sectors} of pages {pages}, {size} bytes: at most {most} asked in {made} plans, within three times: {within}"
    )?;
    Ok(())
}

fn main(rt: HostRuntime) -> anyhow::Result<()> {
    for case in CASES {
        show(&rt, case)?;
    }
    for sectors in 1..4 {
        for pages in [1, 4, 32] {
            show_worst(&rt, geometry(sectors, pages)?)?;
        }
    }
    Ok(())
}
