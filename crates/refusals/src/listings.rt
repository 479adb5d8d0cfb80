// Plans listed as frames, and those that are not.
use crate::memories::UNTOUCHED;
use crate::steps::{program, show_steps, step};
use anyhow::Context;
use least::step::Step;
use listing::plan::list_plan;
use memory::kind::Kind;

const DATA: [u8; 7] = [0x11, 0x22, 0x33, 0x44, 0x55, 0x66, 0x77];

// A byte more than a page.
const LONG: [u8; 65] = [0x11; 65];

// A cycle of each kind. Of a bulk erase the address is not looked at, of an erase neither length nor place.
fn each_kind() -> [Step; 5] {
    [
        step(Kind::Program, 62, 4, 0),
        step(Kind::Alter, 258, 1, 4),
        step(Kind::Preset, 0xFFFFFF, 2, 5),
        step(Kind::SectorErase, 0x010100, 99, 99),
        step(Kind::BulkErase, 0x01000000, 99, 99),
    ]
}

// The text, or the refusal and whether the buffer is as it was.
fn try_list(rt: &HostRuntime, steps: &[Step], data: &[u8], room: usize) -> anyhow::Result<()> {
    let mut text = vec![in rt.alloc(); UNTOUCHED; room]?;
    show_steps(rt, steps)?;
    match list_plan(steps, data, &mut text) {
        Ok(n) => {
            let kept = text.iter().skip(n).all(|byte| *byte == UNTOUCHED);
            println!(rt; " {n} of {room} bytes, the rest as it was {kept}")?;
            text.truncate(n);
            let text = String::from_utf8(text)
                .ok()
                .context("the text is not UTF-8")?;
            print!(rt; "{text}")?;
        }
        Err(fault) => {
            let report = fault.report().context("no buffer is so long")?;
            let kept = text.iter().all(|byte| *byte == UNTOUCHED);
            println!(rt; " refused {report}, {room} bytes as they were {kept}")?;
        }
    }
    Ok(())
}

fn try_texts(rt: &HostRuntime) -> anyhow::Result<()> {
    println!(rt; "plans listed")?;
    try_list(rt, &each_kind(), &DATA, 90)?;
    try_list(rt, &[program(0)], &DATA, 18)?;
    try_list(rt, &[], &[], 0)
}

fn try_refused(rt: &HostRuntime) -> anyhow::Result<()> {
    println!(rt; "plans that are not listed")?;
    let listed = program(0);
    let far = program(0x01000000);
    let empty = Step {
        length: 0,
        ..listed
    };
    let long = Step {
        length: 65,
        ..listed
    };
    let past_data = Step {
        place: 65,
        ..listed
    };
    try_list(rt, &each_kind(), &DATA, 86)?;
    try_list(rt, &[far], &LONG, 90)?;
    try_list(rt, &[empty], &LONG, 90)?;
    try_list(rt, &[long], &LONG, 90)?;
    try_list(rt, &[past_data], &LONG, 90)?;
    // where two apply: 1 before 2 of one step, the first step's, and both before 14
    try_list(rt, &[Step { length: 0, ..far }], &LONG, 90)?;
    try_list(rt, &[empty, far], &LONG, 90)?;
    try_list(rt, &[listed, far], &LONG, 0)?;
    try_list(rt, &[listed, empty], &LONG, 0)
}

pub(crate) fn try_listings(rt: &HostRuntime) -> anyhow::Result<()> {
    try_texts(rt)?;
    try_refused(rt)
}
