// Listings written again without their notes, and those that are not.
use crate::memories::UNTOUCHED;
use anyhow::Context;
use listing::rewrite::rewrite;

fn try_rewrite(rt: &HostRuntime, text: &str, room: usize) -> anyhow::Result<()> {
    let mut into = vec![in rt.alloc(); UNTOUCHED; room]?;
    let answer = rewrite(text.as_bytes(), &mut into);
    print!(rt; "  {text:?} into {room} bytes: ")?;
    match answer {
        Ok(n) => println!(rt; "done, {n} bytes")?,
        Err(fault) => {
            let report = fault.report().context("no buffer is so long")?;
            let kept = into.iter().all(|byte| *byte == UNTOUCHED);
            println!(rt; "refused {report}, as they were {kept}")?;
        }
    }
    Ok(())
}

pub(crate) fn try_rewrites(rt: &HostRuntime) -> anyhow::Result<()> {
    println!(rt; "listings written again")?;
    try_rewrite(rt, "06\n; a note\n05 > 01\n", 11)?;
    try_rewrite(rt, "06\n; a note\n05 > 01\n", 10)?;
    try_rewrite(rt, "06\n; a note\n05 > 00\n", 11)
}
