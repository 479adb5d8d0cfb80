// Reads a script of calls, makes them to a fence over a driver of a bench chip, and prints what came of each.
#![tactic(auto)]

mod play;

use play::play;
use script::read::{MOST_TEXT, read_script};
use std::io::{Read, Write};
use std::process::ExitCode;

fn main(rt: HostRuntime) -> anyhow::Result<ExitCode> {
    let heap = rt.alloc();
    let mut text = Vec::new(heap);
    // one byte more, so that a script that is too long is seen to be
    rt.stdin()
        .take(MOST_TEXT as u64 + 1)
        .read_to_end(&mut text)?;
    match read_script(heap, &text) {
        Ok(script) => {
            rt.stdout().write_all(play(heap, script)?.as_bytes())?;
            Ok(ExitCode::SUCCESS)
        }
        Err(fault) => {
            eprintln!(rt; "{fault}")?;
            Ok(ExitCode::FAILURE)
        }
    }
}
