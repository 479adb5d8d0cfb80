// The same calls made to a fence over an image in memory and to one over a driver on a bench chip: they answer alike, and
// leave the same buffers and bytes.
#![tactic(auto)]

mod lists;
mod outcome;
mod rounds;
mod side;
mod slow;
mod slow_part;
#[cfg(test)]
mod tests;

use anyhow::Context;
use rounds::{Round, rounds};
use std::process::ExitCode;
use trials::picker::Picker;

// The seed where the standard input has none.
const SEED: usize = 1;

// Rounds have seeds of their own, below this.
const SEEDS: usize = 1000000;

// The first line of the standard input, in decimal.
fn read_seed(rt: &HostRuntime) -> anyhow::Result<usize> {
    let Some(line) = rt.lines(rt.alloc()).next() else {
        return Ok(SEED);
    };
    line?.trim().parse().context("the seed")
}

// Plays all rounds, and answers whether the sides of every one are alike.
fn are_alike(rt: &HostRuntime, rounds: &[Round], seed: usize) -> anyhow::Result<bool> {
    let mut picker = Picker::new(seed);
    let mut alike = true;
    for round in rounds {
        alike = round.compare(rt, picker.pick(SEEDS))? && alike;
    }
    Ok(alike)
}

// Prints how it ended, and answers the program's status.
fn conclude(rt: &HostRuntime, alike: bool) -> anyhow::Result<ExitCode> {
    if !alike {
        println!(rt; "not alike")?;
        return Ok(ExitCode::FAILURE);
    }
    println!(rt; "all alike")?;
    Ok(ExitCode::SUCCESS)
}

fn main(rt: HostRuntime) -> anyhow::Result<ExitCode> {
    let seed = read_seed(&rt)?;
    println!(rt; "seed {seed}")?;
    let alike = are_alike(&rt, &rounds(), seed)?;
    conclude(&rt, alike)
}
