// Calls that are refused, by each cause and, where two apply, by the first: a line for each try, with layer, number and values.
// docs/refusals.md lists the causes and the orders of the checks.
#![tactic(auto)]

mod attaching;
mod buffers;
mod cycles;
mod fences;
mod frames;
mod listings;
mod making;
mod memories;
mod plans;
mod rewrites;
mod runs;
mod sectors;
mod steps;
mod told;
mod tries;
mod writes;

use attaching::try_attaching;
use cycles::try_cycles;
use fences::try_fences;
use frames::try_frames;
use listings::try_listings;
use making::try_making;
use plans::try_plans;
use rewrites::try_rewrites;
use runs::try_runs;
use sectors::try_sectors;
use writes::try_writes;

fn main(rt: HostRuntime) -> anyhow::Result<()> {
    try_making(&rt)?;
    try_frames(&rt)?;
    try_attaching(&rt)?;
    try_sectors(&rt)?;
    try_cycles(&rt)?;
    try_fences(&rt)?;
    try_plans(&rt)?;
    try_runs(&rt)?;
    try_writes(&rt)?;
    try_listings(&rt)?;
    try_rewrites(&rt)
}
