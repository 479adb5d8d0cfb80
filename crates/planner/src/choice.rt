// How a write is carried out at least cost: all erased first, or sector by sector.
ghost use Rattle.std.specs.Prelude.{◌≡◌, ℕ, ◌+◌, ◌*◌, ◌<◌, length, if◌then◌else◌, None, slice_index_or};
ghost use Rattle.memory.specs.Protection.{free};
ghost use Rattle.part.specs.Meaning.{protected_at};
ghost use Rattle.least.specs.Fewest.{fewest};
ghost use Rattle.least.specs.Sectors.{bulk_cost, over_sector, sector_cost};
ghost use Rattle.planner.specs.Asking.{bytes_below, for_bulk, for_costs, for_sectors};
ghost use Rattle.planner.specs.Looking.{LookedBy};
ghost use Rattle.planner.specs.Wanted.{Fitting};
ghost use Rattle.planner.specs.Survey.{UpTo, below, by_sectors, kept, on_all, preset, preset_on, sector_treatment};
ghost use Rattle.planner.specs.declared.chosen.Treatment.TheVariants.{Kept};
ghost use Rattle.planner.specs.Choice.{Chosen};

use crate::chosen::{Choice, Erasure, Treatment};
use crate::look::protects;
use crate::overlay::Write;
use crate::survey::{Costs, erase_costs, touched_costs};
use least::cost::Cost;
use memory::geometry::MOST_SECTORS;
use part::part::Part;

// How the pages of a sector are written, and what it then costs.
#[derive(Clone, Copy)]
struct Sector {
    treatment: Treatment,
    costs: Costs,
}

fn sector_cost<P: Part>(part: &mut P, write: Write<'_>, k: usize) -> Sector
    requires { Fitting (P.Part.meaning part.old) write.address write.bytes.now × (k < (P.Part.meaning part.old).shape.sectors) }
    ensures looked { LookedBy P.Part (for_costs (P.Part.meaning part.old) write.entry.address write.entry.bytes.now (k * (P.Part.meaning part.old).shape.pages) (P.Part.meaning part.old).shape.pages) part.old part.new }
    ensures bound { UpTo 4097 result.costs.cost × UpTo 2048 result.costs.presets }
    ensures treatment { result.treatment ≡ sector_treatment (P.Part.meaning part.old) write.entry.address write.entry.bytes.now k }
    ensures value { result.costs.cost ≡ sector_cost fewest (P.Part.meaning part.old).shape (kept (P.Part.meaning part.old) write.entry.address write.entry.bytes.now) (preset (P.Part.meaning part.old) write.entry.address write.entry.bytes.now) k }
    ensures touched { result.costs.presets ≡ over_sector fewest (P.Part.meaning part.old).shape (preset_on (P.Part.meaning part.old) write.entry.address write.entry.bytes.now) k }
{
    let pages = part.pages();
    let first = k * pages;
    let kept = touched_costs(part, write, first, pages);
    match erase_costs(part, write, first, pages, kept.presets, kept.cost) {
        Some(cost) => Sector {
            treatment: Treatment::Erased,
            costs: Costs { cost, ..kept },
        },
        None => Sector {
            treatment: Treatment::Kept,
            costs: kept,
        },
    }
}

// What the sectors cost together, and the presets of all touched pages. Marks each sector.
fn sector_costs<P: Part>(part: &mut P, write: Write<'_>, marks: &mut [Treatment]) -> Costs
    requires { Fitting (P.Part.meaning part.old) write.address write.bytes.now × (length marks.old ≡ (P.Part.meaning part.old).shape.sectors) }
    ensures looked { LookedBy P.Part (for_sectors (P.Part.meaning part.old) write.entry.address write.entry.bytes.now (P.Part.meaning part.old).shape.sectors) part.old part.new }
    ensures bound { UpTo 262144 result.presets }
    ensures value { result.cost ≡ by_sectors (P.Part.meaning part.old) write.entry.address write.entry.bytes.now }
    ensures touched { result.presets ≡ on_all (P.Part.meaning part.old) write.entry.address write.entry.bytes.now }
    ensures marks { (k : ℕ) → k < (P.Part.meaning part.old).shape.sectors → slice_index_or marks.new k Kept ≡ sector_treatment (P.Part.meaning part.old) write.entry.address write.entry.bytes.now k }
{
    let mut costs = Costs::NONE;
    for (k, mark) in marks.iter_mut().enumerate() {
        let sector = sector_cost(part, write, k);
        *mark = sector.treatment;
        costs += sector.costs;
    }
    costs
}

fn is_free<P: Part>(part: &P) -> bool
    ensures { result ≡ free (protected_at (P.Part.meaning part.now)) (P.Part.meaning part.now).shape.sectors }
{
    !(0..part.sectors()).any(|k| protects(part, k))
}

// A bulk erase and then presets, if it is accepted and below what the sectors cost, from the presets of the touched pages.
fn bulk_cost<P: Part>(part: &mut P, write: Write<'_>, presets: Cost, limit: Cost) -> Option<Cost>
    requires fitting { Fitting (P.Part.meaning part.old) write.address write.bytes.now }
    requires presets_bound { UpTo 262144 presets }
    ensures looked { LookedBy P.Part (if free (protected_at (P.Part.meaning part.old)) (P.Part.meaning part.old).shape.sectors then bytes_below (P.Part.meaning part.old) write.entry.address write.entry.bytes.now limit (fewest.plus (1, 0) presets) 0 ((P.Part.meaning part.old).shape.sectors * (P.Part.meaning part.old).shape.pages) else 0) part.old part.new }
    ensures value { presets ≡ on_all (P.Part.meaning part.old) write.entry.address write.entry.bytes.now → result ≡ (if free (protected_at (P.Part.meaning part.old)) (P.Part.meaning part.old).shape.sectors then below limit (bulk_cost fewest (P.Part.meaning part.old).shape (preset (P.Part.meaning part.old) write.entry.address write.entry.bytes.now)) else None) }
{
    if !is_free(part) {
        return None;
    }
    let count = part.sectors() * part.pages();
    erase_costs(part, write, 0, count, presets, limit)
}

pub(crate) fn choose<P: Part>(part: &mut P, write: Write<'_>) -> Choice
    requires { Fitting (P.Part.meaning part.old) write.address write.bytes.now }
    ensures looked { LookedBy P.Part (for_sectors (P.Part.meaning part.old) write.entry.address write.entry.bytes.now (P.Part.meaning part.old).shape.sectors + for_bulk (P.Part.meaning part.old) write.entry.address write.entry.bytes.now) part.old part.new }
    ensures value { Chosen (P.Part.meaning part.old) write.entry.address write.entry.bytes.now result }
{
    // the part's sectors are the first of them
    let mut marks = [Treatment::Kept; MOST_SECTORS];
    let count = part.sectors();
    let sectors = sector_costs(part, write, &mut marks[..count]);
    match bulk_cost(part, write, sectors.presets, sectors.cost) {
        Some(cost) => Choice {
            erasure: Erasure::All,
            cost,
        },
        None => Choice {
            erasure: Erasure::Sectors(marks),
            cost: sectors.cost,
        },
    }
}
