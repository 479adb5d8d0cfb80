// What a write costs, sector by sector. A page that it touches is read once, for what it costs to keep and once erased; no
// other page is read unless an erase may still be lower.
ghost use Rattle.std.specs.Prelude.{◌≡◌, ℕ, ◌+◌, ◌^◌, ◌<◌, IfSome, if◌then◌else◌};
ghost use Rattle.least.specs.Fewest.{fewest};
ghost use Rattle.planner.specs.Asking.{bytes_below, bytes_on};
ghost use Rattle.planner.specs.Looking.{LookedBy};
ghost use Rattle.planner.specs.Wanted.{Fitting, PagesIn, Readable, touched};
ghost use Rattle.planner.specs.Survey.{UpTo, below, erased_from, kept, kept_from, on_from, preset_off, preset_on};

use crate::look::{both_pages, read_page};
use crate::overlay::Write;
use crate::page::{BLANK, page_cost};
use least::cost::{Cost, ERASE, NOTHING, added, at_most};
use part::part::Part;
use std::ops::AddAssign;

// The two added. No count here comes near the largest number, so none is cut off.
fn plus(a: Cost, b: Cost) -> Cost
    requires { (a.0 + b.0 < 2 ^ 64) × (a.1 + b.1 < 2 ^ 64) }
    ensures { result ≡ fewest.plus a b }
{
    added(a, b)
}

// What pages cost, and what the presets cost of those that the write touches.
#[derive(Clone, Copy)]
pub struct Costs {
    pub cost: Cost,
    pub presets: Cost,
}

impl Costs {
    pub const NONE: Costs = Costs {
        cost: NOTHING,
        presets: NOTHING,
    };
}

impl AddAssign for Costs {
    ghost can_add_assign = { λ a b. (a.cost.0 + b.cost.0 < 2 ^ 64) × (a.cost.1 + b.cost.1 < 2 ^ 64) × (a.presets.0 + b.presets.0 < 2 ^ 64) × (a.presets.1 + b.presets.1 < 2 ^ 64) };

    ghost add_assign_gives = { λ a b r. (r.cost ≡ fewest.plus a.cost b.cost) × (r.presets ≡ fewest.plus a.presets b.presets) };

    fn add_assign(&mut self, other: Costs) {
        self.cost = plus(self.cost, other.cost);
        self.presets = plus(self.presets, other.presets);
    }
}

// Page q as it stands, and once erased if the write touches it: a page that it does not touch costs nothing to keep.
fn page_costs<P: Part>(part: &mut P, write: Write<'_>, q: usize) -> Costs
    requires { Fitting (P.Part.meaning part.old) write.address write.bytes.now × Readable (P.Part.meaning part.old) q }
    ensures looked { LookedBy P.Part (if touched write.entry.address write.entry.bytes.now q then 64 else 0) part.old part.new }
    ensures bound { UpTo 1 result.cost × UpTo 1 result.presets }
    ensures kept { result.cost ≡ kept (P.Part.meaning part.old) write.entry.address write.entry.bytes.now q }
    ensures preset { result.presets ≡ preset_on (P.Part.meaning part.old) write.entry.address write.entry.bytes.now q }
{
    if !write.touches(q) {
        return Costs::NONE;
    }
    let (old, new) = both_pages(part, write, q);
    Costs {
        cost: page_cost(&old, &new),
        presets: page_cost(&BLANK, &new),
    }
}

// Page q once erased, if the write does not touch it.
fn rest_cost<P: Part>(part: &mut P, write: Write<'_>, q: usize) -> Cost
    requires { Fitting (P.Part.meaning part.old) write.address write.bytes.now × Readable (P.Part.meaning part.old) q }
    ensures looked { LookedBy P.Part (if touched write.entry.address write.entry.bytes.now q then 0 else 64) part.old part.new }
    ensures bound { UpTo 1 result }
    ensures value { result ≡ preset_off (P.Part.meaning part.old) write.entry.address write.entry.bytes.now q }
{
    if write.touches(q) {
        return NOTHING;
    }
    let page = read_page(part, q);
    page_cost(&BLANK, &page)
}

// Pages as they stand, and once erased those that the write touches. `first` and `count` go side by side here and in three functions
// more: their bound is the part's, so that a struct of both could not carry it.
pub(crate) fn touched_costs<P: Part>(
    part: &mut P,
    write: Write<'_>,
    first: usize,
    count: usize,
) -> Costs
    requires fitting { Fitting (P.Part.meaning part.old) write.address write.bytes.now }
    requires count_bound { PagesIn (P.Part.meaning part.old) first count }
    ensures looked { LookedBy P.Part (bytes_on write.entry.address write.entry.bytes.now first count) part.old part.new }
    ensures bound { UpTo count result.cost × UpTo count result.presets }
    ensures kept { result.cost ≡ kept_from (P.Part.meaning part.old) write.entry.address write.entry.bytes.now first count }
    ensures presets { result.presets ≡ on_from (P.Part.meaning part.old) write.entry.address write.entry.bytes.now first count }
{
    let mut costs = Costs::NONE;
    for q in first..first + count {
        costs += page_costs(part, write, q);
    }
    costs
}

// An erase and then presets of pages, if that is below a limit, from the presets of those that the write touches. Costs only
// grow, so no page is read once they reach the limit.
pub(crate) fn erase_costs<P: Part>(
    part: &mut P,
    write: Write<'_>,
    first: usize,
    count: usize,
    presets: Cost,
    limit: Cost,
) -> Option<Cost>
    requires fitting { Fitting (P.Part.meaning part.old) write.address write.bytes.now }
    requires count_bound { PagesIn (P.Part.meaning part.old) first count }
    requires presets_bound { UpTo 262144 presets }
    ensures looked { LookedBy P.Part (bytes_below (P.Part.meaning part.old) write.entry.address write.entry.bytes.now limit (fewest.plus (1, 0) presets) first count) part.old part.new }
    ensures bound { (n : ℕ) → UpTo n presets → IfSome result (UpTo (1 + n + count)) }
    ensures value { presets ≡ on_from (P.Part.meaning part.old) write.entry.address write.entry.bytes.now first count → result ≡ below limit (erased_from (P.Part.meaning part.old) write.entry.address write.entry.bytes.now first count) }
{
    let mut cost = plus(ERASE, presets);
    for q in first..first + count {
        if at_most(limit, cost) {
            return None;
        }
        cost = plus(cost, rest_cost(part, write, q));
    }
    if at_most(limit, cost) {
        None
    } else {
        Some(cost)
    }
}
