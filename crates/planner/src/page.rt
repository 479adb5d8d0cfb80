// What a page costs, and how it is written.
ghost use Rattle.std.specs.Prelude.{◌≡◌};
ghost use Rattle.least.specs.Fewest.{fewest};
ghost use Rattle.least.specs.Window.{window};
ghost use Rattle.least.specs.Plan.{lowers, window_cost};
ghost use Rattle.planner.specs.Survey.{UpTo};

use least::cost::{Cost, NOTHING};
use least::window::window;
use memory::model::PAGE_BYTES;

pub(crate) type Page = [u8; PAGE_BYTES];

// A page once erased.
pub(crate) const BLANK: Page = [0xFF; PAGE_BYTES];

// What it costs to make one page the other: one page cycle at most.
pub(crate) fn page_cost(old: &Page, new: &Page) -> Cost
    ensures value { result ≡ window_cost fewest (window 64 old.now new.now) }
    ensures bound { UpTo 1 result }
{
    match window(old, new) {
        Some(run) => (1, run.length),
        None => NOTHING,
    }
}

// Whether no bit rises.
pub(crate) fn only_lowers(old: &Page, new: &Page) -> bool
    ensures { result ≡ lowers old.now new.now }
{
    old.iter().zip(new).all(|(a, b)| a & b == *b)
}
