// A driver attached to a port, and calls made to a new fence over it.
ghost use Rattle.std.specs.Prelude.{◌≡◌, MatchResult};
ghost use Rattle.attached.specs.Attached.{Played, Refused};
ghost use Rattle.calls.specs.History.{state};

use calls::call::Entry;
use calls::perform::perform;
use driver::attach::{Unattached, attach};
use driver::driver::Driver;
use fence::fence::Fence;
use least::step::Step;
use port::port::Port;

// Attaches a driver to the port, by at most `limit` polls, puts a new fence over it, makes the calls in their order, and puts its
// answer beside each. Where it does not attach, no call is made and nothing that was lent is touched. (The step list and the data
// buffer are lent apart, as `write` takes them.)
pub fn perform_attached<P: Port>(
    port: P,
    limit: usize,
    entries: &mut [Entry],
    steps: &mut [Step],
    data: &mut [u8],
) -> Result<Fence<Driver<P>>, Unattached<P>>
    ensures { MatchResult result
        (λ f. Played P.Port limit port steps.old «data».old entries.old entries.new (state f steps.new «data».new))
        (λ u. Refused P.Port limit port u.fault u.port × (entries.new ≡ entries.old) × (steps.new ≡ steps.old) × («data».new ≡ «data».old)) }
{
    let driver = attach(port, limit)?;
    Ok(perform(driver, entries, steps, data))
}
