// Attaching a driver to the chip behind a port.
ghost use Rattle.std.specs.Prelude.{◌≡◌, false, [], ◌∷◌, replicate, Some, None, MatchResult};
ghost use Rattle.port.specs.Build.{status_frame};
ghost use Rattle.driver.specs.declared.fault.AttachFault.TheVariants.{Limit, Busy};
ghost use Rattle.driver.specs.Attach.{attach_frames, rested, unattached};
ghost use Rattle.driver.specs.Driving.{Intact, lowered};
ghost use Rattle.driver.specs.Frames.{identify_frame};

use crate::driver::Driver;
use crate::fault::AttachFault;
use crate::poll::{capacity, status, wait};
use memory::model::Model;
use memory::protection::Status;
use part::limit::is_limit;
use part::outline::Outline;
use port::port::Port;

// Asks an idle chip what it is: its identification tells the geometry, its status byte the protection. A port's chip is always
// one of the known models.
fn learn<P: Port>(port: &mut P) -> Outline
    requires { (P.Port.chip port.old).busy ≡ 0 }
    ensures learnt { Intact result (P.Port.chip port.old) }
    ensures idle { result.busy ≡ false }
    ensures chip { P.Port.chip port.new ≡ P.Port.chip port.old }
    ensures trace { P.Port.trace port.old port.new (identify_frame ∷ status_frame ∷ []) }
{
    let model = Model::find(capacity(port)).unwrap();
    Outline {
        geometry: model.geometry,
        status: Status::masked(status(port)),
        busy: false,
    }
}

// Why there is no driver, and the port handed back. Memory's `Unmade` hands back bytes: two types, since in each the field
// says what comes back.
#[derive(Drop)]
pub struct Unattached<P> {
    pub fault: AttachFault,
    pub port: P,
}

// A driver of the chip behind the port, once the chip is idle. The port is handed back where the limit of polls is
// not 1 to 4,096, and where the chip is still busy after that many.
pub fn attach<P: Port>(mut port: P, limit: usize) -> Result<Driver<P>, Unattached<P>>
    ensures { MatchResult result
        (λ d. (unattached limit (P.Port.chip port).busy ≡ None)
        × (d.outline.busy ≡ false)
        × (P.Port.chip d.port ≡ rested (P.Port.chip port))
        × P.Port.trace port d.port (attach_frames (P.Port.chip port).busy))
        (λ u. (unattached limit (P.Port.chip port).busy ≡ Some u.fault)
        × elim u.fault [
          | Limit n ↦ u.port ≡ port
          | Busy n ↦ (P.Port.chip u.port ≡ lowered limit (P.Port.chip port)) × P.Port.trace port u.port (replicate limit status_frame)
        ]) }
{
    if !is_limit(limit) {
        return Err(Unattached {
            fault: AttachFault::Limit(limit),
            port,
        });
    }
    if !wait(&mut port, limit) {
        return Err(Unattached {
            fault: AttachFault::Busy(limit),
            port,
        });
    }
    let outline = learn(&mut port);
    Ok(Driver { port, outline })
}
