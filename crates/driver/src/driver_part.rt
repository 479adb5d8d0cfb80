// The driver is a part.
ghost use Rattle.std.specs.Prelude.{◌≡◌, ◌-◌, ◌≤◌, true, false, not, [], ◌∷◌, ◌++◌, length, is_ok, if◌then◌else◌};
ghost use Rattle.memory.specs.Page.{block};
ghost use Rattle.memory.specs.Cycle.{cycle_of, effect};
ghost use Rattle.port.specs.Build.{status_frame};
ghost use Rattle.port.specs.Machine.{after, waited as polled_chip};
ghost use Rattle.part.specs.Meaning.{asked, carried, polled, waited};
ghost use Rattle.part.specs.Outline.{guarding, outlined};
ghost use Rattle.part.specs.Verdict.{idle, read_verdict, refusal, told, verdict};
ghost use Rattle.driver.specs.Frames.{cycle_frame, cycle_frames, enable_frame, reads};
ghost use Rattle.driver.specs.Means.{driver_meaning, DriverTrace};
ghost use Rattle.driver.specs.Joins.{seen-sound, drives_none, drives-++};

use crate::cycle::{is_clean_for, send};
use crate::driver::Driver;
use crate::poll::is_busy;
use crate::read::read;
use memory::geometry::Geometry;
use memory::kind::Kind;
use part::fault::PartFault;
use part::part::Part;
use port::port::Port;

impl<P: Port> Part for Driver<P> {
    ghost meaning = { driver_meaning P.Port };

    ghost trace = { DriverTrace P.Port };

    ghost sound = { λ s. seen-sound s.outline (P.Port.chip s.port) (P.Port.sound s.port).0 s.intact };

    ghost stays = { λ s. ([], P.Port.stays s.port, drives_none s.outline (P.Port.chip s.port)) };

    ghost joins = { λ a b c l m p q. (
      p.0 ++ q.0,
      P.Port.joins _ _ _ _ _ p.1 q.1,
      drives-++ a.outline b.outline c.outline _ _ _ p.0 q.0 l m p.2 q.2,
    ) };

    ghost tells = { λ a b l p. p.2.tells };

    fn geometry(&self) -> Geometry {
        self.outline.geometry
    }

    fn is_busy(&self) -> bool {
        self.outline.busy
    }

    fn is_protected(&self, sector: usize) -> Result<bool, PartFault> {
        self.outline.is_protected(sector)
    }

    // The trait's clauses, and the frames: reads as long as the port carries, which alter nothing of the chip; none of a refused read.
    fn read(&mut self, address: usize, into: &mut [u8]) -> Result<(), PartFault>
        ensures result { result ≡ told (read_verdict (driver_meaning P.Port self.old) address (length into.old)) }
        ensures same { driver_meaning P.Port self.new ≡ driver_meaning P.Port self.old }
        ensures unread { is_ok result ≡ false → into.new ≡ into.old }
        ensures bytes { is_ok result ≡ true → into.new ≡ block address (length into.old) (driver_meaning P.Port self.old).image }
        ensures trace { DriverTrace P.Port self.old self.new (if is_ok result then asked (length into.old) ∷ [] else []) }
        ensures chip { P.Port.chip self.new.port ≡ P.Port.chip self.old.port }
        ensures frames { P.Port.trace self.old.port self.new.port (if is_ok result then reads (P.Port.longest self.old.port - 4) address (length into.old) else []) }
    {
        self.outline.check_read(address, into.len())?;
        read(&mut self.port, address, into);
        Ok(())
    }

    // The trait's clauses, and the frames: a preset's page is read, then write enable is sent, and the cycle. What is refused before that
    // sends none, and a preset of a used page only the reads.
    fn cycle(&mut self, kind: Kind, address: usize, data: &[u8]) -> Result<(), PartFault>
        ensures result { result ≡ told (verdict (driver_meaning P.Port self.old) kind address «data».now) }
        ensures shape { (driver_meaning P.Port self.new).shape ≡ (driver_meaning P.Port self.old).shape }
        ensures guarded { (driver_meaning P.Port self.new).guarded ≡ (driver_meaning P.Port self.old).guarded }
        ensures undone { is_ok result ≡ false → driver_meaning P.Port self.new ≡ driver_meaning P.Port self.old }
        ensures image { is_ok result ≡ true → (driver_meaning P.Port self.new).image ≡ effect (driver_meaning P.Port self.old).shape (cycle_of kind address «data».now) (driver_meaning P.Port self.old).image }
        ensures due { is_ok result ≡ true → 1 ≤ (driver_meaning P.Port self.new).due }
        ensures trace { DriverTrace P.Port self.old self.new (if is_ok result then carried (cycle_of kind address «data».now) ∷ [] else []) }
        ensures chip { P.Port.chip self.new.port ≡ (if is_ok result then after (P.Port.chip self.new.port).busy (after 0 (P.Port.chip self.old.port) enable_frame) (cycle_frame kind address «data».now) else P.Port.chip self.old.port) }
        ensures frames { P.Port.trace self.old.port self.new.port (cycle_frames (P.Port.longest self.old.port - 4) (refusal (outlined self.old.outline) (guarding self.old.outline) (not self.old.outline.busy) true kind address (length «data».now)) (is_ok result) kind address «data».now) }
    {
        self.outline.check_cycle(kind, address, data.len())?;
        if !is_clean_for(&mut self.port, kind, address) {
            return Err(PartFault::NotBlank(address));
        }
        send(&mut self.port, kind, address, data);
        self.outline.busy = true;
        Ok(())
    }

    // The trait's clauses, and the one frame: a status read, which leaves the latch.
    fn poll(&mut self) -> bool
        ensures idle { result ≡ idle (driver_meaning P.Port self.new) }
        ensures waited { driver_meaning P.Port self.new ≡ waited (driver_meaning P.Port self.old) }
        ensures trace { DriverTrace P.Port self.old self.new (polled ∷ []) }
        ensures chip { P.Port.chip self.new.port ≡ polled_chip (P.Port.chip self.old.port) }
        ensures frames { P.Port.trace self.old.port self.new.port (status_frame ∷ []) }
    {
        let busy = is_busy(&mut self.port);
        self.outline.busy = self.outline.busy && busy;
        !self.outline.busy
    }
}
