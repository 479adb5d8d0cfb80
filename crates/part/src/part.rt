// The part: a memory that can be planned for.
ghost use Rattle.std.specs.Prelude.{◌≡◌, ◌≤◌, true, false, not, List, [], ◌∷◌, ◌++◌, length, is_ok, if◌then◌else◌};
ghost use Rattle.memory.specs.Shape.{shaped};
ghost use Rattle.memory.specs.Page.{block};
ghost use Rattle.memory.specs.Cycle.{cycle_of, effect};
ghost use Rattle.part.specs.Meaning.{Event, Meaning, Sound, Tells, asked, carried, polled, waited};
ghost use Rattle.part.specs.Verdict.{idle, protection, read_verdict, told, verdict};

use crate::fault::PartFault;
use memory::geometry::Geometry;
use memory::kind::Kind;

// What every part means: how it is divided, an image, the protected sectors, how many polls are due, and which events
// led from one state of the part to another. A trace can only be shown by making the calls, in their order.
//
// A part may remember what it once learnt of a device. That what it remembers is true of the device is its own affair: a ghost
// field of its struct says so of every value, and nothing here is promised under a condition on it.
pub trait Part {
    ghost meaning: { Self → Meaning };

    ghost trace: { Self → Self → List Event → Type 0 };

    // How it is divided.
    fn geometry(&self) -> Geometry
        ensures { shaped result.sectors result.pages ≡ (meaning self.now).shape };

    fn sectors(&self) -> usize
        ensures { result ≡ (meaning self.now).shape.sectors }
    {
        self.geometry().sectors
    }

    // Of one sector.
    fn pages(&self) -> usize
        ensures { result ≡ (meaning self.now).shape.pages }
    {
        self.geometry().pages
    }

    // If polls are due.
    fn is_busy(&self) -> bool
        ensures { result ≡ not (idle (meaning self.now)) };

    fn is_protected(&self, sector: usize) -> Result<bool, PartFault>
        ensures { result ≡ protection (meaning self.now) sector };

    // Fills the buffer with the bytes from an address on. A refused read leaves it as it was.
    fn read(&mut self, address: usize, into: &mut [u8]) -> Result<(), PartFault>
        ensures result { result ≡ told (read_verdict (meaning self.old) address (length into.old)) }
        ensures same { meaning self.new ≡ meaning self.old }
        ensures unread { is_ok result ≡ false → into.new ≡ into.old }
        ensures bytes { is_ok result ≡ true → into.new ≡ block address (length into.old) (meaning self.old).image }
        ensures trace { trace self.old self.new (if is_ok result then asked (length into.old) ∷ [] else []) };

    // Carries out a cycle, after which some polls are due, one at least. A refused cycle leaves all as it was. An
    // erase ignores its data, a bulk erase its address too.
    //
    // One call takes all five kinds, each by kind, address and data side by side (docs/DECISIONS.md).
    fn cycle(&mut self, kind: Kind, address: usize, data: &[u8]) -> Result<(), PartFault>
        ensures result { result ≡ told (verdict (meaning self.old) kind address «data».now) }
        ensures shape { (meaning self.new).shape ≡ (meaning self.old).shape }
        ensures guarded { (meaning self.new).guarded ≡ (meaning self.old).guarded }
        ensures undone { is_ok result ≡ false → meaning self.new ≡ meaning self.old }
        ensures image { is_ok result ≡ true → (meaning self.new).image ≡ effect (meaning self.old).shape (cycle_of kind address «data».now) (meaning self.old).image }
        ensures due { is_ok result ≡ true → 1 ≤ (meaning self.new).due }
        ensures trace { trace self.old self.new (if is_ok result then carried (cycle_of kind address «data».now) ∷ [] else []) };

    // One poll, which asks if the last cycle is over: one less is due then. True if none is.
    fn poll(&mut self) -> bool
        ensures idle { result ≡ idle (meaning self.new) }
        ensures waited { meaning self.new ≡ waited (meaning self.old) }
        ensures trace { trace self.old self.new (polled ∷ []) };

    // What it means is a memory that there can be: its counts in range, its image as long as they say.
    ghost sound: { (s : Self) → Sound (meaning s) };

    // The empty list of events leads from a state to itself.
    ghost stays: { (s : Self) → trace s s [] };

    // Events, and then others, lead from the first state to the last.
    ghost joins: { (a b c : Self) (l m : List Event) → trace a b l → trace b c m → trace a c (l ++ m) };

    // The events are what happened to it, each in its turn: a read and a cycle where nothing is due, a cycle accepted and carried out
    // once, which leaves a poll due at least, a poll that leaves one less due.
    ghost tells: { (a b : Self) (l : List Event) → trace a b l → Tells (meaning a) l (meaning b) };
}
