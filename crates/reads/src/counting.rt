// A part that counts the bytes asked of the part below it, and is that part in all else. Its trace tells its count.
ghost use Rattle.std.specs.Prelude.{◌≡◌, ◌+◌, ◌*◌, ◌≤◌, min, List, [], length};
ghost use Rattle.memory.specs.Shape.{size};
ghost use Rattle.part.specs.Meaning.{Event, cycles, polls};
ghost use Rattle.least.specs.Fewest.{largest};
ghost use Rattle.planner.specs.Call.{Handed, plan_call};
ghost use Rattle.planner.specs.Looking.{asked_bytes};
ghost use Rattle.reads.specs.CountingPartLemmas.{stayed, joined};
ghost use Rattle.planner.proofs.Lookings.{asked_join};
ghost use Rattle.std.proofs.Common.{rules};

use least::cost::Cost;
use least::step::Step;
use memory::geometry::Geometry;
use memory::kind::Kind;
use part::fault::PartFault;
use part::part::Part;
use planner::fault::PlanFault;
use planner::plan::plan;

#[derive(Drop)]
pub struct Counting<P> {
    pub inner: P,
    // a count that stays at the largest number once it is there: it saturates
    pub asked: usize,
}

impl<P: Part> Part for Counting<P> {
    ghost meaning = { λ s. P.Part.meaning s.inner };

    ghost trace = { λ a b l. P.Part.trace a.inner b.inner l × (min b.asked largest ≡ min (a.asked + asked_bytes l) largest) };

    ghost sound = { Prim.search rules };

    ghost stays = { λ s. (P.Part.stays s.inner, stayed s.asked) };

    ghost joins = { λ a b c l m p q. (
      P.Part.joins a.inner b.inner c.inner l m p.0 q.0,
      joined a.asked b.asked c.asked (asked_bytes l) (asked_bytes m) _ p.1 q.1 (asked_join l m),
    ) };

    ghost tells = { λ a b l p. P.Part.tells a.inner b.inner l p.0 };

    fn geometry(&self) -> Geometry {
        self.inner.geometry()
    }

    fn is_busy(&self) -> bool {
        self.inner.is_busy()
    }

    fn is_protected(&self, sector: usize) -> Result<bool, PartFault> {
        self.inner.is_protected(sector)
    }

    fn read(&mut self, address: usize, into: &mut [u8]) -> Result<(), PartFault> {
        self.inner.read(address, into)?;
        self.asked = self.asked.saturating_add(into.len());
        Ok(())
    }

    fn cycle(&mut self, kind: Kind, address: usize, data: &[u8]) -> Result<(), PartFault> {
        self.inner.cycle(kind, address, data)
    }

    fn poll(&mut self) -> bool {
        self.inner.poll()
    }
}

// What planning answers, and how many bytes were asked for it.
#[derive(Clone, Copy, PartialEq, Eq, Debug)]
pub(crate) struct Asked {
    pub(crate) plan: Result<Cost, PlanFault>,
    pub(crate) bytes: usize,
}

// Plans a write over such a part.
pub(crate) fn plan_counted<P: Part>(
    part: &mut Counting<P>,
    address: usize,
    bytes: &[u8],
    steps: &mut [Step],
    data: &mut [u8],
) -> Asked
    ensures asked { (es : List Event) × P.Part.trace part.old.inner part.new.inner es × (cycles es ≡ []) × (polls es ≡ 0) × (result.bytes ≡ asked_bytes es) }
    ensures most { result.bytes ≤ 3 * size (P.Part.meaning part.old.inner).shape }
    ensures same { P.Part.meaning part.new.inner ≡ P.Part.meaning part.old.inner }
    ensures answer { Handed (plan_call (P.Part.meaning part.old.inner) address bytes.now (length steps.old) (length «data».old)) result.plan steps.old steps.new «data».old «data».new }
{
    part.asked = 0;
    let plan = plan(part, address, bytes, steps, data);
    Asked {
        plan,
        bytes: part.asked,
    }
}
