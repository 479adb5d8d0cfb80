// The fence is a part.
ghost use Rattle.std.specs.Prelude.{◌≡◌, not, refl};
ghost use Rattle.std.proofs.Common.{◌∙◌};
ghost use Rattle.memory.specs.Protection.{free};
ghost use Rattle.part.specs.Meaning.{none};
ghost use Rattle.part.specs.PlainLemmas.{played-++};
ghost use Rattle.fence.specs.Closed.{bars, is_closed};
ghost use Rattle.fence.specs.Fenced.{fence_meaning, FenceTrace};
ghost use Rattle.fence.specs.Sound.{fenced-sound};

use crate::fence::Fence;
use memory::geometry::Geometry;
use memory::kind::Kind;
use part::fault::PartFault;
use part::part::Part;
use part::refusal::{check_form, told_address};
use part::size::size_of;

impl<P: Part> Fence<P> {
    // If any sector is closed.
    fn closes_any(&self) -> bool
        ensures { result ≡ not (free (is_closed self.now.closed) (P.Part.meaning self.now.part).shape.sectors) }
    {
        (0..self.part.sectors()).any(|sector| self.is_closed(sector))
    }

    // If a closed sector stands in the way of the cycle: that of its address, and for a bulk erase any. (`Status::permits` asks the
    // two cases of what a status byte protects: a function of both questions would be longer than either.)
    fn bars(&self, kind: Kind, address: usize) -> bool
        ensures { result ≡ bars (P.Part.meaning self.now.part).shape self.now.closed kind address }
    {
        if !kind.has_address() {
            return self.closes_any();
        }
        self.is_closed(self.part.geometry().sector_of(address))
    }
}

impl<P: Part> Part for Fence<P> {
    ghost meaning = { fence_meaning P.Part };

    ghost trace = { FenceTrace P.Part };

    ghost sound = { λ s. fenced-sound (P.Part.meaning s.part) (P.Part.sound s.part) s.closed };

    ghost stays = { λ s. (refl, P.Part.stays s.part, none) };

    ghost joins = { λ a b c l m p q. (
      q.0 ∙ p.0,
      P.Part.joins _ _ _ _ _ p.1 q.1,
      played-++ p.2 q.2,
    ) };

    ghost tells = { λ f g l p. p.2 };

    fn geometry(&self) -> Geometry {
        self.part.geometry()
    }

    fn is_busy(&self) -> bool {
        self.part.is_busy()
    }

    fn is_protected(&self, sector: usize) -> Result<bool, PartFault> {
        let protected = self.part.is_protected(sector)?;
        Ok(protected || self.is_closed(sector))
    }

    fn read(&mut self, address: usize, into: &mut [u8]) -> Result<(), PartFault> {
        self.part.read(address, into)
    }

    fn cycle(&mut self, kind: Kind, address: usize, data: &[u8]) -> Result<(), PartFault> {
        if self.bars(kind, address) {
            check_form(
                size_of(&self.part),
                self.part.is_busy(),
                kind,
                address,
                data.len(),
            )?;
            return Err(PartFault::Protected(told_address(kind, address)));
        }
        self.part.cycle(kind, address, data)
    }

    fn poll(&mut self) -> bool {
        self.part.poll()
    }
}
