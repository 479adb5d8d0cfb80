// The plain image is a part.
ghost use Rattle.std.specs.Prelude.{◌≡◌, refl};
ghost use Rattle.std.proofs.Common.{◌∙◌, lit≤, sym};
ghost use Rattle.part.specs.Meaning.{Played, none};
ghost use Rattle.part.specs.Plain.{plainly};
ghost use Rattle.part.specs.PlainLemmas.{length-guards, played-++, played-tells};

use crate::fault::PartFault;
use crate::part::Part;
use crate::plain::PlainImage;
use memory::geometry::Geometry;
use memory::kind::Kind;

impl Part for PlainImage {
    ghost meaning = { plainly };

    // A cycle leaves one poll due. The status byte is kept whole: what is protected shows only some of its bits.
    ghost trace = { λ a b l. Played (λ k. k ≡ 1) (plainly a) l (plainly b) × (a.status ≡ b.status) };

    ghost sound = { λ s.
        let i = s.image in
        record {
          some = i.geometry.some;
          few = i.geometry.few;
          paged = i.geometry.paged;
          low = i.geometry.low;
          page = refl;
          each = length-guards s.status.bits i.geometry.sectors;
          imaged = record { whole = sym i.bytes.ok.0 ∙ i.sized; bytes = i.byte };
        } };

    ghost stays = { λ s. (none, refl) };

    ghost joins = { λ a b c l m p q. (played-++ p.0 q.0, p.1 ∙ q.1) };

    ghost tells = { λ a b l p. played-tells 1 (lit≤ tt) p.0 };

    fn geometry(&self) -> Geometry {
        self.image.geometry
    }

    fn is_busy(&self) -> bool {
        self.busy
    }

    fn is_protected(&self, sector: usize) -> Result<bool, PartFault> {
        self.outline().is_protected(sector)
    }

    fn read(&mut self, address: usize, into: &mut [u8]) -> Result<(), PartFault> {
        self.outline().check_read(address, into.len())?;
        self.image.read(address, into);
        Ok(())
    }

    fn cycle(&mut self, kind: Kind, address: usize, data: &[u8]) -> Result<(), PartFault> {
        self.outline().check_cycle(kind, address, data.len())?;
        if !self.is_clean_for(kind, address) {
            return Err(PartFault::NotBlank(address));
        }
        self.image.carry(kind, address, data);
        self.busy = true;
        Ok(())
    }

    fn poll(&mut self) -> bool {
        self.busy = false;
        true
    }
}
