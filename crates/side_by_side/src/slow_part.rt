// The slow image is a part.
ghost use Rattle.std.specs.Prelude.{refl};
ghost use Rattle.part.specs.Meaning.{none};
ghost use Rattle.side_by_side.specs.Slowly.{slowly, Slowed};
ghost use Rattle.side_by_side.specs.Joins.{slow-sound, slowed-++, slowed-tells};

use crate::slow::SlowImage;
use memory::geometry::Geometry;
use memory::kind::Kind;
use part::fault::PartFault;
use part::part::Part;

impl Part for SlowImage {
    ghost meaning = { slowly };

    ghost trace = { Slowed };

    ghost sound = { slow-sound };

    ghost stays = { λ s. (none, refl) };

    ghost joins = { slowed-++ };

    ghost tells = { slowed-tells };

    fn geometry(&self) -> Geometry {
        self.plain.geometry()
    }

    fn is_busy(&self) -> bool {
        self.plain.is_busy()
    }

    fn is_protected(&self, sector: usize) -> Result<bool, PartFault> {
        self.plain.is_protected(sector)
    }

    fn read(&mut self, address: usize, into: &mut [u8]) -> Result<(), PartFault> {
        self.plain.read(address, into)
    }

    fn cycle(&mut self, kind: Kind, address: usize, data: &[u8]) -> Result<(), PartFault> {
        self.plain.cycle(kind, address, data)?;
        self.left = self.busy_number;
        Ok(())
    }

    // The plain image is polled once, when none is left that shows it busy.
    fn poll(&mut self) -> bool {
        if self.left == 0 {
            return self.plain.poll();
        }
        self.left -= 1;
        !self.plain.is_busy()
    }
}
