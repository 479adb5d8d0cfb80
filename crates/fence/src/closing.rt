// A fence made and taken down, and its sectors closed and opened.
ghost use Rattle.std.specs.Prelude.{◌≡◌, true, false};
ghost use Rattle.fence.specs.Closed.{is_closed, marked, marks};
ghost use Rattle.fence.specs.Fenced.{fresh};

use crate::fence::{Fence, MOST_SECTORS};
use part::fault::PartFault;
use part::part::Part;

impl<P> Fence<P> {
    // A fence over the part, with no sector closed.
    pub fn new(part: P) -> Fence<P>
        ensures { result ≡ fresh part }
    {
        Fence {
            part,
            closed: [false; MOST_SECTORS],
        }
    }

    // The part as it stands.
    pub fn release(self) -> P
        ensures { result ≡ self.part }
    {
        let Fence { part, closed: _ } = self;
        part
    }

    pub(crate) fn is_closed(&self, sector: usize) -> bool
        ensures { result ≡ is_closed self.now.closed sector }
    {
        self.closed.get(sector).is_some_and(|closed| *closed)
    }
}

impl<P: Part> Fence<P> {
    // Marks a sector as closed or as open, if the part has one of this number.
    fn mark(&mut self, sector: usize, closed: bool) -> Result<(), PartFault>
        ensures result { result ≡ marked (P.Part.meaning self.old.part).shape sector }
        ensures part { self.new.part ≡ self.old.part }
        ensures closed { self.new.closed ≡ marks (P.Part.meaning self.old.part).shape self.old.closed sector closed }
    {
        if sector >= self.part.sectors() {
            return Err(PartFault::NoSector(sector));
        }
        self.closed[sector] = closed;
        Ok(())
    }

    // Closes a sector, which may be closed already.
    pub fn close(&mut self, sector: usize) -> Result<(), PartFault>
        ensures result { result ≡ marked (P.Part.meaning self.old.part).shape sector }
        ensures part { self.new.part ≡ self.old.part }
        ensures closed { self.new.closed ≡ marks (P.Part.meaning self.old.part).shape self.old.closed sector true }
    {
        self.mark(sector, true)
    }

    // Opens a sector, which may be open already. One that the part protects itself stays protected.
    pub fn open(&mut self, sector: usize) -> Result<(), PartFault>
        ensures result { result ≡ marked (P.Part.meaning self.old.part).shape sector }
        ensures part { self.new.part ≡ self.old.part }
        ensures closed { self.new.closed ≡ marks (P.Part.meaning self.old.part).shape self.old.closed sector false }
    {
        self.mark(sector, false)
    }
}
