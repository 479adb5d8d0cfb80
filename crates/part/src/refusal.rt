// What an outline refuses.
ghost use Rattle.std.specs.Prelude.{◌≡◌, true, not, if◌then◌else◌, Ok, Err, nat_lt};
ghost use Rattle.memory.specs.Shape.{shaped};
ghost use Rattle.part.specs.declared.fault.PartFault.TheVariants.{NoSector};
ghost use Rattle.memory.specs.Cycle.{permits};
ghost use Rattle.part.specs.Verdict.{Accepting, form_refusal, read_refusal, refusal, takes_length, told, told_address};
ghost use Rattle.part.specs.Outline.{guarding, outlined};

use crate::fault::PartFault;
use crate::outline::Outline;
use crate::size::{is_inside, is_within};
use memory::kind::Kind;
use memory::model::PAGE_BYTES;

impl Outline {
    // Whether a sector is protected, by the list that a part's meaning holds.
    fn protects(&self, sector: usize) -> bool
        ensures { result ≡ guarding self.now sector }
    {
        self.status.protects(self.geometry.sectors, sector)
    }

    // Whether nothing that the cycle alters is protected.
    fn permits(&self, kind: Kind, address: usize) -> bool
        ensures { result ≡ permits (outlined self.now) (guarding self.now) kind address }
    {
        self.status.permits(self.geometry, kind, address)
    }

    // Whether a sector is protected.
    pub fn is_protected(&self, sector: usize) -> Result<bool, PartFault>
        ensures { result ≡ (if nat_lt sector self.now.geometry.sectors then Ok (guarding self.now sector) else Err (NoSector sector)) }
    {
        if sector >= self.geometry.sectors {
            return Err(PartFault::NoSector(sector));
        }
        Ok(self.protects(sector))
    }

    // How a read of n bytes is refused, if it is.
    pub fn check_read(&self, address: usize, n: usize) -> Result<(), PartFault>
        ensures { result ≡ told (read_refusal (outlined self.now) (not self.now.busy) address n) }
    {
        if !is_inside(self.geometry.size(), address, n) {
            return Err(PartFault::Outside(address));
        }
        if self.busy {
            return Err(PartFault::Busy);
        }
        Ok(())
    }

    // How a cycle is refused, if it is, before its page is looked at.
    pub fn check_cycle(&self, kind: Kind, address: usize, n: usize) -> Result<(), PartFault>
        ensures value { result ≡ told (refusal (outlined self.now) (guarding self.now) (not self.now.busy) true kind address n) }
        ensures accepting { Accepting }
    {
        check_form(self.geometry.size(), self.busy, kind, address, n)?;
        if !self.permits(kind, address) {
            return Err(PartFault::Protected(told_address(kind, address)));
        }
        Ok(())
    }
}

// How a cycle is refused, if it is, before protection is looked at: its address has to be among so many bytes, its n bytes of
// data have to suit it, and no polls may be due.
pub fn check_form(
    size: usize,
    busy: bool,
    kind: Kind,
    address: usize,
    n: usize,
) -> Result<(), PartFault>
    ensures { result ≡ told (form_refusal size (not busy) kind address n) }
{
    if !is_within(size, kind, address) {
        return Err(PartFault::Outside(address));
    }
    if !takes_length(kind, n) {
        return Err(PartFault::PageData(n));
    }
    if busy {
        return Err(PartFault::Busy);
    }
    Ok(())
}

// Whether a cycle of this kind takes n bytes of data: one at least and a page at most. An erase has no data, and takes any number.
pub fn takes_length(kind: Kind, n: usize) -> bool
    ensures { result ≡ takes_length (shaped 0 0) kind n }
{
    !kind.has_data() || ((1..=PAGE_BYTES).contains(&n))
}

// The address that is told where a cycle meets protection: a bulk erase has none, and tells 0.
pub fn told_address(kind: Kind, address: usize) -> usize
    ensures { result ≡ told_address kind address }
{
    if kind.has_address() { address } else { 0 }
}
