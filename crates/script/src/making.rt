// The chip of a script, what it holds at the start, and its making.
ghost use Rattle.std.specs.Prelude.{◌≡◌, ◌≢◌, ◌+◌, length, replicate, Some, None, Ok, Err, MatchResult, is_ok, if◌then◌else◌, option_map, vec_len, nat_le};
ghost use Rattle.memory.specs.Models.{shape_for};
ghost use Rattle.memory.specs.Page.{put};
ghost use Rattle.memory.specs.Shape.{size};
ghost use Rattle.port.specs.Bench.{chip_of, fresh, unmade};
ghost use Rattle.script.specs.declared.fault.Fault.TheVariants.{Making, NoMemory, Outside};

use crate::chip::Chip;
use crate::fault::Fault;
use part::size::is_inside;
use port::bench::BenchChip;
use std::alloc::Global;
use trials::chip::blank_chip;

impl Chip {
    // A chip that holds FFh everywhere. It is made once here, so that what is wrong with it is told on its line.
    pub(crate) fn blank(heap: Global, capacity: u8, status: u8, busy: usize) -> Result<Chip, Fault>
        ensures { MatchResult result
            (λ c. (unmade capacity (size (shape_for capacity)) status busy ≡ None) × (c.capacity ≡ capacity) × (c.status ≡ status) × (c.busy ≡ busy) × (c.image.items ≡ replicate (size (shape_for capacity)) 255))
            (λ e. e ≢ NoMemory → option_map Making (unmade capacity (size (shape_for capacity)) status busy) ≡ Some e) }
    {
        let made = blank_chip(heap, capacity, status, busy)?;
        Ok(Chip {
            capacity,
            status,
            busy,
            image: made.into_bytes(),
        })
    }

    // Lays bytes over the image, where they lie inside it.
    pub(crate) fn lay(&mut self, address: usize, bytes: &[u8]) -> Result<(), Fault>
        ensures inside { result ≡ (if nat_le (address + length bytes.now) (vec_len self.old.image) then Ok tt else Err Outside) }
        ensures laid { self.new.image.items ≡ (if is_ok result then put address bytes.now self.old.image.items else self.old.image.items) }
        ensures kept { (self.new.capacity ≡ self.old.capacity) × (self.new.status ≡ self.old.status) × (self.new.busy ≡ self.old.busy) }
    {
        if !is_inside(self.image.len(), address, bytes.len()) {
            return Err(Fault::Outside);
        }
        self.image[address..address + bytes.len()].copy_from_slice(bytes);
        Ok(())
    }

    // The bench chip.
    pub fn make(self) -> BenchChip
        ensures chip { chip_of result ≡ fresh self.capacity self.image.items self.status }
        ensures number { result.busy_number ≡ self.busy }
    {
        let Chip {
            capacity,
            status,
            busy,
            image,
        } = self;
        BenchChip::new(capacity, image, status, busy).unwrap()
    }
}
