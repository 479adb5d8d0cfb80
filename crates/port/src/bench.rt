// The bench chip: a chip of any known model, in the caller's memory.
ghost use Rattle.std.specs.Prelude.{◌≡◌, ◌≤◌, true, is_some};
ghost use Rattle.memory.specs.Protection.{at_rest};
ghost use Rattle.memory.specs.Image.{shape_of};
ghost use Rattle.memory.specs.Models.{models, lookup, shape_for};

use memory::image::Image;
use memory::protection::Status;

#[derive(Drop)]
pub struct BenchChip {
    pub(crate) capacity: u8,
    pub(crate) image: Image,
    pub(crate) status: Status,
    // whether the next cycle is taken: write enable sets it
    pub(crate) latch: bool,
    // how many status reads will still show busy
    pub(crate) busy: usize,
    // what a cycle sets `busy` to
    pub(crate) busy_number: usize,
    ghost known: { is_some (lookup models capacity) ≡ true },
    ghost fitted: { shape_for capacity ≡ shape_of image },
    ghost resting: { at_rest status.bits ≡ true },
    ghost few: { busy_number ≤ 4096 },
}
