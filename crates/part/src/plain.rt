// The plain image: a part in the caller's memory.
ghost use Rattle.std.specs.Prelude.{◌≡◌, true};
ghost use Rattle.memory.specs.Protection.{at_rest};

use memory::image::Image;
use memory::protection::Status;

// Only `PlainImage::new` makes one, so its status byte is one at rest.
#[derive(Drop)]
pub struct PlainImage {
    pub(crate) image: Image,
    pub(crate) status: Status,
    // after a cycle, until the one poll that is then due
    pub(crate) busy: bool,
    ghost rests: { at_rest status.bits ≡ true },
}
