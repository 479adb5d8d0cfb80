// Why a port refuses. specs/Rows.antt gives each case its layer, number and values.
ghost use Rattle.std.specs.Prelude.{◌≡◌, ◌+◌, if◌then◌else◌, Ok, Err, nat_le};
ghost use Rattle.port.specs.declared.fault.PortFault.TheVariants.{TooLong};
ghost use Rattle.memory.specs.Image as of_image;
ghost use Rattle.port.specs.Bench.{imaging};
ghost use Rattle.port.specs.Rows.{making_row, row, which};

use memory::image::ImageFault;
use memory::range::is_inside;
use memory::report::{Cause, Layer, Report, Reported};

#[derive(Clone, Copy, PartialEq, Eq, Debug)]
pub enum PortFault {
    // the bytes sent and the bytes wanted back are together more than the longest frame, which is this long
    TooLong(usize),
}

// Refuses a frame of so many bytes sent and so many wanted back if they are more than the longest frame.
pub(crate) fn check_length(longest: usize, sent: usize, wanted: usize) -> Result<(), PortFault>
    ensures { result ≡ (if nat_le (sent + wanted) longest then Ok tt else Err (TooLong longest)) }
{
    if !is_inside(longest, sent, wanted) {
        return Err(PortFault::TooLong(longest));
    }
    Ok(())
}

impl Reported for PortFault {
    ghost row = { row };

    fn report(self) -> Report {
        match self {
            PortFault::TooLong(longest) => Report::one(Layer::Port, Cause::FrameLong, longest),
        }
    }
}

// Why a bench chip cannot be made.
#[derive(Clone, Copy, PartialEq, Eq, Debug)]
pub enum ChipMaking {
    // no chip has this capacity byte
    Geometry = 1,
    // the image is not as long as the chip
    Length = 2,
    // bit 7 is clear, or bit 1 or 0 is set
    Status = 3,
    // over 4,096
    Busy = 4,
}

// An image that cannot be made cannot be a chip's: it is told with the same value.
impl From<ImageFault> for ChipMaking {
    ghost from_gives = { λ old new. (new ≡ imaging old) × (which new ≡ of_image.which old) };

    fn from(fault: ImageFault) -> ChipMaking {
        match fault {
            ImageFault::Geometry => ChipMaking::Geometry,
            ImageFault::Length => ChipMaking::Length,
        }
    }
}

impl Reported for ChipMaking {
    ghost row = { making_row };

    fn report(self) -> Report {
        Report::one(Layer::Port, Cause::Making, self as usize)
    }
}
