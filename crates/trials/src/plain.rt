// A plain image, and why there is none.
ghost use Rattle.std.specs.Prelude.{◌≡◌, Some, None, MatchResult, vec_len};
ghost use Rattle.part.specs.Plain.{fresh, plainly, unmade};

use memory::unmade::Unmade;
use part::fault::PlainMaking;
use part::plain::PlainImage;
use thiserror::Error;

// Why the plain image cannot be made.
#[derive(Clone, Copy, PartialEq, Eq, Debug, Error)]
#[error("the plain image cannot be made: {0:?}")]
pub struct PlainFault(pub PlainMaking);

impl From<Unmade<PlainMaking>> for PlainFault {
    ghost from_gives = { λ old new. new.0 ≡ old.fault };

    fn from(unmade: Unmade<PlainMaking>) -> PlainFault {
        PlainFault(unmade.fault)
    }
}

// The bytes as a plain image of so many sectors of so many pages. A program has no use for bytes that cannot be one.
pub fn plain_image(
    sectors: usize,
    pages: usize,
    status: u8,
    bytes: Vec<u8>,
) -> Result<PlainImage, PlainFault>
    ensures { MatchResult result
        (λ p. (unmade sectors pages status (vec_len bytes) ≡ None) × (plainly p ≡ fresh sectors pages status bytes.items) × (p.status.bits ≡ status) × (p.image.bytes ≡ bytes))
        (λ e. unmade sectors pages status (vec_len bytes) ≡ Some e.0) }
{
    Ok(PlainImage::new(sectors, pages, status, bytes)?)
}
