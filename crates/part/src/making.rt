// A plain image made, taken apart and looked at.
ghost use Rattle.std.specs.Prelude.{◌≡◌, Some, None, vec_len, MatchResult};
ghost use Rattle.part.specs.Verdict.{clean_at, presets};
ghost use Rattle.part.specs.Outline.{Outlines};
ghost use Rattle.part.specs.Plain.{fresh, imaging, plainly, unmade};
ghost use Rattle.part.specs.Rows.{which};
ghost use Rattle.memory.specs.Image as of_image;

use crate::fault::PlainMaking;
use crate::outline::Outline;
use crate::plain::PlainImage;
use memory::image::{Image, ImageFault};
use memory::kind::Kind;
use memory::protection::Status;
use memory::unmade::Unmade;

// An image that cannot be made is told with the same value.
impl From<ImageFault> for PlainMaking {
    ghost from_gives = { λ fault making. (making ≡ imaging fault) × (which making ≡ of_image.which fault) };

    fn from(fault: ImageFault) -> PlainMaking {
        match fault {
            ImageFault::Geometry => PlainMaking::Geometry,
            ImageFault::Length => PlainMaking::Length,
        }
    }
}

impl PlainImage {
    // The caller's bytes as a part, which are handed back where they cannot be one. No `Geometry`: counts out of range are refused
    // here too.
    pub fn new(
        sectors: usize,
        pages: usize,
        status: u8,
        bytes: Vec<u8>,
    ) -> Result<PlainImage, Unmade<PlainMaking>>
        ensures { MatchResult result
            (λ p. (unmade sectors pages status (vec_len bytes) ≡ None) × (plainly p ≡ fresh sectors pages status bytes.items) × (p.status.bits ≡ status) × (p.image.bytes ≡ bytes))
            (λ u. (unmade sectors pages status (vec_len bytes) ≡ Some u.fault) × (u.bytes ≡ bytes)) }
    {
        let image = Image::new(sectors, pages, bytes).map_err(|unmade| unmade.convert())?;
        let Some(status) = Status::new(status) else {
            return Err(Unmade {
                fault: PlainMaking::Status,
                bytes: image.into_bytes(),
            });
        };
        Ok(PlainImage {
            image,
            status,
            busy: false,
        })
    }

    // The bytes as they stand.
    pub fn into_bytes(self) -> Vec<u8>
        ensures { result ≡ self.image.bytes }
    {
        let PlainImage {
            image,
            status: _,
            busy: _,
        } = self;
        image.into_bytes()
    }

    // Put together where it is asked for: the geometry is the image's own.
    pub(crate) fn outline(&self) -> Outline
        ensures { Outlines result (plainly self.now) }
    {
        Outline {
            geometry: self.image.geometry,
            status: self.status,
            busy: self.busy,
        }
    }

    // If the page is as a cycle of this kind needs it. The driver has a function of this name, which asks its chip by frames.
    pub(crate) fn is_clean_for(&self, kind: Kind, address: usize) -> bool
        ensures { result ≡ presets kind (clean_at (plainly self.now) address) }
    {
        kind != Kind::Preset || self.image.is_page_blank(address)
    }
}
