// An image made, and taken apart.
ghost use Rattle.std.specs.Prelude.{◌≡◌, Some, None, vec_len, MatchResult};
ghost use Rattle.memory.specs.Image.{unmade};

use crate::geometry::Geometry;
use crate::image::{Image, ImageFault};
use crate::unmade::Unmade;

impl Image {
    // The caller's bytes as an image; they are handed back where they cannot be one. No `Geometry`: counts out of range are refused
    // here too.
    pub fn new(sectors: usize, pages: usize, bytes: Vec<u8>) -> Result<Image, Unmade<ImageFault>>
        ensures { MatchResult result
            (λ i. (unmade sectors pages (vec_len bytes) ≡ None) × (i.geometry.sectors ≡ sectors) × (i.geometry.pages ≡ pages) × (i.bytes ≡ bytes))
            (λ e. (unmade sectors pages (vec_len bytes) ≡ Some e.fault) × (e.bytes ≡ bytes)) }
    {
        match Geometry::new(sectors, pages) {
            Some(geometry) => Image::with_geometry(geometry, bytes),
            None => Err(Unmade {
                fault: ImageFault::Geometry,
                bytes,
            }),
        }
    }

    // The same where the counts are known to be in range.
    pub fn with_geometry(geometry: Geometry, bytes: Vec<u8>) -> Result<Image, Unmade<ImageFault>>
        ensures { MatchResult result
            (λ i. (unmade geometry.sectors geometry.pages (vec_len bytes) ≡ None) × (i.geometry ≡ geometry) × (i.bytes ≡ bytes))
            (λ e. (unmade geometry.sectors geometry.pages (vec_len bytes) ≡ Some e.fault) × (e.bytes ≡ bytes)) }
    {
        if bytes.len() != geometry.size() {
            return Err(Unmade {
                fault: ImageFault::Length,
                bytes,
            });
        }
        Ok(Image { geometry, bytes })
    }

    pub fn into_bytes(self) -> Vec<u8>
        ensures { result ≡ self.bytes }
    {
        let Image { geometry: _, bytes } = self;
        bytes
    }
}
