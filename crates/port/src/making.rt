// A bench chip made, and taken apart.
ghost use Rattle.std.specs.Prelude.{◌≡◌, Some, None, vec_len, MatchResult};
ghost use Rattle.port.specs.Bench.{chip_of, fresh, unmade};

use crate::bench::BenchChip;
use crate::fault::ChipMaking;
use memory::image::Image;
use memory::model::Model;
use memory::protection::Status;
use memory::unmade::Unmade;

const MOST_BUSY: usize = 4096;

impl BenchChip {
    // A chip of the model with this capacity byte, over the caller's bytes, which are handed back on refusal.
    pub fn new(
        capacity: u8,
        image: Vec<u8>,
        status: u8,
        busy_number: usize,
    ) -> Result<BenchChip, Unmade<ChipMaking>>
        ensures { MatchResult result
            (λ b. (unmade capacity (vec_len image) status busy_number ≡ None) × (chip_of b ≡ fresh capacity image.items status) × (b.image.bytes ≡ image) × (b.busy_number ≡ busy_number))
            (λ e. (unmade capacity (vec_len image) status busy_number ≡ Some e.fault) × (e.bytes ≡ image)) }
    {
        let Some(model) = Model::find(capacity) else {
            return Err(Unmade {
                fault: ChipMaking::Geometry,
                bytes: image,
            });
        };
        let image = Image::with_geometry(model.geometry, image).map_err(|unmade| unmade.convert())?;
        let Some(status) = Status::new(status) else {
            return Err(Unmade {
                fault: ChipMaking::Status,
                bytes: image.into_bytes(),
            });
        };
        if busy_number > MOST_BUSY {
            return Err(Unmade {
                fault: ChipMaking::Busy,
                bytes: image.into_bytes(),
            });
        }
        Ok(BenchChip {
            capacity,
            image,
            status,
            latch: false,
            busy: 0,
            busy_number,
        })
    }

    // The bytes as they stand.
    pub fn into_bytes(self) -> Vec<u8>
        ensures { result ≡ self.image.bytes }
    {
        self.image.into_bytes()
    }
}
