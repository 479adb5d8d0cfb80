// A bench chip with nothing in it.
ghost use Rattle.std.specs.Prelude.{◌≡◌, replicate, true, is_some, Some, None, MatchResult};
ghost use Rattle.memory.specs.Models.{lookup, models, shape_for};
ghost use Rattle.memory.specs.Shape.{size};
ghost use Rattle.port.specs.Bench.{chip_of, fresh, unmade};
ghost use Rattle.trials.specs.declared.chip.ChipFault.TheVariants as fault;

use memory::model::Model;
use memory::unmade::Unmade;
use port::bench::BenchChip;
use port::fault::ChipMaking;
use std::alloc::{AllocError, Global};
use thiserror::Error;

// Why the chip cannot be made.
#[derive(Clone, Copy, PartialEq, Eq, Debug, Error)]
pub enum ChipFault {
    #[error("the chip cannot be made: {0:?}")]
    Making(ChipMaking),
    #[error("no memory is left")]
    NoMemory,
}

impl From<AllocError> for ChipFault {
    ghost from_gives = { λ _ new. new ≡ fault.NoMemory };

    fn from(_error: AllocError) -> ChipFault {
        ChipFault::NoMemory
    }
}

impl From<Unmade<ChipMaking>> for ChipFault {
    ghost from_gives = { λ old new. new ≡ fault.Making old.fault };

    fn from(unmade: Unmade<ChipMaking>) -> ChipFault {
        ChipFault::Making(unmade.fault)
    }
}

// A chip of the model with this capacity byte that holds FFh everywhere. No memory is asked for where there is no such model.
pub fn blank_chip(
    heap: Global,
    capacity: u8,
    status: u8,
    busy: usize,
) -> Result<BenchChip, ChipFault>
    ensures { MatchResult result
        (λ b. (unmade capacity (size (shape_for capacity)) status busy ≡ None) × (chip_of b ≡ fresh capacity (replicate (size (shape_for capacity)) 255) status) × (b.busy_number ≡ busy))
        (λ e. elim e [
          | fault.Making why ↦ unmade capacity (size (shape_for capacity)) status busy ≡ Some why
          | fault.NoMemory ↦ is_some (lookup models capacity) ≡ true
        ]) }
{
    let model = Model::find(capacity).ok_or(ChipFault::Making(ChipMaking::Geometry))?;
    let blank = vec![in heap; 0xFF; model.geometry.size()]?;
    Ok(BenchChip::new(capacity, blank, status, busy)?)
}
