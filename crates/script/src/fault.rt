// What is wrong with a script.
ghost use Rattle.std.specs.Prelude.{◌≡◌};
ghost use Rattle.script.specs.Faults.{unmade};
ghost use Rattle.script.specs.declared.fault.Fault.TheVariants.{NoMemory};

use crate::bytes::MOST;
use crate::command::{Command, Usage};
use crate::read::MOST_TEXT;
use crate::reading::{MOST_ALL, MOST_STEPS};
use port::fault::ChipMaking;
use std::alloc::{AllocError, AllocFailed};
use std::fmt;
use thiserror::Error;
use trials::chip::ChipFault;

// Why the chip of a script cannot be made, in a script's words: another crate's enum can be given no `Display` here.
#[derive(Clone, Copy, PartialEq, Eq, Debug)]
struct Reason(ChipMaking);

impl fmt::Display for Reason {
    fn fmt<W: fmt::Write>(&self, f: &mut fmt::Formatter<W>) -> fmt::Result {
        f.write_str(match self.0 {
            ChipMaking::Geometry => "no chip has this capacity byte",
            ChipMaking::Length => "the image is not as long as the chip",
            ChipMaking::Status => "a status byte has bit 7 set, and bits 1 and 0 clear",
            ChipMaking::Busy => "a busy number is at most 4096",
        })
    }
}

#[derive(Clone, Copy, PartialEq, Eq, Debug, Error)]
pub enum Fault {
    #[error("the script is longer than {} bytes", MOST_TEXT)]
    Long,
    #[error("the script is not UTF-8 text")]
    Text,
    #[error("unknown command")]
    Unknown,
    // too few words for the command, or too many
    #[error("write it as: {}", Usage(*.0))]
    Words(Command),
    #[error("a number is decimal digits")]
    Number,
    // a number that no `usize` holds
    #[error("the number is too large")]
    Large,
    #[error("a byte is two hexadecimal digits")]
    Byte,
    // another command before `chip`, or none at all
    #[error("the first command has to be chip")]
    NoChip,
    #[error("chip is given twice")]
    ChipAgain,
    // the chip cannot be made
    #[error("{}", Reason(*.0))]
    Making(ChipMaking),
    #[error("image and room stand before the first call")]
    Late,
    // the bytes of an image end past the chip's end
    #[error("the bytes end past the end of the chip")]
    Outside,
    // more bytes than the largest chip has
    #[error("more than {} bytes in one command", MOST)]
    Bytes,
    // more bytes in the whole script than it may have
    #[error("more than {} bytes in the script", MOST_ALL)]
    AllBytes,
    // room for more than four steps for each page of the largest chip, or for more than its bytes
    #[error("room is for at most {} steps and {} data bytes", MOST_STEPS, MOST)]
    Room,
    #[error("no memory is left")]
    NoMemory,
}

impl From<AllocError> for Fault {
    ghost from_gives = { λ _ fault. fault ≡ NoMemory };

    fn from(_error: AllocError) -> Fault {
        Fault::NoMemory
    }
}

impl<T: Drop> From<AllocFailed<T>> for Fault {
    ghost from_gives = { λ _ fault. fault ≡ NoMemory };

    fn from(_refused: AllocFailed<T>) -> Fault {
        Fault::NoMemory
    }
}

impl From<ChipFault> for Fault {
    ghost from_gives = { λ old new. new ≡ unmade old };

    fn from(fault: ChipFault) -> Fault {
        match fault {
            ChipFault::Making(making) => Fault::Making(making),
            ChipFault::NoMemory => Fault::NoMemory,
        }
    }
}

impl Fault {
    // The fault, on a line of its script.
    pub(crate) fn on(self, line: usize) -> ScriptFault
        ensures { result ≡ record { line = line; fault = self } }
    {
        ScriptFault { line, fault: self }
    }
}

// A fault, and the line that it is on, from 1.
#[derive(Clone, Copy, PartialEq, Eq, Debug, Error)]
#[error("line {line}: {fault}")]
pub struct ScriptFault {
    pub line: usize,
    pub fault: Fault,
}
