// The commands of a script.
ghost use Rattle.std.specs.Prelude.{◌≡◌};
ghost use Rattle.script.specs.Commands.{command_of};

use crate::fault::Fault;
use std::fmt;
use std::str::FromStr;

#[derive(Clone, Copy, PartialEq, Eq, Debug)]
pub enum Command {
    Chip,
    Image,
    Room,
    Limit,
    Close,
    Open,
    Read,
    Write,
}

impl FromStr for Command {
    type Err = Fault;

    ghost from_str_gives = { λ word result. result ≡ command_of word };

    fn from_str(word: &str) -> Result<Command, Fault> {
        match word {
            "chip" => Ok(Command::Chip),
            "image" => Ok(Command::Image),
            "room" => Ok(Command::Room),
            "limit" => Ok(Command::Limit),
            "close" => Ok(Command::Close),
            "open" => Ok(Command::Open),
            "read" => Ok(Command::Read),
            "write" => Ok(Command::Write),
            _ => Err(Fault::Unknown),
        }
    }
}

// How a line with the command is written.
#[derive(Clone, Copy, PartialEq, Eq, Debug)]
pub(crate) struct Usage(pub(crate) Command);

impl fmt::Display for Usage {
    fn fmt<W: fmt::Write>(&self, f: &mut fmt::Formatter<W>) -> fmt::Result {
        f.write_str(match self.0 {
            Command::Chip => "chip CAPACITY STATUS BUSY",
            Command::Image => "image ADDRESS BYTES",
            Command::Room => "room STEPS DATA",
            Command::Limit => "limit POLLS",
            Command::Close => "close SECTOR",
            Command::Open => "open SECTOR",
            Command::Read => "read ADDRESS LENGTH",
            Command::Write => "write ADDRESS BYTES",
        })
    }
}
