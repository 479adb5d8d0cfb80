// A script while it is read, and what each command does to it.
ghost use Rattle.std.specs.Prelude.{◌≡◌, ◌+◌, ◌≤◌, true, sum_by};
ghost use Rattle.script.specs.Limits.{bytes_of, is_short};

use crate::bytes::{MOST, bytes};
use crate::chip::Chip;
use crate::command::Command;
use crate::fault::Fault;
use crate::numbers::{byte, decimal};
use crate::script::{Room, Script};
use calls::call::Call;
use memory::geometry::{MOST_PAGES, MOST_SECTORS};
use memory::model::PAGE_BYTES;
use part::limit::MOST_POLLS;
use std::alloc::Global;

// What there is room for where a script does not say: the data of 1,024 whole pages, and half as many steps.
const ROOM: Room = Room {
    steps: 512,
    bytes: 1024 * PAGE_BYTES,
};

// The most steps that there can be room for: four for each page of the largest chip.
pub(crate) const MOST_STEPS: usize = 4 * MOST_SECTORS * MOST_PAGES;

// The most bytes of all reads and writes together: sixteen times those of the largest chip.
pub(crate) const MOST_ALL: usize = 16 * MOST;

// How many bytes a call has.
fn bytes_of(call: &Call) -> usize
    ensures { result ≡ bytes_of call.now }
{
    match call {
        Call::Close { sector: _ } | Call::Open { sector: _ } => 0,
        Call::Read { address: _, into } => into.len(),
        Call::Write {
            address: _,
            bytes,
            limit: _,
        } => bytes.len(),
    }
}

#[derive(Drop)]
pub(crate) struct Reading {
    heap: Global,
    // none until there is a chip
    begun: Option<Begun>,
}

impl Reading {
    ghost use Rattle.std.specs.Prelude.{None};
    ghost use Rattle.script.specs.Meaning.{ended, words_said};
    ghost use Rattle.script.specs.Results.{Gives};
    ghost use Rattle.script.specs.Views.{progress, said_by};
    ghost use Rattle.script.specs.Words.{texts};

    pub(crate) fn new(heap: Global) -> Reading
        ensures { progress result ≡ None }
    {
        Reading { heap, begun: None }
    }

    // What the words of one line say. A line without words says nothing.
    #[tactic(auto, unfolding(crate::specs::Meaning::words_said))]
    pub(crate) fn take(&mut self, words: &[&str]) -> Result<(), Fault>
        ensures { Gives (λ _. progress self.new) result (words_said (progress self.old) (texts words.now)) }
    {
        let [word, arguments @ ..] = words else {
            return Ok(());
        };
        let command = word.parse()?;
        match &mut self.begun {
            Some(begun) => begun.take(command, arguments)?,
            None => self.begun = Some(Begun::new(self.heap, command, arguments)?),
        }
        Ok(())
    }

    // The whole script, once every line is read.
    pub(crate) fn finish(self) -> Result<Script, Fault>
        ensures { Gives said_by result (ended (progress self)) }
    {
        self.begun.map(|begun| begun.script).ok_or(Fault::NoChip)
    }
}

// A script from its chip on.
#[derive(Drop)]
struct Begun {
    heap: Global,
    script: Script,
    // the poll limit of the writes that follow
    limit: usize,
    // how many bytes the rest of the calls may have
    left: usize,
    ghost all: { sum_by bytes_of script.calls.items + left ≤ 268435456 },
}

impl Begun {
    ghost use Rattle.calls.specs.Requests.{asks};
    ghost use Rattle.script.specs.Meaning.{called, close_said, first_said, image_said, later_said, limit_said, no_call, open_said, read_said, room_said, write_said};
    ghost use Rattle.script.specs.Results.{Gives};
    ghost use Rattle.script.specs.Views.{state_of};
    ghost use Rattle.script.specs.Words.{texts};

    // What the first command says, which has to be `chip`.
    #[tactic(auto, unfolding(crate::specs::Meaning::first_said))]
    fn new(heap: Global, command: Command, arguments: &[&str]) -> Result<Begun, Fault>
        ensures { Gives state_of result (first_said command (texts arguments.now)) }
    {
        match (command, arguments) {
            (Command::Chip, [capacity, status, busy]) => {
                let chip = Chip::blank(heap, byte(capacity)?, byte(status)?, decimal(busy)?)?;
                Ok(Begun {
                    heap,
                    script: Script {
                        chip,
                        room: ROOM,
                        calls: Vec::new(heap),
                    },
                    limit: MOST_POLLS,
                    left: MOST_ALL,
                })
            }
            (Command::Chip, _) => Err(Fault::Words(command)),
            _ => Err(Fault::NoChip),
        }
    }

    // What another command says.
    fn take(&mut self, command: Command, arguments: &[&str]) -> Result<(), Fault>
        ensures { Gives (λ _. state_of self.new) result (later_said (state_of self.old) command (texts arguments.now)) }
    {
        match (command, arguments) {
            (Command::Chip, [_, _, _]) => Err(Fault::ChipAgain),
            (Command::Image, [address, bytes @ ..]) => self.lay_image(address, bytes),
            (Command::Room, [steps, bytes]) => self.set_room(steps, bytes),
            (Command::Limit, [polls]) => self.set_limit(polls),
            (Command::Close, [sector]) => self.close(sector),
            (Command::Open, [sector]) => self.open(sector),
            (Command::Read, [address, length]) => self.read(address, length),
            (Command::Write, [address, bytes @ ..]) => self.write(address, bytes),
            _ => Err(Fault::Words(command)),
        }
    }

    // Refuses a command that stands after the first call.
    #[tactic(auto, unfolding(crate::specs::Meaning::no_call))]
    fn check_no_call(&self) -> Result<(), Fault>
        ensures { result ≡ no_call (state_of self.now) }
    {
        if self.script.calls.is_empty() {
            Ok(())
        } else {
            Err(Fault::Late)
        }
    }

    #[tactic(auto, unfolding(crate::specs::Meaning::image_said))]
    fn lay_image(&mut self, address: &str, words: &[&str]) -> Result<(), Fault>
        ensures { Gives (λ _. state_of self.new) result (image_said (state_of self.old) address.now (texts words.now)) }
    {
        self.check_no_call()?;
        let address = decimal(address)?;
        let bytes = bytes(self.heap, words)?;
        self.script.chip.lay(address, &bytes)
    }

    #[tactic(auto, unfolding(crate::specs::Meaning::room_said))]
    fn set_room(&mut self, steps: &str, bytes: &str) -> Result<(), Fault>
        ensures { Gives (λ _. state_of self.new) result (room_said (state_of self.old) steps.now bytes.now) }
    {
        self.check_no_call()?;
        let steps = decimal(steps)?;
        let bytes = decimal(bytes)?;
        if steps > MOST_STEPS || bytes > MOST {
            return Err(Fault::Room);
        }
        self.script.room = Room { steps, bytes };
        Ok(())
    }

    #[tactic(auto, unfolding(crate::specs::Meaning::limit_said))]
    fn set_limit(&mut self, polls: &str) -> Result<(), Fault>
        ensures { Gives (λ _. state_of self.new) result (limit_said (state_of self.old) polls.now) }
    {
        self.limit = decimal(polls)?;
        Ok(())
    }

    #[tactic(auto, unfolding(crate::specs::Meaning::close_said))]
    fn close(&mut self, sector: &str) -> Result<(), Fault>
        ensures { Gives (λ _. state_of self.new) result (close_said (state_of self.old) sector.now) }
    {
        let sector = decimal(sector)?;
        self.call(Call::Close { sector })
    }

    #[tactic(auto, unfolding(crate::specs::Meaning::open_said))]
    fn open(&mut self, sector: &str) -> Result<(), Fault>
        ensures { Gives (λ _. state_of self.new) result (open_said (state_of self.old) sector.now) }
    {
        let sector = decimal(sector)?;
        self.call(Call::Open { sector })
    }

    #[tactic(auto, unfolding(crate::specs::Meaning::read_said))]
    fn read(&mut self, address: &str, length: &str) -> Result<(), Fault>
        ensures { Gives (λ _. state_of self.new) result (read_said (state_of self.old) address.now length.now) }
    {
        let address = decimal(address)?;
        let length = decimal(length)?;
        if length > MOST {
            return Err(Fault::Bytes);
        }
        let into = vec![in self.heap; 0; length]?;
        self.call(Call::Read { address, into })
    }

    #[tactic(auto, unfolding(crate::specs::Meaning::write_said))]
    fn write(&mut self, address: &str, words: &[&str]) -> Result<(), Fault>
        ensures { Gives (λ _. state_of self.new) result (write_said (state_of self.old) address.now (texts words.now)) }
    {
        let address = decimal(address)?;
        let bytes = bytes(self.heap, words)?;
        let limit = self.limit;
        self.call(Call::Write {
            address,
            bytes,
            limit,
        })
    }

    // One more call, if the script may have its bytes.
    #[tactic(auto, unfolding(crate::specs::Meaning::called))]
    fn call(&mut self, call: Call) -> Result<(), Fault>
        requires { is_short call ≡ true }
        ensures { Gives (λ _. state_of self.new) result (called (state_of self.old) (asks call)) }
    {
        let length = bytes_of(&call);
        if length > self.left {
            return Err(Fault::AllBytes);
        }
        self.left -= length;
        self.script.calls.push(call)?;
        Ok(())
    }
}
