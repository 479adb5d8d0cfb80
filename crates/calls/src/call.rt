// The calls that are made to a fence, and what comes of them.
ghost use Rattle.std.specs.Prelude.{◌≡◌, None};
ghost use Rattle.calls.specs.Refusals.{part_answer, write_answer};

use least::cost::Cost;
use part::fault::PartFault;
use writing::fault::WriteFault;

// A call, with the buffers that the caller hands over for it.
#[derive(PartialEq, Eq, Debug, Drop)]
pub enum Call {
    Close {
        sector: usize,
    },
    Open {
        sector: usize,
    },
    // as many bytes are read as the buffer has
    Read {
        address: usize,
        into: Vec<u8>,
    },
    Write {
        address: usize,
        bytes: Vec<u8>,
        limit: usize,
    },
}

// Why a call is refused. specs/Refusals.antt gives each case its layer, number and values.
#[derive(Clone, Copy, PartialEq, Eq, Debug)]
pub enum Refusal {
    // of a close, an open or a read
    Part(PartFault),
    Write(WriteFault),
}

// No Result: a call that is abandoned is neither done nor refused, and each of the three is told in its own words. (A write answers it
// as a fault; `Refused` never holds that one.) specs/Refusals.antt gives each case its row, and a done call none.
#[derive(Clone, Copy, PartialEq, Eq, Debug)]
pub enum Answer {
    Done,
    // a done write: what it sent
    Written(Cost),
    Refused(Refusal),
    // a write that was abandoned: the cycles sent
    Abandoned(usize),
}

// Of a close, an open or a read.
impl From<Result<(), PartFault>> for Answer {
    ghost from_gives = { λ res answer. answer ≡ part_answer res };

    fn from(res: Result<(), PartFault>) -> Answer {
        match res {
            Ok(()) => Answer::Done,
            Err(fault) => Answer::Refused(Refusal::Part(fault)),
        }
    }
}

impl From<Result<Cost, WriteFault>> for Answer {
    ghost from_gives = { λ res answer. answer ≡ write_answer res };

    fn from(res: Result<Cost, WriteFault>) -> Answer {
        match res {
            Ok(cost) => Answer::Written(cost),
            Err(WriteFault::Abandoned(cycles)) => Answer::Abandoned(cycles),
            Err(fault) => Answer::Refused(Refusal::Write(fault)),
        }
    }
}

// A call and, once it was made, its answer.
#[derive(PartialEq, Eq, Debug, Drop)]
pub struct Entry {
    pub call: Call,
    pub answer: Option<Answer>,
}

impl Entry {
    // A call that is still to be made.
    pub fn new(call: Call) -> Entry
        ensures call { result.call ≡ call }
        ensures answer { result.answer ≡ None }
    {
        Entry { call, answer: None }
    }
}
