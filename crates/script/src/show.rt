// What came of a call, as a line of text.
ghost use Rattle.std.specs.Prelude.{◌≡◌, Some};
ghost use Rattle.hex_text.specs.HexText.{spaced};
ghost use Rattle.script.specs.Showing.{answer_text, call_text, line_text, outcome_text, read_text};

use calls::call::{Answer, Call, Entry};
use hex_text::spaced::Spaced;
use memory::report::Reported;
use std::fmt;
use writing::fault::WriteFault;

// Shows what was called.
#[derive(Clone, Copy)]
struct Called<'a>(&'a Call);

impl fmt::Display for Called<'_> {
    ghost output = { λ s. Some (call_text s.0.now) };

    fn fmt<W: fmt::Write>(&self, f: &mut fmt::Formatter<W>) -> fmt::Result {
        match self.0 {
            Call::Close { sector } => write!(f, "close {sector}"),
            Call::Open { sector } => write!(f, "open {sector}"),
            Call::Read { address, into: _ } => write!(f, "read {address}"),
            Call::Write {
                address,
                bytes: _,
                limit: _,
            } => write!(f, "write {address}"),
        }
    }
}

// Shows what came of it.
#[derive(Clone, Copy)]
struct Answered(Answer);

impl fmt::Display for Answered {
    ghost output = { λ s. Some (answer_text s.0) };

    fn fmt<W: fmt::Write>(&self, f: &mut fmt::Formatter<W>) -> fmt::Result {
        match self.0 {
            Answer::Done => write!(f, "done"),
            Answer::Written((cycles, bytes)) => write!(f, "done {cycles} {bytes}"),
            Answer::Refused(refusal) => {
                let report = refusal.report();
                write!(f, "refused {report}")
            }
            Answer::Abandoned(cycles) => {
                let report = WriteFault::Abandoned(cycles).report();
                write!(f, "abandoned {report}")
            }
        }
    }
}

// The same, if the call was made.
#[derive(Clone, Copy)]
struct Outcome(Option<Answer>);

impl fmt::Display for Outcome {
    ghost output = { λ s. Some (outcome_text s.0) };

    fn fmt<W: fmt::Write>(&self, f: &mut fmt::Formatter<W>) -> fmt::Result {
        match self.0 {
            Some(answer) => {
                let answered = Answered(answer);
                write!(f, "{answered}")
            }
            None => write!(f, "not made"),
        }
    }
}

// The bytes that a done read shows; nothing else shows any.
fn bytes_read(entry: &Entry) -> &[u8]
    ensures { spaced result.now ≡ read_text entry.now.call entry.now.answer }
{
    match (&entry.call, entry.answer) {
        (Call::Read { address: _, into }, Some(Answer::Done)) => into,
        _ => &[],
    }
}

// Shows the line of a call: what was called, and what came of it.
#[derive(Clone, Copy)]
pub struct Shown<'a>(pub &'a Entry);

impl fmt::Display for Shown<'_> {
    ghost output = { λ s. Some (line_text s.0.now) };

    fn fmt<W: fmt::Write>(&self, f: &mut fmt::Formatter<W>) -> fmt::Result {
        let called = Called(&self.0.call);
        let outcome = Outcome(self.0.answer);
        let bytes = Spaced(bytes_read(self.0));
        writeln!(f, "{called}: {outcome}{bytes}")
    }
}
