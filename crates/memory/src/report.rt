// A refusal as it is reported: who refuses, the cause, and what is returned with it. specs/Reports.antt
// says which row it stands for, and how it is shown.
ghost use Rattle.std.specs.Prelude.{◌≡◌, [], ◌∷◌, Some};
ghost use Rattle.memory.specs.Row.{Row, rowed};
ghost use Rattle.memory.specs.Reports.{cause_number, layer_number, reported, shown_row};

use std::fmt;

// Who refuses.
#[derive(Clone, Copy, PartialEq, Eq, Debug)]
pub enum Layer {
    // attach, plan, run and above
    Caller = 1,
    Part = 2,
    Port = 3,
    Listing = 4,
}

// The cause, by its number. docs/refusals.md says what each tells.
#[derive(Clone, Copy, PartialEq, Eq, Debug)]
pub enum Cause {
    // an address past the end, or no such sector
    Outside = 1,
    PageData = 2,
    Busy = 3,
    Protected = 4,
    NotBlank = 5,
    StepsShort = 6,
    DataShort = 7,
    Abandoned = 8,
    Limit = 9,
    FrameLong = 10,
    Malformed = 12,
    Making = 13,
    TextShort = 14,
}

impl Cause {
    // As it is told.
    pub fn number(self) -> usize
        ensures { result ≡ cause_number self }
    {
        self as usize
    }
}

#[derive(Clone, Copy, PartialEq, Eq, Debug)]
pub enum Values {
    One(usize),
    Two(usize, usize),
}

#[derive(Clone, Copy, PartialEq, Eq, Debug)]
pub struct Report {
    pub layer: Layer,
    pub cause: Cause,
    pub values: Values,
}

impl Report {
    pub fn one(layer: Layer, cause: Cause, value: usize) -> Report
        ensures { reported result ≡ rowed (layer_number layer) (cause_number cause) (value ∷ []) }
    {
        let values = Values::One(value);
        Report {
            layer,
            cause,
            values,
        }
    }

    pub fn two(layer: Layer, cause: Cause, first: usize, second: usize) -> Report
        ensures { reported result ≡ rowed (layer_number layer) (cause_number cause) (first ∷ second ∷ []) }
    {
        let values = Values::Two(first, second);
        Report {
            layer,
            cause,
            values,
        }
    }
}

// What can be told as a report: an enum of faults, by the rows of its specs/.
pub trait Reported {
    ghost row: { Self → Row };

    fn report(self) -> Report
        ensures { reported result ≡ row self };
}

// Layer, number and values, with single spaces.
impl fmt::Display for Report {
    ghost output = { λ r. Some (shown_row (reported r)) };

    fn fmt<W: fmt::Write>(&self, f: &mut fmt::Formatter<W>) -> fmt::Result {
        let layer = self.layer as usize;
        let number = self.cause.number();
        match self.values {
            Values::One(a) => write!(f, "{layer} {number} {a}"),
            Values::Two(a, b) => write!(f, "{layer} {number} {a} {b}"),
        }
    }
}

#[cfg(test)]
mod tests {
    use super::*;
    use std::alloc::{AllocError, Global};
    use std::test::Fail;

    // If a report of the layer is shown so, with one value and with two.
    fn is_shown(heap: Global, layer: Layer, one: &str, two: &str) -> Result<bool, AllocError> {
        let first = format!(in heap; "{}", Report::one(layer, Cause::Outside, 0))?;
        let second = format!(in heap; "{}", Report::two(layer, Cause::TextShort, 7, 4096))?;
        Ok(first.as_str() == one && second.as_str() == two)
    }

    // As `docs/refusals.md` numbers layers and causes.
    #[test]
    fn shows_each_layer(rt: HostRuntime) -> Result<(), Fail> {
        let heap = rt.alloc();
        assert!(rt; is_shown(heap, Layer::Caller, "1 1 0", "1 14 7 4096")?);
        assert!(rt; is_shown(heap, Layer::Part, "2 1 0", "2 14 7 4096")?);
        assert!(rt; is_shown(heap, Layer::Port, "3 1 0", "3 14 7 4096")?);
        assert!(rt; is_shown(heap, Layer::Listing, "4 1 0", "4 14 7 4096")?);
        Ok(())
    }
}
