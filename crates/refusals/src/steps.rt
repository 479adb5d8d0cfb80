// Steps made, and shown.
use least::step::Step;
use memory::kind::Kind;

pub(crate) fn step(kind: Kind, address: usize, length: usize, place: usize) -> Step {
    Step {
        kind,
        address,
        length,
        place,
    }
}

// A program of one byte, the first of the data.
pub(crate) fn program(address: usize) -> Step {
    step(Kind::Program, address, 1, 0)
}

pub(crate) fn show_steps(rt: &HostRuntime, steps: &[Step]) -> anyhow::Result<()> {
    print!(rt; " ")?;
    for step in steps {
        let Step {
            kind,
            address,
            length,
            place,
        } = *step;
        print!(rt; " {kind:?} at {address}, {length} bytes from {place};")?;
    }
    Ok(())
}
