// Outcomes that differ in one place, and rounds whose sides differ: nothing does in a run of the program.
use crate::outcome::{Lent, Outcome, differences};
use crate::rounds::{Beside, Round};
use crate::{are_alike, conclude};
use calls::call::{Answer, Call, Entry};
use least::step::Step;
use memory::kind::Kind;
use std::alloc::{AllocError, Global};
use std::process::{Abort, ExitCode};
use std::test::Fail;
use trials::trial::OPEN;

// The places in which the outcomes below may differ.
#[derive(Clone, Copy)]
struct Places {
    answer: Answer,
    step: Step,
    data: u8,
    image: u8,
}

const PLACES: Places = Places {
    answer: Answer::Written((1, 4)),
    step: Step::UNUSED,
    data: 0,
    image: 0xFF,
};

// Two calls in two lists, of which the second has the places.
fn outcome(heap: Global, places: Places) -> Result<Outcome, AllocError> {
    let mut close = Entry::new(Call::Close { sector: 1 });
    close.answer = Some(Answer::Done);
    let mut write = Entry::new(Call::Write {
        address: 0,
        bytes: Vec::new(heap),
        limit: 3,
    });
    write.answer = Some(places.answer);
    let none = Lent {
        steps: Vec::new(heap),
        data: Vec::new(heap),
    };
    let lent = Lent {
        steps: vec![in heap; Step::UNUSED, places.step]?,
        data: vec![in heap; 0, places.data]?,
    };
    Ok(Outcome {
        record: vec![in heap; close, write]?,
        lent: vec![in heap; none, lent]?,
        image: vec![in heap; 0xFF, places.image]?,
    })
}

// The differences of two such outcomes are told by these lines.
fn are_told(
    rt: &impl Abort,
    heap: Global,
    image: Places,
    chip: Places,
    wanted: &[&str],
) -> Result<(), Fail> {
    let lines = differences(heap, &outcome(heap, image)?, &outcome(heap, chip)?)?;
    assert_eq!(rt; lines.len(), wanted.len());
    for (line, wanted) in lines.iter().zip(wanted) {
        assert_eq!(rt; line.as_str(), *wanted);
    }
    Ok(())
}

#[test]
fn equal_outcomes_have_no_difference(rt: HostRuntime) -> Result<(), Fail> {
    are_told(&rt, rt.alloc(), PLACES, PLACES, &[])
}

#[test]
fn an_answer_is_told(rt: HostRuntime) -> Result<(), Fail> {
    let abandoned = Places {
        answer: Answer::Abandoned(1),
        ..PLACES
    };
    let dearer = Places {
        answer: Answer::Written((1, 5)),
        ..PLACES
    };
    let heap = rt.alloc();
    are_told(
        &rt,
        heap,
        PLACES,
        abandoned,
        &[
            "call 1: Entry { call: Write { address: 0, bytes: [], limit: 3 }, answer: Some(Written((1, 4))) }, and on the chip Entry { call: Write { address: 0, bytes: [], limit: 3 }, answer: Some(Abandoned(1)) }",
        ],
    )?;
    are_told(
        &rt,
        heap,
        dearer,
        PLACES,
        &[
            "call 1: Entry { call: Write { address: 0, bytes: [], limit: 3 }, answer: Some(Written((1, 5))) }, and on the chip Entry { call: Write { address: 0, bytes: [], limit: 3 }, answer: Some(Written((1, 4))) }",
        ],
    )
}

#[test]
fn a_buffer_is_told(rt: HostRuntime) -> Result<(), Fail> {
    let step = Step {
        kind: Kind::SectorErase,
        ..Step::UNUSED
    };
    let steps = Places { step, ..PLACES };
    let data = Places { data: 1, ..PLACES };
    let image = Places {
        image: 0xFE,
        ..PLACES
    };
    let heap = rt.alloc();
    are_told(&rt, heap, PLACES, steps, &["the step list of list 1"])?;
    are_told(&rt, heap, PLACES, data, &["the data buffer of list 1"])?;
    are_told(&rt, heap, PLACES, image, &["the image"])
}

#[test]
fn a_call_too_few_is_told(rt: HostRuntime) -> Result<(), Fail> {
    let heap = rt.alloc();
    let mut short = outcome(heap, PLACES)?;
    short.record.truncate(1);
    let lines = differences(heap, &outcome(heap, PLACES)?, &short)?;
    let told: Vec<&str> = lines.iter().map(|line| line.as_str()).collect(heap)?;
    assert_eq!(rt; told.as_slice(), ["the number of calls"].as_slice());
    Ok(())
}

fn alike() -> Round {
    Round::new(Beside::PlainImage, 0x0B, OPEN, 9, 1)
}

// Limits are picked that are enough for the plain image, and too low for the chip.
fn unlike() -> Round {
    let mut round = alike();
    round.least = 1;
    round
}

#[test]
fn one_round_that_differs_is_enough(rt: HostRuntime) -> Result<(), Fail> {
    assert!(rt; are_alike(&rt, &[alike(), alike()], 7)?);
    assert!(rt; !are_alike(&rt, &[unlike(), alike()], 7)?);
    assert!(rt; !are_alike(&rt, &[alike(), unlike()], 7)?);
    Ok(())
}

#[test]
fn a_difference_ends_in_failure(rt: HostRuntime) -> Result<(), Fail> {
    assert!(rt; conclude(&rt, true)? == ExitCode::SUCCESS);
    assert!(rt; conclude(&rt, false)? == ExitCode::FAILURE);
    Ok(())
}
