// The text of a plan: for each step the line of write enable, and the line of its cycle's frame.
ghost use Rattle.std.specs.Prelude.{◌≡◌, ◌<◌, ◌≤◌, [], ◌∷◌, length, Some, None, MatchResult};
ghost use Rattle.port.specs.Build.{built};
ghost use Rattle.least.specs.Steps.{step_cycle, sent_by};
ghost use Rattle.listing.specs.Parts.{exchange};
ghost use Rattle.listing.specs.PlanFault.{unlisted, first_unlisted};
ghost use Rattle.listing.specs.PlanFrames.{plan_text};
ghost use Rattle.listing.specs.Sheets.{Room, Wrote};
ghost use Rattle.listing.specs.Writing.{line_text};

use crate::plan_fault::PlanListingFault;
use crate::plan_refusal::check_step;
use crate::sheet::{PAIR, Sheet};
use crate::writer::{Frame, put_line};
use least::step::Step;
use port::build::{LONGEST_BUILT, build};
use port::instruction::{Instruction, Operation};

// The line of write enable, which is one code.
const ENABLE_LINE: usize = PAIR;

// Writes the line of a frame's bytes, with nothing wanted back.
fn put_bytes(sent: &[u8], sheet: &mut Sheet)
    requires some { 0 < length sent.now }
    requires room { Room sheet.old (line_text (exchange sent.now 0)) }
    ensures { Wrote sheet.old sheet.new (line_text (exchange sent.now 0)) }
{
    let [code, rest @ ..] = sent else {
        unreachable!()
    };
    let line = Frame {
        code: *code,
        rest,
        back: 0,
    };
    put_line(line, sheet);
}

// Builds a frame and writes its line.
fn put_frame(operation: Operation, address: usize, data: &[u8], sheet: &mut Sheet)
    requires short { length (built operation address «data».now) ≤ 68 }
    requires room { Room sheet.old (line_text (exchange (built operation address «data».now) 0)) }
    ensures { Wrote sheet.old sheet.new (line_text (exchange (built operation address «data».now) 0)) }
{
    // There is no heap here: the frame is put together in a fixed buffer, of which it takes the first n bytes.
    let mut frame = [0; LONGEST_BUILT];
    let Some(n) = build(operation, address, data, &mut frame) else {
        unreachable!()
    };
    put_bytes(&frame[..n], sheet);
}

// A step that can be listed, with the data that it points into.
#[derive(Clone, Copy)]
struct Listed<'a> {
    step: &'a Step,
    data: &'a [u8],
    ghost listed: { unlisted «data».now step.now ≡ None },
}

impl<'a> Listed<'a> {
    // Refuses a step that is not listed.
    fn new(step: &'a Step, data: &'a [u8]) -> Result<Listed<'a>, PlanListingFault>
        ensures { MatchResult result
            (λ l. (l.step.now ≡ step.now) × (l.«data».now ≡ «data».now))
            (λ f. unlisted «data».now step.now ≡ Some f) }
    {
        check_step(step, data)?;
        Ok(Listed { step, data })
    }

    // The data that the step sends: none for an erase.
    fn sent(&self) -> &'a [u8]
        ensures { result.now ≡ sent_by (step_cycle self.now.«data».now self.now.step.now) }
    {
        let step = self.step;
        if step.kind.has_data() {
            &self.data[step.place..step.place + step.length]
        } else {
            &[]
        }
    }

    // The length of its two lines.
    fn len(&self) -> usize
        ensures exact { result ≡ length (plan_text self.now.«data».now (self.now.step.now ∷ [])) }
        ensures most { result ≤ 207 }
    {
        let row = Instruction::of(Operation::from(self.step.kind));
        ENABLE_LINE + PAIR * (row.head() + self.sent().len())
    }

    // Writes its two lines.
    fn put(&self, sheet: &mut Sheet)
        requires { Room sheet.old (plan_text self.now.«data».now (self.now.step.now ∷ [])) }
        ensures { Wrote sheet.old sheet.new (plan_text self.now.«data».now (self.now.step.now ∷ [])) }
    {
        put_frame(Operation::WriteEnable, 0, &[], sheet);
        let sent = self.sent();
        put_frame(self.step.kind.into(), self.step.address, sent, sheet);
    }
}

// The length of the text of a plan, which can be longer than any buffer. Refused at the first step that is not listed.
pub(crate) fn text_len(steps: &[Step], data: &[u8]) -> Result<u128, PlanListingFault>
    ensures { MatchResult result
        (λ n. (first_unlisted «data».now steps.now ≡ None) × (n ≡ length (plan_text «data».now steps.now)))
        (λ f. first_unlisted «data».now steps.now ≡ Some f) }
{
    // By `map` and `sum` it was not proved what the sum is.
    let mut needed: u128 = 0;
    for step in steps {
        needed += Listed::new(step, data)?.len() as u128;
    }
    Ok(needed)
}

// Writes the text of a plan. Its steps were checked when it was measured: there is no heap to keep what that made.
pub(crate) fn put_steps(steps: &[Step], data: &[u8], sheet: &mut Sheet)
    requires listable { first_unlisted «data».now steps.now ≡ None }
    requires room { Room sheet.old (plan_text «data».now steps.now) }
    ensures { Wrote sheet.old sheet.new (plan_text «data».now steps.now) }
{
    for step in steps {
        Listed { step, data }.put(sheet);
    }
}
