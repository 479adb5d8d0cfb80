// A script read from text.
ghost use Rattle.std.specs.Prelude.{◌≡◌, ◌+◌, ◌<◌, ◌≤◌, length, max, IfErr, IfOk, IsErrAnd, OnOk, IsUtf8};
ghost use Rattle.std.specs.Str.Lines.{lines};
ghost use Rattle.std.specs.Str.Lossy.{utf8_valid_len};
ghost use Rattle.script.specs.Lines.{line_ends, line_of};
ghost use Rattle.script.specs.Meaning.{line_said, script_of};
ghost use Rattle.script.specs.Results.{Gives, Reads};
ghost use Rattle.script.specs.Views.{progress, said_by};
ghost use Rattle.script.specs.Words.{texts, uncommented, words_of};
ghost use Rattle.script.specs.declared.fault.Fault.TheVariants.{Long, Text};

use crate::fault::{Fault, ScriptFault};
use crate::reading::Reading;
use crate::script::Script;
use std::alloc::{AllocError, Global};
use std::str::from_utf8;

// The most bytes that a script has.
pub const MOST_TEXT: usize = 1048576;

// The line that the byte at `at` is on, from 1.
fn line_at(text: &[u8], at: usize) -> usize
    ensures { result ≡ line_of at text.now }
{
    1 + text.iter().take(at).filter(|b| **b == b'\n').count()
}

// A line without its comment.
fn uncommented(line: &str) -> &str
    ensures { result.now ≡ uncommented line.now }
{
    line.split_once('#').map_or(line, |(said, _)| said)
}

// The words of a text.
fn words<'a>(heap: Global, line: &'a str) -> Result<Vec<&'a str>, AllocError>
    ensures { IfOk result (λ v. texts v.items ≡ words_of line.now) }
{
    line.split_whitespace().collect(heap)
}

// What a line says.
fn take_line(heap: Global, reading: &mut Reading, line: &str) -> Result<(), Fault>
    ensures { Gives (λ _. progress reading.new) result (line_said (progress reading.old) line.now) }
{
    let words = words(heap, uncommented(line))?;
    reading.take(&words)
}

// The last line of a text, from 1; a text without lines has one that is empty.
fn last_line(text: &str) -> usize
    ensures value { result ≡ max (length (lines text.now)) 1 }
    ensures within { (0 < result) × (result ≤ 1 + line_ends text.now) }
{
    text.lines().count().max(1)
}

fn read_lines(heap: Global, text: &str) -> Result<Script, ScriptFault>
    requires { length text.now ≤ 1048576 }
    ensures line { IfErr result (λ e. (0 < e.line) × (e.line ≤ 1 + line_ends text.now)) }
    ensures script { Reads said_by result (script_of text.now) }
{
    let mut reading = Reading::new(heap);
    for (number, line) in (1..).zip(text.lines()) {
        take_line(heap, &mut reading, line).map_err(|fault| fault.on(number))?;
    }
    // counted for a fault alone: else a long script would be gone over twice
    reading.finish().map_err(|fault| fault.on(last_line(text)))
}

// The script, or the first line that is faulty. A script without a chip is faulty on its last line.
pub fn read_script(heap: Global, text: &[u8]) -> Result<Script, ScriptFault>
    ensures long { 1048576 < length text.now → IsErrAnd result (λ e. e ≡ record { line = line_of 1048576 text.now; fault = Long }) }
    ensures not_text { length text.now ≤ 1048576 → ¬ (IsUtf8 text.now) → IsErrAnd result (λ e. e ≡ record { line = line_of (utf8_valid_len text.now) text.now; fault = Text }) }
    ensures text { OnOk result (IsUtf8 text.now) }
    ensures script { length text.now ≤ 1048576 → IsUtf8 text.now → Reads said_by result (script_of text.now) }
    ensures line { IfErr result (λ e. (0 < e.line) × (e.line ≤ 1 + line_ends text.now)) }
{
    if text.len() > MOST_TEXT {
        return Err(Fault::Long.on(line_at(text, MOST_TEXT)));
    }
    let text = from_utf8(text).map_err(|error| Fault::Text.on(line_at(text, error.valid_up_to())))?;
    read_lines(heap, text)
}
