// A script played.
use attached::perform::perform_attached;
use calls::call::Entry;
use least::step::Step;
use part::limit::MOST_POLLS;
use script::script::Script;
use script::show::Shown;
use std::alloc::Global;

// Makes the calls of a script to a fence over a new chip, and answers a line for each.
pub(crate) fn play(heap: Global, script: Script) -> anyhow::Result<String> {
    let chip = script.chip.make();
    let mut entries: Vec<Entry> = script.calls.into_iter().map(Entry::new).collect(heap)?;
    let mut steps = vec![in heap; Step::UNUSED; script.room.steps]?;
    let mut data = vec![in heap; 0; script.room.bytes]?;
    let Ok(_fence) = perform_attached(chip, MOST_POLLS, &mut entries, &mut steps, &mut data) else {
        // a chip just made is idle
        unreachable!();
    };
    let mut out = String::new(heap);
    for entry in &entries {
        let line = Shown(entry);
        write!(out, "{line}")?;
    }
    Ok(out)
}
