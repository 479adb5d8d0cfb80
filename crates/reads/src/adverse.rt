// Memories and writes of which planning has to read much: nearly all is FFh, so that erases look cheap, and what the write
// covers is not.
use memory::model::{PAGE_BYTES, page_start};
use std::alloc::{AllocError, Global};
use trials::picker::Picker;
use trials::stretch::Stretch;
use trials::trial::{OPEN, TOP_PROTECTED, Trial};

fn pick_status(picker: &mut Picker) -> u8 {
    match picker.pick(8) {
        0 => TOP_PROTECTED,
        1 => 0xA4,
        _ => OPEN,
    }
}

fn pick_value(picker: &mut Picker) -> u8 {
    match picker.pick(6) {
        0 => 0x00,
        1 => 0x5A,
        _ => 0xFF,
    }
}

// Where a write begins and how long it is: mostly a few pages, often whole ones. What it covers is not FFh.
fn pick_stretch(picker: &mut Picker, size: usize) -> Stretch {
    let mut address = picker.pick(size);
    let most = match picker.pick(3) {
        0 => size,
        _ => 8 * PAGE_BYTES,
    };
    let mut length = picker.pick(most);
    if picker.pick(2) == 0 {
        address = page_start(address);
        length = page_start(length);
    }
    Stretch {
        address,
        length: length.min(size.saturating_sub(address)),
        // halved, so that it is not FFh
        value: pick_value(picker) / 2,
    }
}

// A memory of so many bytes and a write, by a number.
pub(crate) fn make(heap: Global, size: usize, number: usize) -> Result<Trial, AllocError> {
    let mut picker = Picker::new(number);
    let covered = pick_stretch(&mut picker, size);
    let mut image = vec![in heap; 0xFF; size]?;
    covered.fill(&mut image);
    for _ in 0..picker.pick(4) {
        if let Some(byte) = image.get_mut(picker.pick(size)) {
            *byte = 0;
        }
    }
    if picker.pick(4) > 0 {
        if let Some(last) = image.last_mut() {
            *last = 0;
        }
    }
    let bytes = vec![in heap; pick_value(&mut picker); covered.length]?;
    Ok(Trial {
        status: pick_status(&mut picker),
        image,
        address: covered.address,
        bytes,
    })
}
