// Lists of calls to a memory, picked at random.
use crate::outcome::Lent;
use calls::call::{Call, Entry};
use least::step::Step;
use memory::geometry::Geometry;
use memory::model::PAGE_BYTES;
use part::limit::MOST_POLLS;
use std::alloc::{AllocError, Global};
use trials::picker::Picker;

// A step list and a data buffer that are enough for every write that is picked.
const STEPS: usize = 64;

const BYTES: usize = 2048;

// A list of calls, and the buffers that are lent for it.
#[derive(Drop)]
pub(crate) struct List {
    pub(crate) entries: Vec<Entry>,
    pub(crate) lent: Lent,
}

// Picks calls to a memory that is divided so. Of the limits of polls those that are valid begin at `least`.
#[derive(Drop)]
pub(crate) struct Caller {
    pub(crate) picker: Picker,
    pub(crate) geometry: Geometry,
    pub(crate) least: usize,
}

impl Caller {
    // FFh, 00h, or bytes of all kinds.
    fn fill(&mut self, bytes: &mut [u8]) {
        match self.picker.pick(4) {
            0 => bytes.fill(0xFF),
            1 => bytes.fill(0),
            _ => {
                for byte in bytes {
                    *byte = self.picker.pick(256) as u8;
                }
            }
        }
    }

    fn bytes(&mut self, heap: Global) -> Result<Vec<u8>, AllocError> {
        let mut bytes = vec![in heap; 0; self.length()]?;
        self.fill(&mut bytes);
        Ok(bytes)
    }

    // What the memory holds at the start.
    pub(crate) fn image(&mut self, heap: Global) -> Result<Vec<u8>, AllocError> {
        let mut image = vec![in heap; 0xFF; self.geometry.size()]?;
        for page in image.chunks_mut(PAGE_BYTES) {
            self.fill(page);
        }
        Ok(image)
    }

    // A sector, or one of two numbers past the last.
    fn sector(&mut self) -> usize {
        self.picker.pick(self.geometry.sectors + 2)
    }

    // Mostly inside; else at the end and beyond, or as far away as can be.
    fn address(&mut self) -> usize {
        let page = self
            .picker
            .pick(self.geometry.sectors * self.geometry.pages);
        let address = page * PAGE_BYTES + self.picker.pick(PAGE_BYTES);
        match self.picker.pick(20) {
            0 => usize::MAX - self.picker.pick(PAGE_BYTES),
            1 => self.geometry.size() + self.picker.pick(PAGE_BYTES),
            2 => self.geometry.size() - self.picker.pick(PAGE_BYTES),
            _ => address,
        }
    }

    // Mostly a few bytes; else none, or some pages.
    fn length(&mut self) -> usize {
        match self.picker.pick(8) {
            0 => 0,
            1 => self.picker.pick(10 * PAGE_BYTES),
            _ => self.picker.pick(24),
        }
    }

    fn limit(&mut self) -> usize {
        match self.picker.pick(20) {
            0 => 0,
            1 => MOST_POLLS,
            2 => MOST_POLLS + 1,
            3 => 5000,
            _ => self.least.saturating_add(self.picker.pick(4)),
        }
    }

    fn call(&mut self, heap: Global) -> Result<Call, AllocError> {
        Ok(match self.picker.pick(10) {
            0 => Call::Close {
                sector: self.sector(),
            },
            1 => Call::Open {
                sector: self.sector(),
            },
            2..=4 => Call::Read {
                address: self.address(),
                into: vec![in heap; 0; self.length()]?,
            },
            _ => Call::Write {
                address: self.address(),
                bytes: self.bytes(heap)?,
                limit: self.limit(),
            },
        })
    }

    // So many calls. At times the step list or the data buffer is short.
    pub(crate) fn list(&mut self, heap: Global, count: usize) -> Result<List, AllocError> {
        let steps = match self.picker.pick(4) {
            0 => self.picker.pick(4),
            _ => STEPS,
        };
        let bytes = match self.picker.pick(4) {
            0 => self.picker.pick(24),
            _ => BYTES,
        };
        let mut entries = Vec::new(heap);
        // not a chain: what cannot be allocated ends it by `?`
        for _ in 0..count {
            entries.push(Entry::new(self.call(heap)?))?;
        }
        Ok(List {
            entries,
            lent: Lent {
                steps: vec![in heap; Step::UNUSED; steps]?,
                data: vec![in heap; 0; bytes]?,
            },
        })
    }
}
