// The memories that calls are tried on.
use anyhow::Context;
use driver::attach::attach;
use driver::driver::Driver;
use part::limit::MOST_POLLS;
use part::plain::PlainImage;
use port::bench::BenchChip;
use std::alloc::{AllocError, Global};
use trials::chip::ChipFault;
use trials::plain::plain_image;

// The bench chip of this program: each program chooses its own.
pub(crate) const CAPACITY: u8 = 0x0B;

pub(crate) const BUSY: usize = 2;

pub(crate) const SECTORS: usize = 8;

const PAGES: usize = 4;

const BYTES: usize = 2048;

// What a buffer holds before a call: no byte of a memory is this one.
pub(crate) const UNTOUCHED: u8 = 0xA5;

// FFh everywhere.
pub(crate) fn blank(heap: Global) -> Result<Vec<u8>, AllocError> {
    vec![in heap; 0xFF; BYTES]
}

pub(crate) fn make_image(status: u8, bytes: Vec<u8>) -> anyhow::Result<PlainImage> {
    Ok(plain_image(SECTORS, PAGES, status, bytes)?)
}

pub(crate) fn make_driver(status: u8, bytes: Vec<u8>) -> anyhow::Result<Driver<BenchChip>> {
    let chip = BenchChip::new(CAPACITY, bytes, status, BUSY).map_err(ChipFault::from)?;
    attach(chip, MOST_POLLS)
        .ok()
        .context("the driver does not attach")
}
