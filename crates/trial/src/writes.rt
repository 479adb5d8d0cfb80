// The writes that are tried, each on the bench's memory of 2,048 bytes.
ghost use Rattle.std.specs.Prelude.{◌≡◌, ◌<◌, IfOk, vec_len};

use memory::model::PAGE_BYTES;
use std::alloc::{AllocError, Global};
use trials::trial::{OPEN, TOP_PROTECTED, Trial};

// Constants, and not looked up by `Model::find`: the writes below are placed for these sizes.
pub(crate) const SECTORS: usize = 8;

pub(crate) const PAGES: usize = 4;

const SECTOR: usize = PAGES * PAGE_BYTES;

pub(crate) const BYTES: usize = SECTORS * SECTOR;

// FFh everywhere, and a write of n bytes FFh.
fn blank(heap: Global, status: u8, address: usize, n: usize) -> Result<Trial, AllocError>
    ensures { IfOk result (λ t. (vec_len t.image ≡ 2048) × (vec_len t.bytes ≡ n)) }
{
    Trial::blank(heap, BYTES, status, address, n)
}

// One 00h in each sector, and FFh over the first n bytes.
fn spotted(heap: Global, status: u8, n: usize) -> Result<Trial, AllocError> {
    let mut trial = blank(heap, status, 0, n)?;
    for byte in trial.image.iter_mut().step_by(SECTOR) {
        *byte = 0;
    }
    Ok(trial)
}

// Each byte is its place times the factor, reduced by the modulus: neighbours differ.
fn mix(bytes: &mut [u8], factor: u8, modulus: u8)
    requires { 0 < modulus }
{
    let factor = factor as usize;
    let modulus = modulus as usize;
    for (i, byte) in bytes.iter_mut().enumerate() {
        *byte = (i % modulus * factor % modulus) as u8;
    }
}

// Mixed bytes, written over others.
fn mixed(heap: Global, address: usize, n: usize) -> Result<Trial, AllocError> {
    let mut trial = blank(heap, OPEN, address, n)?;
    mix(&mut trial.image, 7, 251);
    mix(&mut trial.bytes, 13, 247);
    Ok(trial)
}

// FFh and one 5Ah over three pages of 00h. The fourth page of their sector holds bytes that stay.
fn outside(heap: Global) -> Result<Trial, AllocError> {
    let mut trial = blank(heap, OPEN, 256, 192)?;
    trial.image[256..448].fill(0);
    trial.image[500..502].fill(0xA5);
    trial.bytes[3] = 0x5A;
    Ok(trial)
}

// A write whose first and last bytes are 00h.
pub(crate) fn ended(heap: Global, address: usize, n: usize) -> Result<Trial, AllocError> {
    let mut trial = blank(heap, OPEN, address, n)?;
    if let Some(first) = trial.bytes.first_mut() {
        *first = 0;
    }
    if let Some(last) = trial.bytes.last_mut() {
        *last = 0;
    }
    Ok(trial)
}

// A 00h in the protected sector, which would have to change.
fn barred(heap: Global) -> Result<Trial, AllocError> {
    let mut trial = blank(heap, TOP_PROTECTED, 1790, 4)?;
    trial.bytes[2] = 0;
    Ok(trial)
}

// FFh and one 00h over two pages of 00h.
fn two_pages(heap: Global) -> Result<Trial, AllocError> {
    let mut trial = blank(heap, OPEN, 0, 128)?;
    trial.image[0..128].fill(0);
    trial.bytes[0] = 0;
    Ok(trial)
}

// The trials, in their order.
pub(crate) fn trials(heap: Global) -> Result<Vec<Trial>, AllocError> {
    Ok(vec![in heap;
        blank(heap, OPEN, 2048, 0)?,
        blank(heap, OPEN, 2049, 0)?,
        ended(heap, 0, 1)?,
        two_pages(heap)?,
        ended(heap, 1, 62)?,
        ended(heap, 0, 33)?,
        spotted(heap, OPEN, 2048)?,
        spotted(heap, TOP_PROTECTED, 1792)?,
        blank(heap, TOP_PROTECTED, 1792, 1)?,
        barred(heap)?,
        ended(heap, 60, 4)?,
        ended(heap, 62, 4)?,
        outside(heap)?,
        mixed(heap, 100, 700)?,
        mixed(heap, 0, 2048)?,
    ]?)
}
