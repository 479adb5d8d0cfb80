// What a page cycle does to one page, and an erase to a run of bytes.
ghost use Rattle.std.specs.Prelude.{◌≡◌, ℕ, ◌+◌, ◌*◌, ◌/◌, ◌%◌, ◌<◌, ◌≤◌, List, [], length, replicate, slice_index};
ghost use Rattle.memory.specs.Page.{cover, merged, put, written};
ghost use Rattle.memory.specs.Image.{rule};

use crate::bytes::fill;
use crate::kind::Kind;
use crate::model::{PAGE_BYTES, page_start};

// What a place is sent, if anything.
type Cover = [Option<u8>; PAGE_BYTES];

// What a page cycle leaves of the old byte and the one sent.
fn left(kind: Kind, old: u8, sent: u8) -> u8
    ensures { result ≡ rule kind old sent }
{
    match kind {
        Kind::Program | Kind::Preset => old & sent,
        Kind::Alter | Kind::SectorErase | Kind::BulkErase => sent,
    }
}

// The data come round at the page's end, and a later byte takes an earlier one's place.
fn lay(at: usize, sent: &[u8]) -> Cover
    requires { at < 64 }
    ensures { result ≡ cover 64 at sent.now }
{
    let mut places = [None; PAGE_BYTES];
    for (i, byte) in sent.iter().enumerate() {
        places[(at + i) % PAGE_BYTES] = Some(*byte);
    }
    places
}

fn merge(kind: Kind, bytes: &mut [u8], sent: &Cover)
    requires { length bytes.old ≡ 64 }
    ensures { bytes.new ≡ merged (rule kind) bytes.old sent.now }
{
    // no `zip` with what is sent: tried, and its loop has no name for the bytes written so far
    for (i, byte) in bytes.iter_mut().enumerate() {
        if let Some(sent) = sent[i] {
            *byte = left(kind, *byte, sent);
        }
    }
}

// A page cycle on the page that holds the address.
pub(crate) fn write(kind: Kind, image: &mut [u8], address: usize, sent: &[u8])
    requires { address / 64 * 64 + 64 ≤ length image.old }
    ensures after { image.new ≡ written (rule kind) 64 address sent.now image.old }
    ensures bytes { (i : ℕ) → slice_index image.new i < 256 }
{
    let start = page_start(address);
    let cover = lay(address % PAGE_BYTES, sent);
    merge(kind, &mut image[start..start + PAGE_BYTES], &cover);
}

pub(crate) fn erase(image: &mut [u8], start: usize, n: usize)
    requires { start + n ≤ length image.old }
    ensures after { image.new ≡ put start (replicate n 255) image.old }
    ensures bytes { (i : ℕ) → slice_index image.new i < 256 }
{
    fill(&mut image[start..start + n], 0xFF);
}
