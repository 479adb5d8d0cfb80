// Runs of bytes.
ghost use Rattle.std.specs.Prelude.{◌≡◌, ℕ, ◌<◌, length, replicate, slice_index};
ghost use Rattle.memory.specs.Page.{blank};
ghost use Rattle.memory.specs.Image.{rolled};

// The slice's own `fill`, which does not say that each byte is below 256 as an image has to know it.
pub fn fill(bytes: &mut [u8], value: u8)
    ensures after { bytes.new ≡ replicate (length bytes.old) value }
    ensures bytes { (i : ℕ) → slice_index bytes.new i < 256 }
{
    bytes.fill(value);
}

pub fn is_blank(bytes: &[u8]) -> bool
    ensures { result ≡ blank bytes.now }
{
    bytes.iter().all(|x| *x == 0xFF)
}

// Fills a buffer from a place on, which counts modulo the length: after the last byte comes the first. From no bytes nothing
// is filled.
pub fn roll(bytes: &[u8], from: usize, into: &mut [u8])
    ensures rolled { 0 < length bytes.now → into.new ≡ rolled bytes.now from (length into.old) }
    ensures unfilled { length bytes.now ≡ 0 → into.new ≡ into.old }
{
    if bytes.is_empty() {
        return;
    }
    let mut at = from % bytes.len();
    // at once where it does not come round, as nearly every page is read: byte by byte planning a whole memory is slower
    if into.len() <= bytes.len() - at {
        into.copy_from_slice(&bytes[at..at + into.len()]);
        return;
    }
    // by a place that goes round: a remainder for each byte takes more than twice as long. No `zip` with what comes round: its
    // loop has no name for the bytes written so far
    for byte in into.iter_mut() {
        *byte = bytes[at];
        at = if at + 1 == bytes.len() { 0 } else { at + 1 };
    }
}
