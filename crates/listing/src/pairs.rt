// The bytes of a frame or a count.
ghost use Rattle.std.specs.Prelude.{◌≡◌, length};
ghost use Rattle.listing.specs.Values.{values, good, tallied, Spelled, read_answer, read_into};

use crate::bytes::read_pair;
use crate::fault::ListingFault;
use crate::room::check_room;
use crate::sheet::PAIR;

// How many pairs a text has, or where it breaks. Another loop than `Reader::pairs_end`: that one stops before whatever ends
// the pairs of a line, and this one has to come to the end of its text.
fn count_pairs(pairs: &[u8]) -> Result<usize, ListingFault>
    ensures { result ≡ tallied 0 (values 0 pairs.now) }
{
    // By chunks of three a space at the end, with no pair after it, would need a test of its own.
    let mut at = 0;
    loop {
        let Some(_) = read_pair(&pairs[at..]) else {
            return Err(ListingFault::after(1, at));
        };
        match pairs.get(at + 2) {
            None => return Ok(at / PAIR + 1),
            Some(b' ') => at += PAIR,
            Some(_) => return Err(ListingFault::after(1, at + 2)),
        }
    }
}

// Writes the values of pairs, as many as the buffer holds. Each pair but the last has a space after it, so the next one
// begins three bytes on. By `zip` with `chunks(3)` nothing was proved of what the buffer holds afterwards.
fn copy_values(pairs: &[u8], into: &mut [u8])
    requires { length into.old ≡ length (good (values 0 pairs.now)) }
    ensures { into.new ≡ good (values 0 pairs.now) }
{
    for (i, byte) in into.iter_mut().enumerate() {
        let Some(value) = read_pair(&pairs[PAIR * i..]) else {
            unreachable!()
        };
        *byte = value;
    }
}

// Writes the bytes that pairs spell, as those of a frame or a count, at the start of the buffer, and gives
// their number. A text that is not pairs is refused at its column, as line 1. Refused, the buffer stays as it was.
pub fn read_pairs(pairs: &[u8], into: &mut [u8]) -> Result<usize, ListingFault>
    ensures answer { result ≡ read_answer (values 0 pairs.now) (length into.old) }
    ensures buffer { into.new ≡ read_into (values 0 pairs.now) into.old }
    ensures spelled { Spelled pairs.now }
{
    let count = count_pairs(pairs)?;
    check_room(count as u128, into)?;
    copy_values(pairs, &mut into[..count]);
    Ok(count)
}
