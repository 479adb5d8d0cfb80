// What a frame asks of the chip.
use memory::kind::Kind;

#[derive(Clone, Copy, PartialEq, Eq, Debug)]
pub enum Order<'a> {
    Enable,
    Disable,
    Status,
    Identify,
    Read(usize),
    Cycle {
        kind: Kind,
        address: usize,
        data: &'a [u8],
    },
    // nothing that the chip knows: the frame is ignored
    Unknown,
}
