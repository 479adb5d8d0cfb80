// A plain image that is busy for longer after a cycle, as a chip is.
use part::plain::PlainImage;

#[derive(Drop)]
pub struct SlowImage {
    pub plain: PlainImage,
    // how many polls will still show it busy, as long as it is
    pub left: usize,
    // what a cycle sets `left` to
    pub busy_number: usize,
}
