// Why a driver does not attach. specs/Attach.antt gives each case its layer, number and values.

#[derive(Clone, Copy, PartialEq, Eq, Debug)]
pub enum AttachFault {
    // the poll limit is not 1 to 4,096
    Limit(usize),
    // the chip is still busy after so many polls
    Busy(usize),
}
