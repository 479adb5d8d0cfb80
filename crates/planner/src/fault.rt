// Why a write is not planned. specs/Call.antt gives each case its layer, number and values.

use least::cost::Cost;

#[derive(Clone, Copy, PartialEq, Eq, Debug)]
pub enum PlanFault {
    // the bytes from the address on end past the memory's end
    Outside(usize),
    // polls are due
    Busy,
    // the lowest byte of a protected sector that would have to change
    Protected(usize),
    // the step list has no room for a plan of this cost
    StepsShort(Cost),
    // the data buffer has none
    DataShort(Cost),
}
