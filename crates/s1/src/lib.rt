// Intervals of the unit circle: `src/s1` of the crate. `interval` has the operations, which read their
// operands and refuse; `circle` has what they do with operands that have been read, for the layers
// above, which read their own.
#![tactic(auto)]

pub mod circle;
pub mod interval;
mod reading;
mod rests;
