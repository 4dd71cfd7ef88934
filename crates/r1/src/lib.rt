// Intervals of the real line: `src/r1` of the crate. `interval` has the operations, which read their
// operands and refuse; `line` has what they do with operands that have been read, for the layers above,
// which read their own.
#![tactic(auto)]

pub mod interval;
pub mod line;
mod reading;
