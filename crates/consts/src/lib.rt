// The constants and the remainder of `src/consts.rs`, and beside them what every layer of the port
// reads its operands by and answers with: the refusal numbers, "in reach", and the reading
// of negative zero as zero.
#![tactic(auto)]

mod answer;
mod consts;
mod reading;
mod refusal;

pub use answer::{Number, YesNo};
pub use consts::{DBL_EPSILON, EPSILON, NEG_PI, PI, TURN, remainder};
pub use reading::{in_reach, read_margin, read_number, zero_read};
pub use refusal::{Refusal, first_fault};
