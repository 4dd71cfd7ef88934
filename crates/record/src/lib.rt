// One record of the stream of the program `common`: 34 bytes, a mark and the four numbers of a rectangle, and
// what they are read as.
#![tactic(auto)]

mod record;

pub use record::{is_record, number_of, read_record};
