// The text of a box as a bbox array (RFC 7946, section 5): its grammar, and the writer that puts it into a
// lent text.
#![tactic(auto)]

mod writer;

pub use writer::write;
