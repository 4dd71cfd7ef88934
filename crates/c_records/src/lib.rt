// What C takes otherwise than the port has it: a text by value (`texts`), and the running box as its four
// numbers, with a refusal number alone beside it (`boxes`). The crate `capi` exports the functions that hand
// them over.
#![tactic(auto)]

mod boxes;
mod texts;

pub use boxes::{CRefusal, box_of, keep};
pub use texts::{CText, text_of};
