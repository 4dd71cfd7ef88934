// Lists of records of any kind, lent as numbers: how long a list may be, the number at a place, the first
// refusal of a list with the entry that it stands at, and (specs/Inputs.antt) an input that is read item by
// item, where the first fault decides. What a record is, the crates above say. Every function is total: past
// the end of a list there is no number (NaN), which every reading refuses.
#![tactic(auto)]

mod records;

pub use records::{Fault, no_number, number_at, of_entry, whole};
