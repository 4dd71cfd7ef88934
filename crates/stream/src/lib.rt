// The stream of the program `common`: records in (the crate `record`), and the text of their common region
// out. `gather` reads all of them, and `answer` says what goes out.
#![tactic(auto)]

mod answer;
mod gather;

pub use answer::common_text;
