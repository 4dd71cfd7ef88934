// The running box, added to what the crate has: growth by one point after another, of which a refused one
// changes nothing. `running` makes a call of each point of a lent list, by value; `grow` is growth by the
// list, all of it or nothing. The crate `scan` stands on it, and enlarges a box that is lent.
#![tactic(auto)]

mod calls;
mod growth;
mod start;
mod track;

pub use growth::grow;
pub use track::{Run, RunningAnswer, running};
