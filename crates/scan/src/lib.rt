// The scan worker, added to what the crate has: it enlarges one running box that is lent to it, by a point or by
// a lent list of points. The running box by value is in the crate `growth`.
#![tactic(auto)]

mod worker;

pub use worker::{enlarge, enlarge_all};
