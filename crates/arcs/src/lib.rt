// The common pieces of arcs, circle intervals: all that lies in every one of them, as pieces of which no
// two can be joined (specs/CommonArcs.antt). The arcs are handed over as two kinds: those that do not cross
// the seam are narrowed to one (`narrowed`), and the others lie in a lent array. `meet` finds the common
// pieces of them all. One piece is clipped by arcs that cross the seam (`sweep`), which are put in order
// before (the crate `sort`); `clip` clips any pieces by any arc.
#![tactic(auto)]

mod clip;
mod meeting;
mod sweep;

pub use meeting::{meet, narrowed};
