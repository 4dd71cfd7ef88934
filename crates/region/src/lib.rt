// The common region of a lent list of rectangles: all that lies in every one of them, as pieces of which
// no two can be joined. `reading` reads the list; `finding` finds the common band and, by the crate arcs,
// the longitude pieces; `region` refuses, and writes the pieces out.
#![tactic(auto)]

mod finding;
mod reading;
mod region;

pub use region::{Pieces, common_region};
