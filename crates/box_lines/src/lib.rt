// GeoJSON boxes, one a line, in; their common region as GeoJSON boxes, one a line, out. `gather` reads the
// lines, `wholes` has the way to radians and back, and `answer` says what goes out.
#![tactic(auto)]

mod answer;
mod gather;
mod wholes;

pub use answer::boxes_text;
