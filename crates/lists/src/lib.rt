// One room for lists of rectangles and lists of points that are lent as numbers: the rectangle or the point
// that starts at a number, the numbers of a rectangle put back, and the first refusal of a list with the
// entry that it stands at. What they share with lists of other records is in the crate `entries`. Every
// function is total: past the end of a list there is no number (NaN), which every reading refuses.
#![tactic(auto)]

mod points;
mod rects;

pub use points::{point_at, read_point_at};
pub use rects::{first_refused, put_rect, read_rect, rect_at};
