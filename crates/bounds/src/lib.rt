// GeoJSON's bounding boxes (RFC 7946, section 5) as numbers: west, south, east and north in whole
// ten-millionths of a degree, their limits, and which boxes a bbox array can give.
#![tactic(auto)]

mod bounds;

pub use bounds::{Bounds, can_give, is_in_limits, place};
