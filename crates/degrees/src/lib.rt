// From degrees to radians: a GeoJSON box, held in whole ten-millionths of a degree (crate `bounds`), as
// a rectangle in radians (crate `s2`).
#![tactic(auto)]

mod angle;
mod rect;

pub use angle::from_degrees;
pub use rect::{radians_of, to_rect};
