// GeoJSON's bounding boxes (RFC 7946, section 5): the array of west, south, east and north in degrees, read
// from a lent text. A box (crate `bounds`) is held in whole ten-millionths of a degree; what is written for
// one (crate `bbox_text`) reads back as it.
#![tactic(auto)]

mod number;
mod reader;

pub use reader::{Answer, read};
