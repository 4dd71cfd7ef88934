// Latitude and longitude: `src/s2` of the crate, the point record and the rectangle. `latlng` and `rect`
// have the operations, which read their operands and refuse; `reading` has how a rectangle is read, and
// `zone` what the operations do with rectangles that have been read, for the layers above. `place` is the
// record of a place.
#![tactic(auto)]

pub mod latlng;
pub mod place;
pub mod reading;
pub mod rect;
pub mod zone;
