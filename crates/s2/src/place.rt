// A place, in document 01's words: a latitude, and a longitude place, which is a double above -PI up to PI
// or the gap between two neighbouring doubles. specs/Places.antt says which records are places. The mark stands
// beside the double, since the promises speak of the double of both, by its name.

#[repr(C)]
#[derive(Clone, Copy)]
pub struct Place {
    // The latitude, from pole to pole.
    pub lat: f64,
    // The longitude place: the double, or, with the mark, the gap just above it.
    pub lng: f64,
    pub gap: bool,
}
