// A box in whole ten-millionths of a degree: its limits, and what -180 is read as.
ghost use Rattle.std.specs.Prelude.{◌≡◌};
ghost use Rattle.bounds.specs.Bounds.{within, in_limits, is_westmost, whole_circle, seam_read, placed, settled, givable};

// 180 degrees east and west.
const EASTMOST: i64 = 1800000000;

const WESTMOST: i64 = -1800000000;

// The largest size of a longitude and of a latitude: 180 and 90 degrees.
const LONGITUDE: u32 = 1800000000;

const LATITUDE: u32 = 900000000;

// West, south, east, north.
#[repr(C)]
#[derive(Clone, Copy, Debug, PartialEq, Eq)]
pub struct Bounds {
    pub west: i64,
    pub south: i64,
    pub east: i64,
    pub north: i64,
}

// Whether a number is within a limit, of either sign.
#[tactic(auto, unfolding(crate::specs::Bounds::within))]
fn is_within(limit: u32, z: i64) -> bool
    ensures { result ≡ within limit z }
{
    let limit = i64::from(limit);
    (-limit..=limit).contains(&z)
}

// Whether every number is within its limit, and the south not above the north.
// Laws: Boxes.limits, Boxes.within-size, Boxes.given-limits; bbox.Given.accepted-is.
// Ruled out: of [180.0000001, 0, 0, 0]: yes; of [0, 1, 0, 0]: yes; of [-180, 0, 0, 0]: no.
#[tactic(auto, unfolding(crate::specs::Bounds::in_limits))]
pub fn is_in_limits(b: Bounds) -> bool
    ensures { result ≡ in_limits b }
{
    is_within(LONGITUDE, b.west)
        && is_within(LATITUDE, b.south)
        && is_within(LONGITUDE, b.east)
        && is_within(LATITUDE, b.north)
        && b.south <= b.north
}

// Whether a number within the limits is -180.
#[tactic(auto, unfolding(crate::specs::Bounds::is_westmost))]
fn is_westmost(z: i64) -> bool
    ensures { result ≡ is_westmost z }
{
    z <= WESTMOST
}

// Whether a box goes from -180 to 180.
#[tactic(auto, unfolding(crate::specs::Bounds::whole_circle, crate::specs::Bounds::is_eastmost))]
fn is_whole_circle(b: Bounds) -> bool
    ensures { result ≡ whole_circle b }
{
    is_westmost(b.west) && EASTMOST <= b.east
}

// -180 is read as 180.
#[tactic(auto, unfolding(crate::specs::Bounds::seam_read))]
fn read_seam(z: i64) -> i64
    ensures { result ≡ seam_read z }
{
    if is_westmost(z) { EASTMOST } else { z }
}

// Only -180 with 180 is the whole circle; every other -180 is read as 180.
// Laws: Boxes.placed-given, Boxes.settled-stays; bbox.Promises.whole-circle-stays,
// bbox.Promises.every-other-180.
// Ruled out: of [-180, 0, 0, 0]: west -180; of [-180, 0, 180, 0]: west 180; of [0, 0, -180, 0]: east -180.
#[tactic(auto, unfolding(crate::specs::Bounds::placed))]
pub fn place(b: Bounds) -> Bounds
    ensures { result ≡ placed b }
{
    if is_whole_circle(b) {
        return b;
    }
    Bounds {
        west: read_seam(b.west),
        east: read_seam(b.east),
        ..b
    }
}

// Whether -180 stands only in the whole circle.
#[tactic(auto, unfolding(crate::specs::Bounds::settled))]
fn is_settled(b: Bounds) -> bool
    ensures { result ≡ settled b }
{
    is_whole_circle(b) || (!is_westmost(b.west) && !is_westmost(b.east))
}

// Whether reading can give a box.
// Laws: Boxes.placed-given, Boxes.settled-stays; bbox.Given.reads-given; bbox.Round.round_trip (together:
// just the boxes that reading gives).
// Ruled out: of [-180, 0, 180, 0]: no; of [0, 0, -180, 0]: yes; of [0, 1, 0, 0]: yes.
#[tactic(auto, unfolding(crate::specs::Bounds::givable))]
pub fn can_give(b: Bounds) -> bool
    ensures { result ≡ givable b }
{
    is_in_limits(b) && is_settled(b)
}
