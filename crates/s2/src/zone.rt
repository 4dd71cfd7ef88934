// What the operations of rect.rt do once their operands have been read, in the Rust's own order: part by
// part, by the line interval of the latitude and the circle interval of the longitude.
//
// The original file has no copyright lines of its own; NOTICE has the crate's.
// ported from src/s2/rect.rs of s2 0.2.0, changed: functions of rectangles by value, with radians for
// `Angle`; a latlng at longitude -PI makes [PI, PI], and an empty rectangle is its own polar closure.
ghost use Rattle.std.specs.Prelude.{◌≡◌};
ghost use Rattle.s2.specs.Zone.{EMPTY, latitude, is_lat_lng, valid_latitudes, alike, like_parts, is_valid, from_lat_lng, from_point_pair, is_empty};
ghost use Rattle.s2.specs.Zone.{is_full, is_point, is_inverted, vertex, center, size, polar_closure, expanded, from_center_size, contains_lat_lng};
ghost use Rattle.s2.specs.Zone.{interior_contains_lat_lng, add, contains, interior_contains, intersects, interior_intersects, union, intersection};
ghost use Rattle.s2.specs.Zone.{approx_eq_by, eq};

use crate::latlng::{LatLng, NORTH_POLE_LAT, SOUTH_POLE_LAT};
use crate::rect::{Rect, VALID_RECT_LAT_RANGE};
use consts::{NEG_PI, PI};
use r1::interval::Interval as Line;
use r1::line;
use s1::circle;
use s1::interval::Interval as Circle;

// Whether a latitude lies from pole to pole.
#[tactic(auto, unfolding(crate::specs::Zone::latitude))]
fn is_latitude(x: f64) -> bool
    ensures { result ≡ latitude x }
{
    (SOUTH_POLE_LAT <= x) & (x <= NORTH_POLE_LAT)
}

// Does the work of LatLng::is_valid on operands that have been read.
#[tactic(auto, unfolding(crate::specs::Zone::is_lat_lng, s1::specs::Reading::on_circle))]
pub fn is_latlng(p: LatLng) -> bool
    ensures { result ≡ is_lat_lng p }
{
    is_latitude(p.lat) & ((NEG_PI <= p.lng) & (p.lng <= PI))
}

// Whether lat.lo lies from pole to pole and lat.hi is not above the pole: the first of the three tests of
// validity.
pub(crate) fn has_latitudes(r: Rect) -> bool
    ensures { result ≡ valid_latitudes r.lat }
{
    is_latitude(r.lat.lo) & (r.lat.hi <= NORTH_POLE_LAT)
}

// Whether both parts are empty or neither is: the last of them.
pub(crate) fn has_like_parts(r: Rect) -> bool
    ensures { result ≡ like_parts r }
{
    line::is_empty(r.lat) == circle::is_empty(r.lng)
}

// Does the work of Rect::is_valid on operands that have been read.
#[tactic(auto, unfolding(crate::specs::Zone::is_valid))]
pub fn is_valid(r: Rect) -> bool
    ensures { result ≡ is_valid r }
{
    has_latitudes(r) & circle::is_valid(r.lng) & has_like_parts(r)
}

// Does the work of Rect::from_latlng on operands that have been read.
#[tactic(auto, unfolding(crate::specs::Zone::from_lat_lng))]
pub fn from_latlng(p: LatLng) -> Rect
    ensures { result ≡ from_lat_lng p }
{
    let lat = Line {
        lo: p.lat,
        hi: p.lat,
    };
    let lng = circle::new(p.lng, p.lng);
    Rect { lat, lng }
}

// Does the work of Rect::from_center_size on operands that have been read.
#[tactic(auto, unfolding(crate::specs::Zone::from_center_size))]
pub fn from_center_size(center: LatLng, size: LatLng) -> Rect
    ensures { result ≡ from_center_size center size }
{
    let half = LatLng {
        lat: size.lat * 0.5,
        lng: size.lng * 0.5,
    };
    expanded(from_latlng(center), half)
}

// Does the work of Rect::from_point_pair on operands that have been read.
#[tactic(auto, unfolding(crate::specs::Zone::from_point_pair))]
pub fn from_point_pair(p1: LatLng, p2: LatLng) -> Rect
    ensures { result ≡ from_point_pair p1 p2 }
{
    let lat = line::from_point_pair(p1.lat, p2.lat);
    let lng = circle::from_point_pair(p1.lng, p2.lng);
    Rect { lat, lng }
}

// Does the work of Rect::is_empty on operands that have been read.
#[tactic(auto, unfolding(crate::specs::Zone::is_empty))]
pub fn is_empty(r: Rect) -> bool
    ensures { result ≡ is_empty r }
{
    line::is_empty(r.lat)
}

// Does the work of Rect::is_full on operands that have been read.
#[tactic(auto, unfolding(crate::specs::Zone::is_full))]
pub fn is_full(r: Rect) -> bool
    ensures { result ≡ is_full r }
{
    line::eq(r.lat, VALID_RECT_LAT_RANGE) & circle::is_full(r.lng)
}

// Does the work of Rect::is_point on operands that have been read.
#[tactic(auto, unfolding(crate::specs::Zone::is_point))]
pub fn is_point(r: Rect) -> bool
    ensures { result ≡ is_point r }
{
    (r.lat.lo == r.lat.hi) & (r.lng.lo == r.lng.hi)
}

// Does the work of Rect::is_inverted on operands that have been read.
pub fn is_inverted(r: Rect) -> bool
    ensures { result ≡ is_inverted r }
{
    circle::is_inverted(r.lng)
}

// Does the work of Rect::vertex on operands that have been read.
#[tactic(auto, unfolding(crate::specs::Zone::vertex))]
pub fn vertex(r: Rect, i: u8) -> LatLng
    ensures { result ≡ vertex r i }
{
    match i % 4 {
        0 => LatLng {
            lat: r.lat.lo,
            lng: r.lng.lo,
        },
        1 => LatLng {
            lat: r.lat.lo,
            lng: r.lng.hi,
        },
        2 => LatLng {
            lat: r.lat.hi,
            lng: r.lng.hi,
        },
        _ => LatLng {
            lat: r.lat.hi,
            lng: r.lng.lo,
        },
    }
}

// Does the work of Rect::center on operands that have been read.
#[tactic(auto, unfolding(crate::specs::Zone::center))]
pub fn center(r: Rect) -> LatLng
    ensures { result ≡ center r }
{
    let lat = line::center(r.lat);
    let lng = circle::center(r.lng);
    LatLng { lat, lng }
}

// Does the work of Rect::size on operands that have been read.
#[tactic(auto, unfolding(crate::specs::Zone::size))]
pub fn size(r: Rect) -> LatLng
    ensures { result ≡ size r }
{
    let lat = line::len(r.lat);
    let lng = consts::zero_read(circle::len(r.lng));
    LatLng { lat, lng }
}

// What is answered where one part of a rectangle has become empty.
fn standard_empty() -> Rect
    ensures { result ≡ EMPTY }
{
    Rect::EMPTY
}

// Does the work of Rect::expanded on operands that have been read.
#[tactic(auto, unfolding(crate::specs::Zone::expanded))]
pub fn expanded(r: Rect, margin: LatLng) -> Rect
    ensures { result ≡ expanded r margin }
{
    let lat = line::expanded(r.lat, margin.lat);
    let lng = circle::expanded(r.lng, margin.lng);
    if line::is_empty(lat) | circle::is_empty(lng) {
        return standard_empty();
    }
    let clamped = line::intersection(lat, VALID_RECT_LAT_RANGE);
    Rect { lat: clamped, lng }
}

// Does the work of Rect::polar_closure on operands that have been read.
#[tactic(auto, unfolding(crate::specs::Zone::polar_closure))]
pub fn polar_closure(r: Rect) -> Rect
    ensures { result ≡ polar_closure r }
{
    if !is_empty(r) & ((r.lat.lo == SOUTH_POLE_LAT) | (r.lat.hi == NORTH_POLE_LAT)) {
        let lat = r.lat;
        return Rect {
            lat,
            lng: Circle::FULL,
        };
    }
    r
}

// Does the work of Rect::union on operands that have been read.
#[tactic(auto, unfolding(crate::specs::Zone::union))]
pub fn union(r: Rect, other: Rect) -> Rect
    ensures { result ≡ union r other }
{
    let lat = line::union(r.lat, other.lat);
    let lng = circle::union(r.lng, other.lng);
    Rect { lat, lng }
}

// Does the work of Rect::intersection on operands that have been read.
#[tactic(auto, unfolding(crate::specs::Zone::intersection))]
pub fn intersection(r: Rect, other: Rect) -> Rect
    ensures { result ≡ intersection r other }
{
    let lat = line::intersection(r.lat, other.lat);
    let lng = circle::intersection(r.lng, other.lng);
    if line::is_empty(lat) | circle::is_empty(lng) {
        return standard_empty();
    }
    Rect { lat, lng }
}

// Does the work of Rect::intersects on operands that have been read.
#[tactic(auto, unfolding(crate::specs::Zone::intersects))]
pub fn intersects(r: Rect, other: Rect) -> bool
    ensures { result ≡ intersects r other }
{
    if line::intersects(r.lat, other.lat) {
        circle::intersects(r.lng, other.lng)
    } else {
        false
    }
}

// Does the work of Rect::interior_intersects on operands that have been read.
#[tactic(auto, unfolding(crate::specs::Zone::interior_intersects))]
pub fn interior_intersects(r: Rect, other: Rect) -> bool
    ensures { result ≡ interior_intersects r other }
{
    if line::interior_intersects(r.lat, other.lat) {
        circle::interior_intersects(r.lng, other.lng)
    } else {
        false
    }
}

// Does the work of Rect::contains on operands that have been read.
#[tactic(auto, unfolding(crate::specs::Zone::contains))]
pub fn contains(r: Rect, other: Rect) -> bool
    ensures { result ≡ contains r other }
{
    if line::contains_interval(r.lat, other.lat) {
        circle::contains_interval(r.lng, other.lng)
    } else {
        false
    }
}

// Does the work of Rect::interior_contains on operands that have been read.
#[tactic(auto, unfolding(crate::specs::Zone::interior_contains))]
pub fn interior_contains(r: Rect, other: Rect) -> bool
    ensures { result ≡ interior_contains r other }
{
    if line::interior_contains_interval(r.lat, other.lat) {
        circle::interior_contains_interval(r.lng, other.lng)
    } else {
        false
    }
}

// Does the work of Rect::contains_latlng on operands that have been read.
#[tactic(auto, unfolding(crate::specs::Zone::contains_lat_lng))]
pub fn contains_latlng(r: Rect, p: LatLng) -> bool
    ensures { result ≡ contains_lat_lng r p }
{
    if line::contains(r.lat, p.lat) {
        circle::contains(r.lng, p.lng)
    } else {
        false
    }
}

// Does the work of Rect::interior_contains_latlng on operands that have been read.
#[tactic(auto, unfolding(crate::specs::Zone::interior_contains_lat_lng))]
pub fn interior_contains_latlng(r: Rect, p: LatLng) -> bool
    ensures { result ≡ interior_contains_lat_lng r p }
{
    if line::interior_contains(r.lat, p.lat) {
        circle::interior_contains(r.lng, p.lng)
    } else {
        false
    }
}

// Does the work of Rect::add on operands that have been read.
#[tactic(auto, unfolding(crate::specs::Zone::add))]
pub fn add(r: Rect, p: LatLng) -> Rect
    ensures { result ≡ add r p }
{
    let lat = line::add(r.lat, p.lat);
    let lng = circle::add(r.lng, p.lng);
    Rect { lat, lng }
}

// Does the work of Rect::approx_eq_by on operands that have been read.
#[tactic(auto, unfolding(crate::specs::Zone::approx_eq_by))]
pub fn approx_eq_by(r: Rect, other: Rect, max_error: LatLng) -> bool
    ensures { result ≡ approx_eq_by r other max_error }
{
    if line::approx_eq_by(r.lat, other.lat, max_error.lat) {
        circle::approx_eq_by(r.lng, other.lng, max_error.lng)
    } else {
        false
    }
}

// Does the work of Rect::eq on operands that have been read.
#[tactic(auto, unfolding(crate::specs::Zone::eq))]
pub fn eq(r: Rect, other: Rect) -> bool
    ensures { result ≡ eq r other }
{
    line::eq(r.lat, other.lat) & circle::eq(r.lng, other.lng)
}
