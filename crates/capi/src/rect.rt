// Rectangles, and whether a point is valid.
ghost use Rattle.std.specs.Prelude.{◌≡◌};
ghost use Rattle.s2.specs.Answers.{from_lat_lng, from_center_size, from_point_pair, is_valid, is_empty, is_full, is_point, is_inverted, vertex};
ghost use Rattle.s2.specs.Answers.{center, size, contains, interior_contains, contains_lat_lng, interior_contains_lat_lng, intersects};
ghost use Rattle.s2.specs.Answers.{interior_intersects, eq, approx_eq, approx_eq_by, union, intersection, expanded, polar_closure, add, is_lat_lng};

use consts::YesNo;
use s2::latlng::LatLng;
use s2::rect::{Answer, PointAnswer, Rect};

// ---- making one

// The rectangle that holds one point; longitude -PI is stored as PI.
#[unsafe(no_mangle)]
pub extern "C" fn sjurnabel_rect_from_latlng(p: LatLng) -> Answer
    ensures { result ≡ from_lat_lng p }
{
    Answer::from(Rect::from_latlng(p))
}

// The rectangle of that size about the center.
#[unsafe(no_mangle)]
pub extern "C" fn sjurnabel_rect_from_center_size(center: LatLng, size: LatLng) -> Answer
    ensures { result ≡ from_center_size center size }
{
    Answer::from(Rect::from_center_size(center, size))
}

// A rectangle that holds two points, its longitudes by the shorter way, but for rounding.
#[unsafe(no_mangle)]
pub extern "C" fn sjurnabel_rect_from_point_pair(p: LatLng, q: LatLng) -> Answer
    ensures { result ≡ from_point_pair p q }
{
    Answer::from(Rect::from_point_pair(p, q))
}

// ---- what one is

// Whether a is valid: one that is not is refused, with no beside the number.
#[unsafe(no_mangle)]
pub extern "C" fn sjurnabel_rect_is_valid(a: Rect) -> YesNo
    ensures { result ≡ is_valid a }
{
    YesNo::from(a.is_valid())
}

// Whether a holds nothing.
#[unsafe(no_mangle)]
pub extern "C" fn sjurnabel_rect_is_empty(a: Rect) -> YesNo
    ensures { result ≡ is_empty a }
{
    YesNo::from(a.is_empty())
}

// Whether a holds every place.
#[unsafe(no_mangle)]
pub extern "C" fn sjurnabel_rect_is_full(a: Rect) -> YesNo
    ensures { result ≡ is_full a }
{
    YesNo::from(a.is_full())
}

// Whether a holds a single point.
#[unsafe(no_mangle)]
pub extern "C" fn sjurnabel_rect_is_point(a: Rect) -> YesNo
    ensures { result ≡ is_point a }
{
    YesNo::from(a.is_point())
}

// Whether a crosses the 180th meridian; an empty one says yes too.
#[unsafe(no_mangle)]
pub extern "C" fn sjurnabel_rect_is_inverted(a: Rect) -> YesNo
    ensures { result ≡ is_inverted a }
{
    YesNo::from(a.is_inverted())
}

// The corner of number i modulo 4: lower left, lower right, upper right, upper left.
#[unsafe(no_mangle)]
pub extern "C" fn sjurnabel_rect_vertex(a: Rect, i: u8) -> PointAnswer
    ensures { result ≡ vertex a i }
{
    PointAnswer::from(a.vertex(i))
}

// The lower left corner.
#[unsafe(no_mangle)]
pub extern "C" fn sjurnabel_rect_lo(a: Rect) -> PointAnswer
    ensures { result ≡ vertex a 0 }
{
    PointAnswer::from(a.lo())
}

// The upper right corner.
#[unsafe(no_mangle)]
pub extern "C" fn sjurnabel_rect_hi(a: Rect) -> PointAnswer
    ensures { result ≡ vertex a 2 }
{
    PointAnswer::from(a.hi())
}

// The middle of the latitudes and of the longitudes.
#[unsafe(no_mangle)]
pub extern "C" fn sjurnabel_rect_center(a: Rect) -> PointAnswer
    ensures { result ≡ center a }
{
    PointAnswer::from(a.center())
}

// How far the latitudes and the longitudes go; negative where a is empty.
#[unsafe(no_mangle)]
pub extern "C" fn sjurnabel_rect_size(a: Rect) -> PointAnswer
    ensures { result ≡ size a }
{
    PointAnswer::from(a.size())
}

// ---- tests of two, or of one and a point

// Whether a holds every place of b.
#[unsafe(no_mangle)]
pub extern "C" fn sjurnabel_rect_contains(a: Rect, b: Rect) -> YesNo
    ensures { result ≡ contains a b }
{
    YesNo::from(a.contains(b))
}

// Whether the inside of a holds every place of b.
#[unsafe(no_mangle)]
pub extern "C" fn sjurnabel_rect_interior_contains(a: Rect, b: Rect) -> YesNo
    ensures { result ≡ interior_contains a b }
{
    YesNo::from(a.interior_contains(b))
}

// Whether a holds the point.
#[unsafe(no_mangle)]
pub extern "C" fn sjurnabel_rect_contains_latlng(a: Rect, p: LatLng) -> YesNo
    ensures { result ≡ contains_lat_lng a p }
{
    YesNo::from(a.contains_latlng(p))
}

// Whether the inside of a holds the point.
#[unsafe(no_mangle)]
pub extern "C" fn sjurnabel_rect_interior_contains_latlng(a: Rect, p: LatLng) -> YesNo
    ensures { result ≡ interior_contains_lat_lng a p }
{
    YesNo::from(a.interior_contains_latlng(p))
}

// Whether both share a place.
#[unsafe(no_mangle)]
pub extern "C" fn sjurnabel_rect_intersects(a: Rect, b: Rect) -> YesNo
    ensures { result ≡ intersects a b }
{
    YesNo::from(a.intersects(b))
}

// Whether the inside of a shares a place with b.
#[unsafe(no_mangle)]
pub extern "C" fn sjurnabel_rect_interior_intersects(a: Rect, b: Rect) -> YesNo
    ensures { result ≡ interior_intersects a b }
{
    YesNo::from(a.interior_intersects(b))
}

// Whether both hold the same places.
#[unsafe(no_mangle)]
pub extern "C" fn sjurnabel_rect_eq(a: Rect, b: Rect) -> YesNo
    ensures { result ≡ eq a b }
{
    YesNo::from(a.eq(b))
}

// Whether both are the same but for noise, 1e-14 an end.
#[unsafe(no_mangle)]
pub extern "C" fn sjurnabel_rect_approx_eq(a: Rect, b: Rect) -> YesNo
    ensures { result ≡ approx_eq a b }
{
    YesNo::from(a.approx_eq(b))
}

// The same with the errors given, of latitudes and of longitudes.
#[unsafe(no_mangle)]
pub extern "C" fn sjurnabel_rect_approx_eq_by(a: Rect, b: Rect, max_error: LatLng) -> YesNo
    ensures { result ≡ approx_eq_by a b max_error }
{
    YesNo::from(a.approx_eq_by(b, max_error))
}

// ---- a new one from old ones

// A rectangle that holds both.
#[unsafe(no_mangle)]
pub extern "C" fn sjurnabel_rect_union(a: Rect, b: Rect) -> Answer
    ensures { result ≡ union a b }
{
    Answer::from(a.union(b))
}

// A rectangle that holds what both share, and it may hold more: the exact answer is the common region.
#[unsafe(no_mangle)]
pub extern "C" fn sjurnabel_rect_intersection(a: Rect, b: Rect) -> Answer
    ensures { result ≡ intersection a b }
{
    Answer::from(a.intersection(b))
}

// The rectangle with the margins added on each side, or taken off where they are negative.
#[unsafe(no_mangle)]
pub extern "C" fn sjurnabel_rect_expanded(a: Rect, margin: LatLng) -> Answer
    ensures { result ≡ expanded a margin }
{
    Answer::from(a.expanded(margin))
}

// The rectangle with all longitudes where it reaches a pole.
#[unsafe(no_mangle)]
pub extern "C" fn sjurnabel_rect_polar_closure(a: Rect) -> Answer
    ensures { result ≡ polar_closure a }
{
    Answer::from(a.polar_closure())
}

// The rectangle grown by a point; a bad point hands it back as it came.
#[unsafe(no_mangle)]
pub extern "C" fn sjurnabel_rect_add(a: Rect, p: LatLng) -> Answer
    ensures { result ≡ add a p }
{
    Answer::grown(a, a.add(p))
}

// ---- a point

// Whether a point is valid: one that is not is refused, with no beside the number.
#[unsafe(no_mangle)]
pub extern "C" fn sjurnabel_latlng_is_valid(p: LatLng) -> YesNo
    ensures { result ≡ is_lat_lng p }
{
    YesNo::from(p.is_valid())
}
