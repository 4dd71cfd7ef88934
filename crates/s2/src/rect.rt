// The rectangle of latitudes and longitudes. Every operation reads its operands (reading.rt) and answers a
// `Result`; what document 01 states beside a refusal is in `Answer` and `PointAnswer`, which C is handed. What an
// operation does with operands that have been read is in zone.rt.
//
// The original file has no copyright lines of its own; NOTICE has the crate's.
// ported from src/s2/rect.rs of s2 0.2.0, changed: by value, with refusals; nothing that goes through a
// point of the sphere, a cap, a cell or an edge; no area, centroid, distance, degrees or printing.
ghost use Rattle.std.specs.Prelude.{◌≡◌};
ghost use Rattle.consts.specs.Answer.{yes_no_of};
ghost use Rattle.s2.specs.Answers.{rectangle_of, grown_of, point_of, from_lat_lng, from_center_size, from_point_pair};
ghost use Rattle.s2.specs.Answers.{is_valid, is_empty, is_full, is_point, is_inverted, vertex, center, size, expanded, polar_closure, union};
ghost use Rattle.s2.specs.Answers.{intersection, intersects, interior_intersects, contains, interior_contains, contains_lat_lng};
ghost use Rattle.s2.specs.Answers.{interior_contains_lat_lng, add, eq, approx_eq, approx_eq_by};

use crate::latlng::{LatLng, NORTH_POLE_LAT, SOUTH_POLE_LAT};
use crate::reading::{
    read_margins, read_one, read_point, read_two, read_with_margins, read_with_point,
};
use crate::zone;
use consts::{EPSILON, Refusal};
use r1::interval::Interval as Line;
use s1::interval::Interval as Circle;

// The latitudes from pole to pole.
pub const VALID_RECT_LAT_RANGE: Line = Line {
    lo: SOUTH_POLE_LAT,
    hi: NORTH_POLE_LAT,
};

// A rectangle holds the latitudes of a closed interval of the line, from pole to pole, and the
// longitudes of a closed interval of the circle. At a pole each longitude is a place by itself, so a
// rectangle may hold some of them and not others: polar_closure takes them all.
#[repr(C)]
#[derive(Clone, Copy)]
pub struct Rect {
    pub lat: Line,
    pub lng: Circle,
}

// A rectangle as an answer, as C has it. A refused one is the standard empty, or what growth was
// handed. (Not generic: see r1.)
#[repr(C)]
#[derive(Clone, Copy)]
pub struct Answer {
    pub refusal: u8,
    pub value: Rect,
}

// A point, or a size, as an answer, as C has it. A refused one is two zeros.
#[repr(C)]
#[derive(Clone, Copy)]
pub struct PointAnswer {
    pub refusal: u8,
    pub value: LatLng,
}

// Laws: none of its own.
// Ruled out: of [0, 1] by {0}: the same under 1; of a refusal with 21: the full rectangle under 21.
impl From<Result<Rect, Refusal>> for Answer {
    ghost from_gives = { λ r y. y ≡ rectangle_of r };

    fn from(r: Result<Rect, Refusal>) -> Answer {
        match r {
            Ok(value) => Answer { refusal: 0, value },
            Err(why) => {
                let value = Rect::EMPTY;
                Answer {
                    refusal: why.into(),
                    value,
                }
            }
        }
    }
}

// Laws: none of its own.
// Ruled out: of 1 and 2: 2 and 1; of a refusal with 21: a NaN under 21.
impl From<Result<LatLng, Refusal>> for PointAnswer {
    ghost from_gives = { λ r y. y ≡ point_of r };

    fn from(r: Result<LatLng, Refusal>) -> PointAnswer {
        match r {
            Ok(value) => PointAnswer { refusal: 0, value },
            Err(why) => {
                let value = LatLng { lat: 0.0, lng: 0.0 };
                PointAnswer {
                    refusal: why.into(),
                    value,
                }
            }
        }
    }
}

impl Answer {
    // What growth of the rectangle r by a point answers C: a bad point changes nothing, and the rectangle comes back as it was
    // handed in. A list that is cut short or too long changes nothing either.
    // Laws: none of its own.
    // Ruled out: of [0, 1] by {0} and a refusal with 3: the standard empty under 3; of the same and one with 21: the
    // same under 21 (it is the standard empty).
    pub fn grown(r: Rect, grown: Result<Rect, Refusal>) -> Answer
        ensures { result ≡ grown_of r grown }
    {
        match grown {
            Err(why @ (Refusal::BadPoint | Refusal::BadList)) => Answer {
                refusal: why.into(),
                value: r,
            },
            _ => Answer::from(grown),
        }
    }
}

#[tactic(auto, using(consts::proofs::Codes::code_refuses, crate::proofs::Readings::no_bad_point, crate::proofs::Readings::no_bad_list), unfolding(crate::specs::Answers::from_lat_lng, crate::specs::Answers::from_center_size, crate::specs::Answers::from_point_pair, crate::specs::Answers::is_valid, crate::specs::Answers::is_empty, crate::specs::Answers::is_full, crate::specs::Answers::is_point, crate::specs::Answers::is_inverted, crate::specs::Answers::vertex, crate::specs::Answers::center, crate::specs::Answers::size, crate::specs::Answers::expanded, crate::specs::Answers::polar_closure, crate::specs::Answers::union, crate::specs::Answers::intersection, crate::specs::Answers::intersects, crate::specs::Answers::interior_intersects, crate::specs::Answers::contains, crate::specs::Answers::interior_contains, crate::specs::Answers::contains_lat_lng, crate::specs::Answers::interior_contains_lat_lng, crate::specs::Answers::add, crate::specs::Answers::eq, crate::specs::Answers::approx_eq, crate::specs::Answers::approx_eq_by, crate::specs::Reading::read_two, crate::specs::Reading::read_with_point, crate::specs::Reading::read_with_margins, consts::specs::Refusal::first_refusal))]
impl Rect {
    // The canonical empty rectangle.
    pub const EMPTY: Rect = Rect {
        lat: Line::EMPTY,
        lng: Circle::EMPTY,
    };

    // The canonical full rectangle.
    pub const FULL: Rect = Rect {
        lat: VALID_RECT_LAT_RANGE,
        lng: Circle::FULL,
    };

    // The rectangle that holds a single point. Longitude -PI is stored as [PI, PI], where the crate
    // stores [-PI, -PI], which is not valid.
    // Laws: Differences.seam-stored; Valid.from-latlng-valid.
    // Ruled out: of 0 and -PI: {0} by [-PI, -PI]; of 1 and 2: {2} by {1}.
    pub fn from_latlng(p: LatLng) -> Result<Rect, Refusal>
        ensures { rectangle_of result ≡ from_lat_lng p }
    {
        Ok(zone::from_latlng(read_point(p)?))
    }

    // The rectangle of the given size about the given center. It starts from from_latlng, so that its
    // last bits may differ from the crate's at longitude -PI.
    // The center is refused with 3, then the size with 4. The half size is not read for zero, so
    // that a size of -5e-324 acts as 0, as in the crate.
    // Laws: Differences.center-size-starts; Valid.from-center-size-valid.
    // Ruled out: of 0 and 0, size 2 and 2: [-PI/2, PI/2] by [-2, 2], the size not halved; of 0 and
    // -PI, size 0 and 3FFB7812AEEF4BA3: [400243F6A8885A30, C00243F6A8885A2F] (F11).
    pub fn from_center_size(center: LatLng, size: LatLng) -> Result<Rect, Refusal>
        ensures { rectangle_of result ≡ from_center_size center size }
    {
        let p = read_point(center)?;
        Ok(zone::from_center_size(p, read_margins(size)?))
    }

    // Construct a bounding rectangle containing the two given points. Its longitudes are the circle's
    // from_point_pair, the minimal ones but where rounding hides which way is the shorter (F16).
    // Laws: Places.from-point-pair-holds; Valid.from-point-pair-valid.
    // Ruled out: of 0 and 3, 1 and -3: [0, 1] by [-3, 3]; of the same: {0} by {3}.
    pub fn from_point_pair(p1: LatLng, p2: LatLng) -> Result<Rect, Refusal>
        ensures { rectangle_of result ≡ from_point_pair p1 p2 }
    {
        Ok(zone::from_point_pair(read_point(p1)?, read_point(p2)?))
    }

    // is_valid reports whether the rectangle is valid. One that is not is refused, with no beside the
    // number.
    // Laws: Readings.one_in, Readings.one_out, Readings.one-not-valid.
    // Ruled out: of [0, 2] by {0}: yes; of [0, BFF921FB54442D19] by EMPTY: no.
    pub fn is_valid(self) -> Result<bool, Refusal>
        ensures { yes_no_of result ≡ is_valid self }
    {
        read_one(self)?;
        Ok(true)
    }

    // is_empty reports whether the rectangle is empty.
    // Laws: Places.is-empty-places.
    // Ruled out: of [0, 1] by [0, 1]: yes; of [0, -1] by EMPTY: no.
    pub fn is_empty(self) -> Result<bool, Refusal>
        ensures { yes_no_of result ≡ is_empty self }
    {
        Ok(zone::is_empty(read_one(self)?))
    }

    // is_full reports whether the rectangle is full.
    // Laws: Places.is-full-places.
    // Ruled out: of [-PI/2, PI/2] by [C00921FB54442D17, PI]: yes; of the full one: no.
    pub fn is_full(self) -> Result<bool, Refusal>
        ensures { yes_no_of result ≡ is_full self }
    {
        Ok(zone::is_full(read_one(self)?))
    }

    // is_point reports whether the rectangle is a single point.
    // Laws: Singles.is-point-places.
    // Ruled out: of {0} by [0, 1]: yes; of {0} by {0}: no.
    pub fn is_point(self) -> Result<bool, Refusal>
        ensures { yes_no_of result ≡ is_point self }
    {
        Ok(zone::is_point(read_one(self)?))
    }

    // Returns true if lng.lo > lng.hi, i.e. the rectangle crosses the 180 degree longitude line. Of an
    // empty rectangle the answer is yes too, as the crate's is.
    // Laws: none of its own; Examples.empty-inverted.
    // Ruled out: of [0, 1] by [-1, 1]: yes; of an empty one: no (F10).
    pub fn is_inverted(self) -> Result<bool, Refusal>
        ensures { yes_no_of result ≡ is_inverted self }
    {
        Ok(zone::is_inverted(read_one(self)?))
    }

    // Returns the i-th vertex of the rectangle (i = 0,1,2,3) in counter-clockwise order (lower left,
    // lower right, upper right, upper left). For convenience, the argument is reduced modulo 4 to the
    // range [0..3].
    // Laws: Numbers.vertex-lower-left, Numbers.vertex-lower-right, Numbers.vertex-upper-right,
    // Numbers.vertex-upper-left; table.Table.vertex-255.
    // Ruled out: of [0, 1] by [2, 3]: vertex 2 (and `hi`) as 1 and 2, `lo` as 2 and 0; vertex 255
    // as vertex 0.
    pub fn vertex(self, i: u8) -> Result<LatLng, Refusal>
        ensures { point_of result ≡ vertex self i }
    {
        Ok(zone::vertex(read_one(self)?, i))
    }

    // The lower left vertex.
    // Does the work of Rect::vertex on operands that have been read.
    pub fn lo(self) -> Result<LatLng, Refusal>
        ensures { point_of result ≡ vertex self 0 }
    {
        self.vertex(0)
    }

    // The upper right vertex.
    // Does the work of Rect::vertex on operands that have been read.
    pub fn hi(self) -> Result<LatLng, Refusal>
        ensures { point_of result ≡ vertex self 2 }
    {
        self.vertex(2)
    }

    // Returns the center of the rectangle in latitude-longitude space. (In general this is not the
    // center of the region on the sphere.)
    // Laws: none of its own: the parts'; Zeros.center-plain.
    // Ruled out: of [0, 1] by [0, 2]: 1 and 0.5; of [0, 1] by [1, -1]: 0.5 and 0.
    pub fn center(self) -> Result<LatLng, Refusal>
        ensures { point_of result ≡ center self }
    {
        Ok(zone::center(read_one(self)?))
    }

    // Returns the width and height of the rectangle in latitude-longitude space. An empty rectangle has
    // a negative width and height.
    // Laws: none of its own: the parts'; Zeros.size-plain.
    // Ruled out: of the standard empty: 0 and 0 (it is -1 and -1); of [0, 1] by [1, -1]: 1 and -2.
    pub fn size(self) -> Result<LatLng, Refusal>
        ensures { point_of result ≡ size self }
    {
        Ok(zone::size(read_one(self)?))
    }

    // Returns a rectangle that has been expanded by margin.lat on each side in the latitude direction,
    // and by margin.lng on each side in the longitude direction. If either margin is negative, then it
    // shrinks the rectangle on the corresponding sides instead. The resulting rectangle may be empty.
    // The latitude is clamped to the poles.
    // Laws: Valid.expanded-valid (so the latitudes end at the poles).
    // Ruled out: of {0} by {0}, margins 2 and 4: latitudes [-2, 2]; margins -1 and 1: [1, -1] by
    // [-1, 1] (it is the standard empty).
    pub fn expanded(self, margin: LatLng) -> Result<Rect, Refusal>
        ensures { rectangle_of result ≡ expanded self margin }
    {
        let (r, m) = read_with_margins(self, margin)?;
        Ok(zone::expanded(r, m))
    }

    // If the rectangle does not include either pole, returns it unmodified. Otherwise expands the
    // longitude range to the full circle, so that the rectangle contains all possible representations
    // of the contained pole(s). An empty rectangle includes no pole, whatever its lat.lo.
    // Laws: Places.polar-closure-holds, Places.polar-closure-poles; Differences.empty-closure;
    // Valid.polar-closure-valid.
    // Ruled out: of [0, PI/2] by {0}: itself; of [-PI/2, -2] by EMPTY: longitudes FULL.
    pub fn polar_closure(self) -> Result<Rect, Refusal>
        ensures { rectangle_of result ≡ polar_closure self }
    {
        Ok(zone::polar_closure(read_one(self)?))
    }

    // Returns a rectangle containing the union of this rectangle and the given rectangle: the smallest
    // but where the circle's union is not (F16). Over places: union-holds, union-exact.
    // Laws: Places.union-holds, Places.union-exact; Valid.union-valid.
    // Ruled out: of [0, 0.5] by {0} and [1, 1.5] by {0}: the first; of [0, 1] by {0} and [0, 1] by
    // {PI}: [0, 1] by [PI, 0].
    pub fn union(self, other: Rect) -> Result<Rect, Refusal>
        ensures { rectangle_of result ≡ union self other }
    {
        let (r, o) = read_two(self, other)?;
        Ok(zone::union(r, o))
    }

    // Returns a rectangle containing the intersection of this rectangle and the given rectangle. Note
    // that the region of intersection may consist of two disjoint rectangles, in which case a single
    // rectangle spanning both of them is returned. Over places: intersection-holds, intersection-within.
    // Laws: Places.intersection-holds, Places.intersection-within; Valid.intersection-valid.
    // Ruled out: of [0, 1] by [-1, 1] and [0, 1] by [1, -1]: the standard empty; of [0, 0.5] by {0}
    // and [1, 1.5] by {0}: [1, 0.5] by {0}.
    pub fn intersection(self, other: Rect) -> Result<Rect, Refusal>
        ensures { rectangle_of result ≡ intersection self other }
    {
        let (r, o) = read_two(self, other)?;
        Ok(zone::intersection(r, o))
    }

    // Returns true if this rectangle and the given other rectangle have any points in common.
    // Laws: Places.intersects-places.
    // Ruled out: of [0, 1] by [-1, 1] and [0, 1] by [1, -1]: no; of [0, 0.5] by {0} and [1, 1.5] by
    // {0}: yes.
    pub fn intersects(self, other: Rect) -> Result<bool, Refusal>
        ensures { yes_no_of result ≡ intersects self other }
    {
        let (r, o) = read_two(self, other)?;
        Ok(zone::intersects(r, o))
    }

    // Returns true if and only if the interior of this rectangle intersects any point (including the
    // boundary) of the given other rectangle.
    // Laws: Interiors.interior-intersects-parts.
    // Ruled out: of [0, 1] by [0, 1] and [1, 1.5] by [0, 1]: yes; of [0, 1] by [0, 1] and itself:
    // no.
    pub fn interior_intersects(self, other: Rect) -> Result<bool, Refusal>
        ensures { yes_no_of result ≡ interior_intersects self other }
    {
        let (r, o) = read_two(self, other)?;
        Ok(zone::interior_intersects(r, o))
    }

    // contains reports whether this rectangle contains the other rectangle.
    // Laws: Places.contains-places.
    // Ruled out: of [0, 1] by [C00921FB54442D17, PI] and [0, 1] by FULL: yes; of [0, 1] by [0, 1]
    // and an empty one: no.
    pub fn contains(self, other: Rect) -> Result<bool, Refusal>
        ensures { yes_no_of result ≡ contains self other }
    {
        let (r, o) = read_two(self, other)?;
        Ok(zone::contains(r, o))
    }

    // Returns true if and only if the interior of this rectangle contains all points of the given other
    // rectangle (including its boundary).
    // Laws: Interiors.interior-contains-parts.
    // Ruled out: of the full one and [0, 1] by [0, 1]: no; of the full one and itself: yes (F10).
    pub fn interior_contains(self, other: Rect) -> Result<bool, Refusal>
        ensures { yes_no_of result ≡ interior_contains self other }
    {
        let (r, o) = read_two(self, other)?;
        Ok(zone::interior_contains(r, o))
    }

    // contains_latlng reports whether the given point is within the rectangle.
    // Laws: Places.contains-latlng-place.
    // Ruled out: of [0, 1] by [0, PI] and the point 1.5, 0: yes; and the point 0, -PI: no.
    pub fn contains_latlng(self, p: LatLng) -> Result<bool, Refusal>
        ensures { yes_no_of result ≡ contains_lat_lng self p }
    {
        let (r, q) = read_with_point(self, p)?;
        Ok(zone::contains_latlng(r, q))
    }

    // Returns true if and only if the given point is contained in the interior of the region (i.e. the
    // region excluding its boundary).
    // A point that is no valid latlng is refused with 3, though the crate does not test it.
    // Laws: Interiors.interior-contains-latlng-parts.
    // Ruled out: of [0, 1] by [0, 1] and the point 0, 0.5: yes; of the full one and the point 0,
    // PI: no.
    pub fn interior_contains_latlng(self, p: LatLng) -> Result<bool, Refusal>
        ensures { yes_no_of result ≡ interior_contains_lat_lng self p }
    {
        let (r, q) = read_with_point(self, p)?;
        Ok(zone::interior_contains_latlng(r, q))
    }

    // Returns the rectangle expanded so that it contains the given point. A bad point is refused.
    // Laws: Places.add_holds, Places.add-refused; Numbers.add-edges; Valid.add-valid;
    // Differences.add-start-refused.
    // Ruled out: of [0, 1] by [0, 1] and the point 0, 2: the start; of the standard empty and the
    // point 0, -PI: {0} by [-PI, -PI].
    pub fn add(self, p: LatLng) -> Result<Rect, Refusal>
        ensures { grown_of self result ≡ add self p }
    {
        let start = read_one(self)?;
        Ok(zone::add(start, read_point(p)?))
    }

    // Returns true iff the rectangle contains the same points as other. (No `PartialEq`: operands are refused.)
    // Laws: Places.equal-places.
    // Ruled out: of the standard empty and [0, -1] by EMPTY: no; of the full one and [-PI/2, PI/2]
    // by [C00921FB54442D17, PI]: yes.
    pub fn eq(self, other: Rect) -> Result<bool, Refusal>
        ensures { yes_no_of result ≡ eq self other }
    {
        let (r, o) = read_two(self, other)?;
        Ok(zone::eq(r, o))
    }

    // Returns true if the latitude and longitude intervals of the two rectangles are the same up to
    // the given tolerance (see the approx_eq of both interval kinds).
    // Laws: none of its own.
    // Ruled out: of {0} by {0} and {0} by {1}: yes; of [0, 1] by {PI} and [0, 1] by
    // {C00921FB54442D16}: yes (F9).
    pub fn approx_eq(self, other: Rect) -> Result<bool, Refusal>
        ensures { yes_no_of result ≡ approx_eq self other }
    {
        let (r, o) = read_two(self, other)?;
        let most = LatLng {
            lat: EPSILON,
            lng: EPSILON,
        };
        Ok(zone::approx_eq_by(r, o, most))
    }

    // The same with the tolerances for latitude and longitude given.
    // Laws: none of its own.
    // Ruled out: of {0} by {0} and {1} by {0}, errors 1 and 0: no; errors 0 and 1: yes.
    pub fn approx_eq_by(self, other: Rect, max_error: LatLng) -> Result<bool, Refusal>
        ensures { yes_no_of result ≡ approx_eq_by self other max_error }
    {
        let (r, o) = read_two(self, other)?;
        Ok(zone::approx_eq_by(r, o, read_margins(max_error)?))
    }
}
