// Copyright 2014 Google Inc. All rights reserved.
// Copyright 2017 Jihyun Yu. All rights reserved.
//
// Licensed under the Apache License, Version 2.0 (the "License");
// you may not use this file except in compliance with the License.
// You may obtain a copy of the License at
//
//     http://www.apache.org/licenses/LICENSE-2.0
//
// Unless required by applicable law or agreed to in writing, software
// distributed under the License is distributed on an "AS IS" BASIS,
// WITHOUT WARRANTIES OR CONDITIONS OF ANY KIND, either express or implied.
// See the License for the specific language governing permissions and
// limitations under the License.
//
// The circle interval. Every operation reads its operands (reading.rt) and answers a `Result`; what document 01
// states beside a refusal is in `Answer`, which C is handed. What an operation does with operands that have been
// read is in circle.rt. The theorems that a comment names are in proofs/Promises.antt.
// ported from src/s1/interval.rs of s2 0.2.0, changed: by value, with refusals; no printing, no serde.
ghost use Rattle.std.specs.Prelude.{◌≡◌};
ghost use Rattle.consts.specs.Answer.{yes_no_of, number_of};
ghost use Rattle.s1.specs.Answers.{is_valid, is_full, is_empty, is_inverted, fast_contains, contains, contains_interval, interior_contains, interior_contains_interval, intersects, interior_intersects, approx_eq, approx_eq_by, eq};
ghost use Rattle.s1.specs.Answers.{interval_of, grown_of, line_of, «new», from_line, to_line, positive_distance, from_point_pair, invert, center, len};
ghost use Rattle.s1.specs.Answers.{union, intersection, expanded, complement, complement_center, directed_hausdorff_distance, add};

use crate::circle;
use crate::reading::{read_ends, read_one, read_point};
use consts::{EPSILON, NEG_PI, PI, Refusal, read_margin, zero_read};
use r1::interval::Interval as Line;

// Interval represents a closed interval on a unit circle. Zero-length intervals (where lo == hi)
// represent single points. If lo > hi then the interval is "inverted". The point at (-1, 0) on the
// unit circle has two valid representations, [π,π] and [-π,-π]. We normalize the latter to the former
// in Interval::new. There are two special intervals that take advantage of that:
//   - the full interval, [-π,π], and
//   - the empty interval, [π,-π].
#[repr(C)]
#[derive(Clone, Copy)]
pub struct Interval {
    pub lo: f64,
    pub hi: f64,
}

// An interval as an answer, as C has it. A refused one is the empty interval, or what growth was
// handed. (Not generic: see r1.)
#[repr(C)]
#[derive(Clone, Copy)]
pub struct Answer {
    pub refusal: u8,
    pub value: Interval,
}

// Laws: none of its own.
// Ruled out: of [0, 1]: [0, 1] under 1; of a refusal with 22: FULL under 22.
impl From<Result<Interval, Refusal>> for Answer {
    ghost from_gives = { λ r y. y ≡ interval_of r };

    fn from(r: Result<Interval, Refusal>) -> Answer {
        match r {
            Ok(value) => Answer { refusal: 0, value },
            Err(why) => {
                let value = Interval::EMPTY;
                Answer {
                    refusal: why.into(),
                    value,
                }
            }
        }
    }
}

impl Answer {
    // What growth of the interval i by a point answers C: a bad point changes nothing, and the interval comes back as it was
    // handed in.
    // Laws: none of its own.
    // Ruled out: of [0, 1] and a refusal with 3: EMPTY under 3; of [0, 1] and a refusal with 22: [0, 1] under 22 (it is
    // EMPTY).
    pub fn grown(i: Interval, r: Result<Interval, Refusal>) -> Answer
        ensures { result ≡ grown_of i r }
    {
        match r {
            Err(Refusal::BadPoint) => Answer {
                refusal: Refusal::BadPoint.into(),
                value: i,
            },
            _ => Answer::from(r),
        }
    }
}

#[tactic(auto, using(consts::proofs::Codes::code_refuses, crate::proofs::Readings::no_bad_point), unfolding(crate::specs::Answers::new, crate::specs::Answers::from_line, crate::specs::Answers::to_line, crate::specs::Answers::positive_distance, crate::specs::Answers::from_point_pair, crate::specs::Answers::is_valid, crate::specs::Answers::is_full, crate::specs::Answers::is_empty, crate::specs::Answers::is_inverted, crate::specs::Answers::invert, crate::specs::Answers::center, crate::specs::Answers::len, crate::specs::Answers::fast_contains, crate::specs::Answers::contains, crate::specs::Answers::contains_interval, crate::specs::Answers::interior_contains, crate::specs::Answers::interior_contains_interval, crate::specs::Answers::intersects, crate::specs::Answers::interior_intersects, crate::specs::Answers::union, crate::specs::Answers::intersection, crate::specs::Answers::expanded, crate::specs::Answers::complement, crate::specs::Answers::complement_center, crate::specs::Answers::directed_hausdorff_distance, crate::specs::Answers::approx_eq, crate::specs::Answers::approx_eq_by, crate::specs::Answers::add, crate::specs::Answers::eq, crate::specs::Reading::read_two, crate::specs::Reading::read_with_point, crate::specs::Reading::read_with_margin, consts::specs::Refusal::first_refusal))]
impl Interval {
    // a full interval.
    pub const FULL: Interval = Interval { lo: NEG_PI, hi: PI };

    // an empty interval.
    pub const EMPTY: Interval = Interval { lo: PI, hi: NEG_PI };

    // Constructs a new interval from endpoints. Both arguments must be in the range [-π,π]. This
    // function allows inverted intervals to be created. An end -π is written π, but in the full and
    // the empty interval.
    // Laws: Seams.new-valid, Seams.new-stays.
    // Ruled out: of -PI and 1: [-PI, 1], which is not valid; of PI and -PI: {PI}.
    pub fn new(lo: f64, hi: f64) -> Result<Interval, Refusal>
        ensures { interval_of result ≡ «new» lo hi }
    {
        let i = read_ends(lo, hi)?;
        Ok(circle::new(i.lo, i.hi))
    }

    // The circle interval with the ends of a line interval, which are not normalised: refused where
    // that is not valid.
    // [-PI, 1] is refused with 22, where new would write its western end as PI.
    // Laws: Seams.from-line-is.
    // Ruled out: of [0, 1]: EMPTY; of [-PI, 1]: [PI, 1], accepted.
    pub fn from_line(i: Line) -> Result<Interval, Refusal>
        ensures { interval_of result ≡ from_line i }
    {
        read_one(Interval { lo: i.lo, hi: i.hi })
    }

    // The line interval with the same ends: of an inverted interval an empty one.
    // Laws: Seams.to-line-is.
    // Ruled out: of [0, 1]: [1, 0]; of [1, -1]: [-1, 1].
    pub fn to_line(self) -> Result<Line, Refusal>
        ensures { line_of result ≡ to_line self }
    {
        let i = read_one(self)?;
        Ok(Line { lo: i.lo, hi: i.hi })
    }

    // Compute distance from a to b in [0,2π], in a numerically stable way.
    // Private in the crate; here it can be asked, of two points of the circle.
    // Laws: none of its own but bounds: Measures.distance-bounds.
    // Ruled out: from 1 to 0: 1, which is westward; from 0 to 1: -1.
    pub fn positive_distance(a: f64, b: f64) -> Result<f64, Refusal>
        ensures { number_of result ≡ positive_distance a b }
    {
        let x = read_point(a)?;
        let y = read_point(b)?;
        Ok(zero_read(circle::positive_distance(x, y)))
    }

    // from_point_pair returns an interval containing the two given points: eastward from a to b where
    // the rounded distance is at most π, and otherwise from b to a. So it is the minimal one but where
    // rounding hides which way is the shorter (F16). Both arguments must be in [-π,π].
    // Laws: Places.from-point-pair-holds, Places.from-point-pair-valid.
    // Ruled out: of 3 and -3: [-3, 3]; of 0 and PI: [PI, 0].
    pub fn from_point_pair(a: f64, b: f64) -> Result<Interval, Refusal>
        ensures { interval_of result ≡ from_point_pair a b }
    {
        let x = read_point(a)?;
        Ok(circle::from_point_pair(x, read_point(b)?))
    }

    // is_valid reports whether the interval is valid. One that is not is refused, with no beside the
    // number.
    // Laws: Places.is-valid-says.
    // Ruled out: of [-PI, 0]: yes; of FULL: no.
    pub fn is_valid(self) -> Result<bool, Refusal>
        ensures { yes_no_of result ≡ is_valid self }
    {
        read_one(self)?;
        Ok(true)
    }

    // is_full reports whether the interval is full. Over places: empty-or-full-exactly.
    // Laws: Places.is-full-places.
    // Ruled out: of [C00921FB54442D17, PI]: yes; of FULL: no.
    pub fn is_full(self) -> Result<bool, Refusal>
        ensures { yes_no_of result ≡ is_full self }
    {
        Ok(circle::is_full(read_one(self)?))
    }

    // is_empty reports whether the interval is empty. Over places: empty-or-full-exactly.
    // Laws: Places.is-empty-places.
    // Ruled out: of [1, -1]: yes; of EMPTY: no.
    pub fn is_empty(self) -> Result<bool, Refusal>
        ensures { yes_no_of result ≡ is_empty self }
    {
        Ok(circle::is_empty(read_one(self)?))
    }

    // is_inverted reports whether the interval is inverted; that is, whether lo > hi.
    // Laws: none of its own.
    // Ruled out: of [1, -1]: no; of [-1, 1]: yes.
    pub fn is_inverted(self) -> Result<bool, Refusal>
        ensures { yes_no_of result ≡ is_inverted self }
    {
        Ok(circle::is_inverted(read_one(self)?))
    }

    // invert returns the interval with endpoints swapped.
    // Laws: Seams.invert-is, Seams.invert-valid.
    // Ruled out: of [0, 1]: [0, 1]; of FULL: FULL (it is EMPTY).
    pub fn invert(self) -> Result<Interval, Refusal>
        ensures { interval_of result ≡ invert self }
    {
        Ok(circle::invert(read_one(self)?))
    }

    // center returns the midpoint of the interval.
    // It is undefined for full and empty intervals: the port answers what the crate does.
    // Laws: none of its own but bounds: Measures.center-bounds.
    // Ruled out: of [1, -1]: 0, which it does not hold; of [000012688B70E62B, 0]: PI (it is -PI,
    // F4).
    pub fn center(self) -> Result<f64, Refusal>
        ensures { number_of result ≡ center self }
    {
        Ok(circle::center(read_one(self)?))
    }

    // len returns the length of the interval.
    // The length of an empty interval is negative.
    // Laws: none of its own but bounds: Measures.len-bounds.
    // Ruled out: of EMPTY: 0 (it is -1); of [1, -1]: -2.
    pub fn len(self) -> Result<f64, Refusal>
        ensures { number_of result ≡ len self }
    {
        Ok(zero_read(circle::len(read_one(self)?)))
    }

    // fast_contains returns true iff the interval contains p.
    // Assumes p ∈ (-π,π]: at -π it answers as the crate does.
    // That is no for [x, PI] with x above -PI, although the place PI is held: contains is the test
    // of places.
    // Laws: Places.fast-contains-place.
    // Ruled out: of [1, -1] and 0: yes; of [0, PI] and -PI: yes (F7).
    pub fn fast_contains(self, p: f64) -> Result<bool, Refusal>
        ensures { yes_no_of result ≡ fast_contains self p }
    {
        let i = read_one(self)?;
        Ok(circle::fast_contains(i, read_point(p)?))
    }

    // contains returns true iff the interval contains p.
    // Assumes p ∈ [-π,π]. Over places: contains-exactly.
    // Laws: Places.contains-place.
    // Ruled out: of [1, -1] and 0: yes; of [0, PI] and -PI: no.
    pub fn contains(self, p: f64) -> Result<bool, Refusal>
        ensures { yes_no_of result ≡ contains self p }
    {
        let i = read_one(self)?;
        Ok(circle::contains(i, read_point(p)?))
    }

    // contains_interval returns true iff the interval contains other. Over places:
    // contains-interval-exactly.
    // Laws: Places.contains-interval-places.
    // Ruled out: of [C00921FB54442D17, PI] and FULL: yes; of [1, -1] and [2, -2]: no.
    pub fn contains_interval(self, other: Interval) -> Result<bool, Refusal>
        ensures { yes_no_of result ≡ contains_interval self other }
    {
        Ok(circle::contains_interval(read_one(self)?, read_one(other)?))
    }

    // interior_contains returns true iff the interior of the interval contains p.
    // Assumes p ∈ [-π,π]. Over places: interior-contains-exactly.
    // Laws: Places.interior-contains-place.
    // Ruled out: of [0, 1] and 1: yes; of FULL and PI: no.
    pub fn interior_contains(self, p: f64) -> Result<bool, Refusal>
        ensures { yes_no_of result ≡ interior_contains self p }
    {
        let i = read_one(self)?;
        Ok(circle::interior_contains(i, read_point(p)?))
    }

    // interior_contains_interval returns true iff the interior of the interval contains other. Over
    // places: interior-contains-interval-exactly.
    // Laws: Places.interior-contains-interval-places.
    // Ruled out: of [0, 2] and [0, 1]: yes; of FULL and FULL: no.
    pub fn interior_contains_interval(self, other: Interval) -> Result<bool, Refusal>
        ensures { yes_no_of result ≡ interior_contains_interval self other }
    {
        Ok(circle::interior_contains_interval(read_one(self)?, read_one(other)?))
    }

    // intersects returns true iff the interval contains any points in common with other. Over places:
    // intersects-exactly.
    // Laws: Places.intersects-places.
    // Ruled out: of [-1, 1] and [1, -1]: no; of [0, 1] and EMPTY: yes.
    pub fn intersects(self, other: Interval) -> Result<bool, Refusal>
        ensures { yes_no_of result ≡ intersects self other }
    {
        Ok(circle::intersects(read_one(self)?, read_one(other)?))
    }

    // interior_intersects returns true iff the interior of the interval contains any points in
    // common with other, including the latter's boundary. Over places: interior-intersects-exactly.
    // Laws: Places.interior-intersects-places.
    // Ruled out: of [0, 1] and [1, 2]: yes; of {0} and {0}: yes.
    pub fn interior_intersects(self, other: Interval) -> Result<bool, Refusal>
        ensures { yes_no_of result ≡ interior_intersects self other }
    {
        Ok(circle::interior_intersects(read_one(self)?, read_one(other)?))
    }

    // union returns an interval that contains both the interval and other. Of two gaps it closes the
    // one that is no longer by the rounded distance, so it is the smallest one but where both round
    // alike (F16). Over places: union-exactly.
    // Laws: Places.union-holds, Places.union-only, Places.union-valid.
    // Ruled out: of [-1, 1] and [1, -1]: [-1, 1]; of {0} and {PI}: [PI, 0].
    pub fn union(self, other: Interval) -> Result<Interval, Refusal>
        ensures { interval_of result ≡ union self other }
    {
        Ok(circle::union(read_one(self)?, read_one(other)?))
    }

    // intersection returns an interval that contains the intersection of the interval and other. It is
    // a cover and not the common part: two wide intervals can meet at both ends, and of these the one
    // that is shorter by `len` is returned. Over places: intersection-exactly.
    // Laws: Places.intersection-holds, Places.intersection-within, Places.intersection-valid.
    // Ruled out: of [-1, 1] and [1, -1]: {1}, which lacks the common place -1; of [0, 2] and [1,
    // 3]: [0, 2].
    pub fn intersection(self, other: Interval) -> Result<Interval, Refusal>
        ensures { interval_of result ≡ intersection self other }
    {
        Ok(circle::intersection(read_one(self)?, read_one(other)?))
    }

    // expanded returns an interval that has been expanded on each side by margin.
    // If margin is negative, then the function shrinks the interval on each side by margin
    // instead. The resulting interval may be empty or full. Any expansion (positive or negative)
    // of a full interval remains full, and any expansion of an empty interval remains empty.
    // Laws: Expansions.expanded-ieee, Expansions.expanded-valid.
    // Ruled out: of {0} by 1: [0, 1]; of [0, 1] by -1: [1, 0], nearly full (it is EMPTY).
    pub fn expanded(self, margin: f64) -> Result<Interval, Refusal>
        ensures { interval_of result ≡ expanded self margin }
    {
        let i = read_one(self)?;
        Ok(circle::expanded(i, read_margin(margin)?))
    }

    // complement returns the complement of the interior of the interval. An interval and its
    // complement have the same boundary but do not share any interior values. The complement
    // operator is not a bijection, since the complement of a singleton interval (containing a
    // single value) is the same as the complement of an empty interval. Over places: complement-exactly.
    // Laws: Places.complement-places, Places.complement-valid.
    // Ruled out: of [0, 1]: [0, 1]; of {0}: {0} (it is FULL).
    pub fn complement(self) -> Result<Interval, Refusal>
        ensures { interval_of result ≡ complement self }
    {
        Ok(circle::complement(read_one(self)?))
    }

    // complement_center returns the midpoint of the complement of the interval. For full and empty
    // intervals, the result is arbitrary. For a singleton interval (containing a single point), the
    // result is its antipodal point on S1.
    // Laws: none of its own; Ends.complement-center-plain.
    // Ruled out: of [-1, 1]: 0; of {0}: 0 (it is PI).
    pub fn complement_center(self) -> Result<f64, Refusal>
        ensures { number_of result ≡ complement_center self }
    {
        Ok(circle::complement_center(read_one(self)?))
    }

    // directed_hausdorff_distance returns the Hausdorff distance to the given interval. For two
    // intervals i and y, this distance is defined by h(i, y) = max_{p in i} min_{q in y} d(p, q),
    // where d(.,.) is measured along S1.
    // Of EMPTY to EMPTY it is 0: contained is tested first, as printed.
    // Laws: none of its own; Ends.hausdorff-plain.
    // Ruled out: of [0, 1] to EMPTY: 0 (it is PI); of [0, 1] to [0, 2]: 1.
    pub fn directed_hausdorff_distance(self, other: Interval) -> Result<f64, Refusal>
        ensures { number_of result ≡ directed_hausdorff_distance self other }
    {
        let i = read_one(self)?;
        Ok(circle::directed_hausdorff_distance(i, read_one(other)?))
    }

    // approx_eq reports whether this interval can be transformed into the given interval by moving
    // each endpoint by at most ε, without the endpoints crossing (which would invert the interval).
    // Empty and full intervals are considered to start at an arbitrary point on the unit circle.
    // Laws: none of its own.
    // Ruled out: of {0} and {1}: yes; of {PI} and {C00921FB54442D16}: yes (F9).
    pub fn approx_eq(self, other: Interval) -> Result<bool, Refusal>
        ensures { yes_no_of result ≡ approx_eq self other }
    {
        Ok(circle::approx_eq_by(read_one(self)?, read_one(other)?, EPSILON))
    }

    // The same with the distance given.
    // Laws: none of its own.
    // Ruled out: of FULL and [-3, 3] with the error 0.5: no; of EMPTY and [0, 1] with 0.5: yes
    // (F9).
    pub fn approx_eq_by(self, other: Interval, max_error: f64) -> Result<bool, Refusal>
        ensures { yes_no_of result ≡ approx_eq_by self other max_error }
    {
        let i = read_one(self)?;
        let o = read_one(other)?;
        let e = read_margin(max_error)?;
        Ok(circle::approx_eq_by(i, o, e))
    }

    // add returns the interval expanded such that it contains the given point "p" (an angle in the
    // range [-Pi, Pi]), to the side that is nearer by the rounded distance (F16). A bad point is refused.
    // Laws: Places.add_holds, Places.add-valid, Refusals.add-refused; Ends.add-ends.
    // Ruled out: of [0, 1] and 2: [2, 1]; of EMPTY and -PI: [-PI, -PI].
    pub fn add(self, p: f64) -> Result<Interval, Refusal>
        ensures { grown_of self result ≡ add self p }
    {
        let i = read_one(self)?;
        Ok(circle::add(i, read_point(p)?))
    }

    // Returns true iff the interval contains the same points as other. Over places: equal-exactly. (No `PartialEq`:
    // operands are refused.)
    // Laws: Places.equal-places, Places.equal-numbers.
    // Ruled out: of FULL and [C00921FB54442D17, PI]: yes; of [0, 1] and itself: no.
    pub fn eq(self, other: Interval) -> Result<bool, Refusal>
        ensures { yes_no_of result ≡ eq self other }
    {
        Ok(circle::eq(read_one(self)?, read_one(other)?))
    }
}
