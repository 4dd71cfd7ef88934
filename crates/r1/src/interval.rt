// Copyright 2014 Google Inc. All rights reserved.
// Copyright 2017 Jihyun Yu. All rights reserved.
//
// Licensed under the Apache License, Version 2.0 (the "License");
// you may not use this file except in compliance with the License.
// You may obtain a copy of the License at
//
//     http://www.apache.org/licenses/LICENSE-2.0
//
// Unless required by applicable law or agreed to in writing, software
// distributed under the License is distributed on an "AS IS" BASIS,
// WITHOUT WARRANTIES OR CONDITIONS OF ANY KIND, either express or implied.
// See the License for the specific language governing permissions and
// limitations under the License.
//
// The line interval. Every operation reads its operands (reading.rt) and answers a `Result`; what document 01
// states beside a refusal is in `Answer`, which C is handed. What an operation does with operands that have been
// read is in line.rt.
// ported from src/r1/interval.rs of s2 0.2.0, changed: by value, with refusals; no printing, no serde.
ghost use Rattle.std.specs.Prelude.{◌≡◌};
ghost use Rattle.consts.specs.Answer.{yes_no_of, number_of};
ghost use Rattle.r1.specs.Answers.{interval_of, grown_of, distance_answer_of, «new», from_point, from_point_pair, is_empty, center, len, contains};
ghost use Rattle.r1.specs.Answers.{contains_interval, interior_contains, interior_contains_interval, intersects, interior_intersects, intersection};
ghost use Rattle.r1.specs.Answers.{clamp_point, expanded, union, approx_eq, approx_eq_by, IsHausdorff, add, eq};

use crate::line;
use crate::reading::{read_one, read_point};
use consts::{EPSILON, Refusal, read_margin};

// Interval represents a closed interval on the real line. Zero-length intervals (where lo == hi)
// represent single points. If lo > hi then the interval is empty.
#[repr(C)]
#[derive(Clone, Copy)]
pub struct Interval {
    // lower bound of the interval
    pub lo: f64,
    // upper bound of the interval
    pub hi: f64,
}

// An interval as an answer, as C has it. A refused one is the standard empty, or what growth was
// handed. (A generic struct would do for every layer, but an export may not hand one out.)
#[repr(C)]
#[derive(Clone, Copy)]
pub struct Answer {
    pub refusal: u8,
    pub value: Interval,
}

// The directed Hausdorff distance: a number, or Unbounded where the crate has infinity. (An `Option` would say
// that there is no distance.)
#[derive(Clone, Copy)]
pub enum Distance {
    Of(f64),
    Unbounded,
}

// Laws: none of its own.
// Ruled out: of [0, 1]: [0, 1] under 1; of a refusal with 3: [0, 0] under 3.
impl From<Result<Interval, Refusal>> for Answer {
    ghost from_gives = { λ r y. y ≡ interval_of r };

    fn from(r: Result<Interval, Refusal>) -> Answer {
        match r {
            Ok(value) => Answer { refusal: 0, value },
            Err(why) => {
                let value = Interval::EMPTY;
                Answer {
                    refusal: why.into(),
                    value,
                }
            }
        }
    }
}

impl Answer {
    // What growth of the interval i by a point answers C: a bad point changes nothing, and the interval comes back as it was
    // handed in.
    // Laws: none of its own.
    // Ruled out: of [-0, 1] and a refusal with 3: [0, 1] under 3; of [0, 1] and a refusal with 1: [0, 1] under 1 (it is
    // the standard empty).
    pub fn grown(i: Interval, r: Result<Interval, Refusal>) -> Answer
        ensures { result ≡ grown_of i r }
    {
        match r {
            Err(Refusal::BadPoint) => Answer {
                refusal: Refusal::BadPoint.into(),
                value: i,
            },
            _ => Answer::from(r),
        }
    }
}

#[tactic(auto, using(consts::proofs::Codes::code_refuses, crate::proofs::Readings::no_bad_point), unfolding(crate::specs::Answers::is_empty, crate::specs::Answers::center, crate::specs::Answers::len, crate::specs::Answers::contains, crate::specs::Answers::contains_interval, crate::specs::Answers::interior_contains, crate::specs::Answers::interior_contains_interval, crate::specs::Answers::intersects, crate::specs::Answers::interior_intersects, crate::specs::Answers::intersection, crate::specs::Answers::clamp_point, crate::specs::Answers::expanded, crate::specs::Answers::union, crate::specs::Answers::approx_eq, crate::specs::Answers::approx_eq_by, crate::specs::Answers::directed_hausdorff_distance, crate::specs::Answers::add, crate::specs::Answers::eq, crate::specs::Answers::new, crate::specs::Answers::from_point, crate::specs::Answers::from_point_pair, crate::specs::Reading::read_two, crate::specs::Reading::read_with, consts::specs::Refusal::first_refusal))]
impl Interval {
    // An empty interval.
    pub const EMPTY: Interval = Interval { lo: 1.0, hi: 0.0 };

    // The interval from lo to hi.
    // Laws: none of its own.
    // Ruled out: of 2 and 1: [1, 2]; of 2 and 1: [1, 0], the standard empty.
    pub fn new(lo: f64, hi: f64) -> Result<Interval, Refusal>
        ensures { interval_of result ≡ «new» lo hi }
    {
        read_one(Interval { lo, hi })
    }

    // from_point returns an interval representing a single point.
    // Laws: none of its own.
    // Ruled out: of 1: [0, 1]; of -0: [-0, -0].
    pub fn from_point(p: f64) -> Result<Interval, Refusal>
        ensures { interval_of result ≡ from_point p }
    {
        let x = read_point(p)?;
        Ok(Interval { lo: x, hi: x })
    }

    // Convenience method to construct the minimal interval containing the two given points.
    // Laws: Places.from-point-pair-holds; Ends.from-point-pair-reach.
    // Ruled out: of 2 and 1: [2, 1], which is empty; of 2 and 1: {2}.
    pub fn from_point_pair(p1: f64, p2: f64) -> Result<Interval, Refusal>
        ensures { interval_of result ≡ from_point_pair p1 p2 }
    {
        let x = read_point(p1)?;
        Ok(line::from_point_pair(x, read_point(p2)?))
    }

    // is_empty reports whether the interval is empty.
    // Laws: Places.is-empty-places.
    // Ruled out: of {0}: yes; of [2, 1]: no.
    pub fn is_empty(self) -> Result<bool, Refusal>
        ensures { yes_no_of result ≡ is_empty self }
    {
        Ok(line::is_empty(read_one(self)?))
    }

    // center returns the midpoint of the interval.
    // It is undefined for empty intervals: the port answers what the crate does.
    // Laws: none of its own.
    // Ruled out: of [0, 1]: 0; of [8000000000000001, 0]: -0.
    pub fn center(self) -> Result<f64, Refusal>
        ensures { number_of result ≡ center self }
    {
        Ok(line::center(read_one(self)?))
    }

    // len returns the length of the interval.
    // The length of an empty interval is negative.
    // Laws: none of its own.
    // Ruled out: of [0, 3]: 4; of [1, 0], which is empty: 0 (it is -1).
    pub fn len(self) -> Result<f64, Refusal>
        ensures { number_of result ≡ len self }
    {
        Ok(line::len(read_one(self)?))
    }

    // contains returns true iff the interval contains p.
    // Laws: Places.contains-place.
    // Ruled out: of [0, 1] and 1: no; of [0, 1] and 2: yes.
    pub fn contains(self, p: f64) -> Result<bool, Refusal>
        ensures { yes_no_of result ≡ contains self p }
    {
        let i = read_one(self)?;
        Ok(line::contains(i, read_point(p)?))
    }

    // contains_interval returns true iff the interval contains oi.
    // Laws: Places.contains-interval-places.
    // Ruled out: of [0, 1] and the empty [2, 1]: no; of [0, 1] and [0, 2]: yes.
    pub fn contains_interval(self, oi: Interval) -> Result<bool, Refusal>
        ensures { yes_no_of result ≡ contains_interval self oi }
    {
        Ok(line::contains_interval(read_one(self)?, read_one(oi)?))
    }

    // interior_contains returns true iff the interval strictly contains p.
    // Laws: Places.interior-contains-place.
    // Ruled out: of [0, 1] and 1: yes; of [0, 1] and 0.5: no.
    pub fn interior_contains(self, p: f64) -> Result<bool, Refusal>
        ensures { yes_no_of result ≡ interior_contains self p }
    {
        let i = read_one(self)?;
        Ok(line::interior_contains(i, read_point(p)?))
    }

    // interior_contains_interval returns true iff the interval strictly contains oi.
    // Laws: Places.interior-contains-interval-places.
    // Ruled out: of [0, 2] and [0, 1]: yes; of [0, 2] and the empty [2, 1]: no.
    pub fn interior_contains_interval(self, oi: Interval) -> Result<bool, Refusal>
        ensures { yes_no_of result ≡ interior_contains_interval self oi }
    {
        Ok(line::interior_contains_interval(read_one(self)?, read_one(oi)?))
    }

    // intersects returns true iff the interval contains any points in common with oi.
    // Laws: Places.intersects-places.
    // Ruled out: of [0, 1] and [1, 2]: no; of [0, 3] and the empty [2, 1]: yes.
    pub fn intersects(self, oi: Interval) -> Result<bool, Refusal>
        ensures { yes_no_of result ≡ intersects self oi }
    {
        Ok(line::intersects(read_one(self)?, read_one(oi)?))
    }

    // interior_intersects returns true iff the interior of the interval contains any points in
    // common with oi, including the latter's boundary.
    // Laws: one way only (F13): Places.interior-intersects-meets.
    // Ruled out: of [0, 1] and [1, 2]: yes; of [0, 0000000000000001] and itself: no.
    pub fn interior_intersects(self, oi: Interval) -> Result<bool, Refusal>
        ensures { yes_no_of result ≡ interior_intersects self oi }
    {
        Ok(line::interior_intersects(read_one(self)?, read_one(oi)?))
    }

    // intersection returns the interval containing all points common to both.
    // Laws: Places.intersection-places; Ends.intersection-reach.
    // Ruled out: of [0, 2] and [1, 3]: [0, 3]; of [0, 1] and [2, 3]: [0, 1].
    pub fn intersection(self, other: Interval) -> Result<Interval, Refusal>
        ensures { interval_of result ≡ intersection self other }
    {
        Ok(line::intersection(read_one(self)?, read_one(other)?))
    }

    // clamp_point returns the closest point in the interval to the given point p.
    // The crate asks for a non-empty interval; of an empty one the answer is its lo.
    // Laws: Places.clamp-point-nearest.
    // Ruled out: of [0, 1] and 2: 2; of [0, 1] and 2: 0.
    pub fn clamp_point(self, p: f64) -> Result<f64, Refusal>
        ensures { number_of result ≡ clamp_point self p }
    {
        let i = read_one(self)?;
        Ok(line::clamp_point(i, read_point(p)?))
    }

    // expanded returns an interval that has been expanded on each side by margin.
    // If margin is negative, then the function shrinks the interval on each side by margin
    // instead. The resulting interval may be empty. Any expansion of an empty interval remains
    // empty.
    // A refused one is the standard empty and not the operand: only growth hands back what it was
    // handed.
    // Laws: none of its own.
    // Ruled out: of [0, 1] by 1: [0, 2]; of the empty [1, 0] by 1: [0, 1].
    pub fn expanded(self, margin: f64) -> Result<Interval, Refusal>
        ensures { interval_of result ≡ expanded self margin }
    {
        let i = read_one(self)?;
        Ok(line::expanded(i, read_margin(margin)?))
    }

    // union returns the smallest interval that contains this interval and the given interval.
    // Laws: Places.union-holds; Ends.union-reach.
    // Ruled out: of [0, 1] and [2, 3]: [0, 1]; of the empty [1, 0] and [2, 3]: [1, 3].
    pub fn union(self, other: Interval) -> Result<Interval, Refusal>
        ensures { interval_of result ≡ union self other }
    {
        Ok(line::union(read_one(self)?, read_one(other)?))
    }

    // approx_eq reports whether the interval can be transformed into the given interval by moving
    // each endpoint a small distance. The empty interval is considered to be positioned
    // arbitrarily on the real line, so any interval with a small enough length will match the
    // empty interval.
    // Laws: none of its own.
    // Ruled out: of {0} and {1}: yes; of {0} and {3CF6849B86A12B9B}, 5e-15: no.
    pub fn approx_eq(self, other: Interval) -> Result<bool, Refusal>
        ensures { yes_no_of result ≡ approx_eq self other }
    {
        Ok(line::approx_eq_by(read_one(self)?, read_one(other)?, EPSILON))
    }

    // The same with the distance given.
    // Laws: none of its own.
    // Ruled out: of {0} and {1} with the error 1: no; of the empty [1, 0] and [0, 1] with 0.5: yes
    // (F9).
    pub fn approx_eq_by(self, other: Interval, max_error: f64) -> Result<bool, Refusal>
        ensures { yes_no_of result ≡ approx_eq_by self other max_error }
    {
        let i = read_one(self)?;
        let o = read_one(other)?;
        let e = read_margin(max_error)?;
        Ok(line::approx_eq_by(i, o, e))
    }

    // Returns the Hausdorff distance to the given interval. For two intervals x and y, this distance
    // is defined as h(x, y) = max_{p in x} min_{q in y} d(p, q).
    // A refused one is a distance of 0.
    // Laws: Distances.hausdorff-is, Distances.distance_is, Distances.one-hausdorff.
    // Ruled out: of [0, 1] to the empty [1, 0]: a distance, infinity or any other; of [0, 3] to [0,
    // 1]: 0.
    pub fn directed_hausdorff_distance(self, other: Interval) -> Result<Distance, Refusal>
        ensures { IsHausdorff self other (distance_answer_of result) }
    {
        Ok(line::directed_hausdorff_distance(read_one(self)?, read_one(other)?))
    }

    // Returns the interval expanded so that it contains the given point. A bad point is refused.
    // Laws: Places.add_holds; Ends.add-ends.
    // Ruled out: of [0, 1] and 3: [0, 1]; of the empty [1, 0] and 3: [1, 3].
    pub fn add(self, p: f64) -> Result<Interval, Refusal>
        ensures { grown_of self result ≡ add self p }
    {
        let i = read_one(self)?;
        Ok(line::add(i, read_point(p)?))
    }

    // Returns true iff the interval contains the same points as other. (No `PartialEq`: operands are refused.)
    // Laws: Places.equal-places.
    // Ruled out: of the empty [1, 0] and [2, 0]: no; of [0, 1] and [0, 2]: yes.
    pub fn eq(self, other: Interval) -> Result<bool, Refusal>
        ensures { yes_no_of result ≡ eq self other }
    {
        Ok(line::eq(read_one(self)?, read_one(other)?))
    }
}
