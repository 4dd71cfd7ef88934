// Copyright 2014 Google Inc. All rights reserved.
// Copyright 2017 Jihyun Yu. All rights reserved.
//
// Licensed under the Apache License, Version 2.0 (the "License");
// you may not use this file except in compliance with the License.
// You may obtain a copy of the License at
//
//     http://www.apache.org/licenses/LICENSE-2.0
//
// Unless required by applicable law or agreed to in writing, software
// distributed under the License is distributed on an "AS IS" BASIS,
// WITHOUT WARRANTIES OR CONDITIONS OF ANY KIND, either express or implied.
// See the License for the specific language governing permissions and
// limitations under the License.
//
// What the operations of interval.rt do once their operands have been read, in the Rust's own order.
// ported from src/s1/interval.rs of s2 0.2.0, changed: functions of intervals by value, with
// `f64::max` and `abs` written out and radians for `Angle`.
ghost use Rattle.std.specs.Prelude.{◌≡◌, cond};
ghost use Rattle.s1.specs.Circle.{is_valid, is_full, is_empty, is_inverted, is_point, fast_contains, contains, contains_interval, interior_contains};
ghost use Rattle.s1.specs.Circle.{interior_contains_interval, intersects, inside_meets, interior_intersects, near_ends, approx_eq_by, eq};
ghost use Rattle.s1.specs.Circle.{positive_distance, «new», seam, from_point_pair, invert, center, len, union, intersection, moved, expanded, complement, complement_center, distance_if_held, directed_hausdorff_distance, add};

use crate::interval::Interval;
use crate::rests::rest;
use consts::{DBL_EPSILON, NEG_PI, PI, TURN};

const MINUS_ONE: f64 = -1.0;

// a or b, by a test.
fn pick(t: bool, a: f64, b: f64) -> f64
    ensures { result ≡ cond t a b }
{
    if t { a } else { b }
}

// Compute distance from a to b in [0,2π], in a numerically stable way.
// Does the work of Interval::positive_distance on operands that have been read.
#[tactic(auto, unfolding(crate::specs::Circle::positive_distance))]
pub fn positive_distance(a: f64, b: f64) -> f64
    ensures { result ≡ positive_distance a b }
{
    let d = b - a;
    if d >= 0.0 { d } else { (b + PI) - (a - PI) }
}

// Does the work of Interval::new on operands that have been read.
#[tactic(auto, unfolding(crate::specs::Circle::new))]
pub fn new(lo: f64, hi: f64) -> Interval
    ensures { result ≡ «new» lo hi }
{
    let l = pick((lo == NEG_PI) & !(hi == PI), PI, lo);
    let h = pick((hi == NEG_PI) & !(lo == PI), PI, hi);
    Interval { lo: l, hi: h }
}

// The point with -PI written PI.
#[tactic(auto, unfolding(crate::specs::Circle::seam))]
fn at_seam(p: f64) -> f64
    ensures { result ≡ seam p }
{
    pick(p == NEG_PI, PI, p)
}

// Does the work of Interval::from_point_pair on operands that have been read.
#[tactic(auto, unfolding(crate::specs::Circle::from_point_pair))]
pub fn from_point_pair(a: f64, b: f64) -> Interval
    ensures { result ≡ from_point_pair a b }
{
    let p = at_seam(a);
    let q = at_seam(b);
    if positive_distance(p, q) <= PI {
        return Interval { lo: p, hi: q };
    }
    Interval { lo: q, hi: p }
}

// Does the work of Interval::is_valid on operands that have been read.
#[tactic(auto, unfolding(crate::specs::Circle::is_valid))]
pub fn is_valid(i: Interval) -> bool
    ensures { result ≡ is_valid i }
{
    (NEG_PI <= i.lo)
        & (i.lo <= PI)
        & (NEG_PI <= i.hi)
        & (i.hi <= PI)
        & !((i.lo == NEG_PI) & !(i.hi == PI))
        & !((i.hi == NEG_PI) & !(i.lo == PI))
}

// Does the work of Interval::is_full on operands that have been read.
#[tactic(auto, unfolding(crate::specs::Circle::is_full))]
pub fn is_full(i: Interval) -> bool
    ensures { result ≡ is_full i }
{
    (i.lo == NEG_PI) & (i.hi == PI)
}

// Does the work of Interval::is_empty on operands that have been read.
#[tactic(auto, unfolding(crate::specs::Circle::is_empty))]
pub fn is_empty(i: Interval) -> bool
    ensures { result ≡ is_empty i }
{
    (i.lo == PI) & (i.hi == NEG_PI)
}

// Does the work of Interval::is_inverted on operands that have been read.
pub fn is_inverted(i: Interval) -> bool
    ensures { result ≡ is_inverted i }
{
    i.lo > i.hi
}

// Whether the interval contains a single point.
#[tactic(auto, unfolding(crate::specs::Circle::is_point))]
fn is_point(i: Interval) -> bool
    ensures { result ≡ is_point i }
{
    i.lo == i.hi
}

// Does the work of Interval::invert on operands that have been read.
pub fn invert(i: Interval) -> Interval
    ensures { result ≡ invert i }
{
    Interval { lo: i.hi, hi: i.lo }
}

// Does the work of Interval::center on operands that have been read.
#[tactic(auto, unfolding(crate::specs::Circle::center))]
pub fn center(i: Interval) -> f64
    ensures { result ≡ center i }
{
    let c = 0.5 * (i.lo + i.hi);
    consts::zero_read(pick(is_inverted(i), pick(c <= 0.0, c + PI, c - PI), c))
}

// Does the work of Interval::len on operands that have been read.
#[tactic(auto, unfolding(crate::specs::Circle::len))]
pub fn len(i: Interval) -> f64
    ensures { result ≡ len i }
{
    let l = i.hi - i.lo;
    if l >= 0.0 {
        return l;
    }
    let m = l + TURN;
    if m > 0.0 {
        return m;
    }
    MINUS_ONE
}

// Does the work of Interval::fast_contains on operands that have been read.
#[tactic(auto, unfolding(crate::specs::Circle::fast_contains))]
pub fn fast_contains(i: Interval, p: f64) -> bool
    ensures { result ≡ fast_contains i p }
{
    if is_inverted(i) {
        ((p >= i.lo) | (p <= i.hi)) & !is_empty(i)
    } else {
        (p >= i.lo) & (p <= i.hi)
    }
}

// Does the work of Interval::contains on operands that have been read.
#[tactic(auto, unfolding(crate::specs::Circle::contains))]
pub fn contains(i: Interval, p: f64) -> bool
    ensures { result ≡ contains i p }
{
    fast_contains(i, at_seam(p))
}

// Does the work of Interval::contains_interval on operands that have been read.
#[tactic(auto, unfolding(crate::specs::Circle::contains_interval))]
pub fn contains_interval(i: Interval, other: Interval) -> bool
    ensures { result ≡ contains_interval i other }
{
    if is_inverted(i) {
        if is_inverted(other) {
            (other.lo >= i.lo) & (other.hi <= i.hi)
        } else {
            ((other.lo >= i.lo) | (other.hi <= i.hi)) & !is_empty(i)
        }
    } else if is_inverted(other) {
        is_full(i) | is_empty(other)
    } else {
        (other.lo >= i.lo) & (other.hi <= i.hi)
    }
}

// Does the work of Interval::interior_contains on operands that have been read.
#[tactic(auto, unfolding(crate::specs::Circle::interior_contains))]
pub fn interior_contains(i: Interval, p: f64) -> bool
    ensures { result ≡ interior_contains i p }
{
    let q = at_seam(p);
    if is_inverted(i) {
        (q > i.lo) | (q < i.hi)
    } else {
        ((q > i.lo) & (q < i.hi)) | is_full(i)
    }
}

// Does the work of Interval::interior_contains_interval on operands that have been read.
#[tactic(auto, unfolding(crate::specs::Circle::interior_contains_interval))]
pub fn interior_contains_interval(i: Interval, other: Interval) -> bool
    ensures { result ≡ interior_contains_interval i other }
{
    if is_inverted(i) {
        if is_inverted(other) {
            ((other.lo > i.lo) & (other.hi < i.hi)) | is_empty(other)
        } else {
            (other.lo > i.lo) | (other.hi < i.hi)
        }
    } else if is_inverted(other) {
        is_full(i) | is_empty(other)
    } else {
        ((other.lo > i.lo) & (other.hi < i.hi)) | is_full(i)
    }
}

// Does the work of Interval::intersects on operands that have been read.
#[tactic(auto, unfolding(crate::specs::Circle::intersects))]
pub fn intersects(i: Interval, other: Interval) -> bool
    ensures { result ≡ intersects i other }
{
    if is_empty(i) | is_empty(other) {
        false
    } else if is_inverted(i) {
        is_inverted(other) | (other.lo <= i.hi) | (other.hi >= i.lo)
    } else if is_inverted(other) {
        (other.lo <= i.hi) | (other.hi >= i.lo)
    } else {
        (other.lo <= i.hi) & (other.hi >= i.lo)
    }
}

// Whether the interior of i meets other, where neither is empty and i is more than a point.
#[tactic(auto, unfolding(crate::specs::Circle::inside_meets))]
fn interior_meets(i: Interval, other: Interval) -> bool
    ensures { result ≡ inside_meets i other }
{
    if is_inverted(i) {
        is_inverted(other) | (other.lo < i.hi) | (other.hi > i.lo)
    } else if is_inverted(other) {
        (other.lo < i.hi) | (other.hi > i.lo)
    } else {
        ((other.lo < i.hi) & (other.hi > i.lo)) | is_full(i)
    }
}

// Does the work of Interval::interior_intersects on operands that have been read.
#[tactic(auto, unfolding(crate::specs::Circle::interior_intersects))]
pub fn interior_intersects(i: Interval, other: Interval) -> bool
    ensures { result ≡ interior_intersects i other }
{
    if is_empty(i) | is_empty(other) | is_point(i) {
        false
    } else {
        interior_meets(i, other)
    }
}

// Does the work of Interval::union on operands that have been read.
pub fn union(i: Interval, other: Interval) -> Interval
    ensures { result ≡ union i other }
{
    if is_empty(other) {
        return i;
    }
    if fast_contains(i, other.lo) {
        if fast_contains(i, other.hi) {
            // Either other ⊂ i, or i ∪ other is the full interval.
            if contains_interval(i, other) {
                return i;
            }
            return Interval::FULL;
        }
        return Interval {
            lo: i.lo,
            hi: other.hi,
        };
    }
    if fast_contains(i, other.hi) {
        return Interval {
            lo: other.lo,
            hi: i.hi,
        };
    }
    if is_empty(i) | fast_contains(other, i.lo) {
        // Neither endpoint of other is in i. Either i ⊂ other, or i and other are disjoint.
        return other;
    }
    if positive_distance(other.hi, i.lo) < positive_distance(i.hi, other.lo) {
        // This is the only hard case where we need to find the closest pair of endpoints.
        return Interval {
            lo: other.lo,
            hi: i.hi,
        };
    }
    Interval {
        lo: i.lo,
        hi: other.hi,
    }
}

// Does the work of Interval::intersection on operands that have been read.
#[tactic(auto, unfolding(crate::specs::Circle::intersection))]
pub fn intersection(i: Interval, other: Interval) -> Interval
    ensures { result ≡ intersection i other }
{
    if is_empty(other) {
        return Interval::EMPTY;
    }
    if fast_contains(i, other.lo) {
        if fast_contains(i, other.hi) {
            // Either other ⊂ i, or i and other intersect twice. Neither are empty. In the second case
            // one of them is inverted, and the one that is shorter, by the rounded length, covers the
            // two disjoint pieces.
            if len(other) < len(i) {
                return other;
            }
            return i;
        }
        return Interval {
            lo: other.lo,
            hi: i.hi,
        };
    }
    if fast_contains(i, other.hi) {
        return Interval {
            lo: i.lo,
            hi: other.hi,
        };
    }
    if fast_contains(other, i.lo) {
        // Neither endpoint of other is in i. Either i ⊂ other, or i and other are disjoint.
        return i;
    }
    Interval::EMPTY
}

// Both ends moved out by margin, and brought back into the range.
#[tactic(auto, unfolding(crate::specs::Circle::moved))]
fn move_ends(i: Interval, margin: f64) -> Interval
    ensures { result ≡ moved i margin }
{
    // No margin that comes here is refused.
    let lo = consts::remainder(i.lo - margin).unwrap_or(0.0);
    let hi = consts::remainder(i.hi + margin).unwrap_or(0.0);
    let r = new(lo, hi);
    let l = pick(r.lo <= NEG_PI, PI, r.lo);
    Interval { lo: l, hi: r.hi }
}

// Does the work of Interval::expanded on operands that have been read.
#[tactic(auto, unfolding(crate::specs::Circle::expanded))]
pub fn expanded(i: Interval, margin: f64) -> Interval
    ensures { result ≡ expanded i margin }
{
    if margin >= 0.0 {
        if is_empty(i) {
            return i;
        }
        // Check whether this interval will be full after expansion, allowing for a rounding error
        // when computing each endpoint.
        if len(i) + 2.0 * margin + 2.0 * DBL_EPSILON >= TURN {
            return Interval::FULL;
        }
        return move_ends(i, margin);
    }
    if is_full(i) {
        return i;
    }
    // Check whether this interval will be empty after expansion, allowing for a rounding error when
    // computing each endpoint.
    if len(i) + 2.0 * margin - 2.0 * DBL_EPSILON <= 0.0 {
        return Interval::EMPTY;
    }
    move_ends(i, margin)
}

// Does the work of Interval::complement on operands that have been read.
#[tactic(auto, unfolding(crate::specs::Circle::complement))]
pub fn complement(i: Interval) -> Interval
    ensures { result ≡ complement i }
{
    if is_point(i) {
        // Singleton. The interval just contains a single point.
        return Interval::FULL;
    }
    Interval { lo: i.hi, hi: i.lo }
}

// Does the work of Interval::complement_center on operands that have been read.
#[tactic(auto, unfolding(crate::specs::Circle::complement_center))]
pub fn complement_center(i: Interval) -> f64
    ensures { result ≡ complement_center i }
{
    if is_point(i) {
        consts::zero_read(pick(i.hi <= 0.0, i.hi + PI, i.hi - PI))
    } else {
        center(complement(i))
    }
}

// d where the interval from a to b contains p, else 0.
fn reach_to(a: f64, b: f64, p: f64, d: f64) -> f64
    ensures { result ≡ distance_if_held a b p d }
{
    pick(contains(new(a, b), p), d, 0.0)
}

// Does the work of Interval::directed_hausdorff_distance on operands that have been read.
pub fn directed_hausdorff_distance(i: Interval, y: Interval) -> f64
    ensures { result ≡ directed_hausdorff_distance i y }
{
    if contains_interval(y, i) {
        return 0.0;
    }
    if is_empty(y) {
        // Maximum possible distance on S1.
        return PI;
    }
    let m = complement_center(y);
    if contains(i, m) {
        return consts::zero_read(positive_distance(y.hi, m));
    }
    // The Hausdorff distance is realized by either two hi endpoints or two lo endpoints, whichever is
    // farther apart.
    let hi_hi = reach_to(y.hi, m, i.hi, positive_distance(y.hi, i.hi));
    let lo_lo = reach_to(m, y.lo, i.lo, positive_distance(i.lo, y.lo));
    consts::zero_read(order::max(hi_hi, lo_lo))
}

// The ends of two intervals that are neither empty nor full, compared.
#[tactic(auto, unfolding(crate::specs::Circle::near_ends))]
fn ends_near(i: Interval, other: Interval, max_error: f64) -> bool
    ensures { result ≡ near_ends i other max_error }
{
    (order::abs(rest(other.lo - i.lo)) <= max_error)
        & (order::abs(rest(other.hi - i.hi)) <= max_error)
        & (order::abs(len(i) - len(other)) <= 2.0 * max_error)
}

// Does the work of Interval::approx_eq_by on operands that have been read.
#[tactic(auto, unfolding(crate::specs::Circle::approx_eq_by))]
pub fn approx_eq_by(i: Interval, other: Interval, max_error: f64) -> bool
    ensures { result ≡ approx_eq_by i other max_error }
{
    if is_empty(i) {
        return len(other) < 2.0 * max_error;
    }
    if is_empty(other) {
        return len(i) < 2.0 * max_error;
    }
    if is_full(i) {
        return len(other) >= 2.0 * (PI - max_error);
    }
    if is_full(other) {
        return len(i) >= 2.0 * (PI - max_error);
    }
    ends_near(i, other, max_error)
}

// Does the work of Interval::add on operands that have been read.
#[tactic(auto, unfolding(crate::specs::Circle::add))]
pub fn add(i: Interval, point: f64) -> Interval
    ensures { result ≡ add i point }
{
    let p = at_seam(point);
    if fast_contains(i, p) {
        return i;
    }
    if is_empty(i) {
        return Interval { lo: p, hi: p };
    }
    if positive_distance(p, i.lo) < positive_distance(i.hi, p) {
        return Interval { lo: p, hi: i.hi };
    }
    Interval { lo: i.lo, hi: p }
}

// Does the work of Interval::eq on operands that have been read.
#[tactic(auto, unfolding(crate::specs::Circle::eq))]
pub fn eq(i: Interval, other: Interval) -> bool
    ensures { result ≡ eq i other }
{
    (i.lo == other.lo) & (i.hi == other.hi)
}
