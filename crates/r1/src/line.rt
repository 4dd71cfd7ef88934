// Copyright 2014 Google Inc. All rights reserved.
// Copyright 2017 Jihyun Yu. All rights reserved.
//
// Licensed under the Apache License, Version 2.0 (the "License");
// you may not use this file except in compliance with the License.
// You may obtain a copy of the License at
//
//     http://www.apache.org/licenses/LICENSE-2.0
//
// Unless required by applicable law or agreed to in writing, software
// distributed under the License is distributed on an "AS IS" BASIS,
// WITHOUT WARRANTIES OR CONDITIONS OF ANY KIND, either express or implied.
// See the License for the specific language governing permissions and
// limitations under the License.
//
// What the operations of interval.rt do once their operands have been read, in the Rust's own order.
// ported from src/r1/interval.rs of s2 0.2.0, changed: functions of intervals by value, with
// `f64::min`, `max` and `abs` written out.
ghost use Rattle.std.specs.Prelude.{◌≡◌};
ghost use Rattle.r1.specs.Line.{from_point_pair, is_empty, center, len, contains, contains_interval, interior_contains, interior_contains_interval};
ghost use Rattle.r1.specs.Line.{intersects, interior_intersects, intersection, clamp_point, expanded, union, approx_eq_by};
ghost use Rattle.r1.specs.Line.{directed_hausdorff_distance, add, eq};

use crate::interval::{Distance, Interval};

// Does the work of Interval::from_point_pair on operands that have been read.
#[tactic(auto, unfolding(crate::specs::Line::from_point_pair))]
pub fn from_point_pair(p1: f64, p2: f64) -> Interval
    ensures { result ≡ from_point_pair p1 p2 }
{
    if p1 <= p2 {
        Interval { lo: p1, hi: p2 }
    } else {
        Interval { lo: p2, hi: p1 }
    }
}

// Does the work of Interval::is_empty on operands that have been read.
#[tactic(auto, unfolding(crate::specs::Line::is_empty))]
pub fn is_empty(i: Interval) -> bool
    ensures { result ≡ is_empty i }
{
    i.lo > i.hi
}

// Does the work of Interval::center on operands that have been read.
#[tactic(auto, unfolding(crate::specs::Line::center))]
pub fn center(i: Interval) -> f64
    ensures { result ≡ center i }
{
    consts::zero_read(0.5 * (i.lo + i.hi))
}

// Does the work of Interval::len on operands that have been read.
#[tactic(auto, unfolding(crate::specs::Line::len))]
pub fn len(i: Interval) -> f64
    ensures { result ≡ len i }
{
    consts::zero_read(i.hi - i.lo)
}

// Does the work of Interval::contains on operands that have been read.
#[tactic(auto, unfolding(crate::specs::Line::contains))]
pub fn contains(i: Interval, p: f64) -> bool
    ensures { result ≡ contains i p }
{
    (i.lo <= p) & (p <= i.hi)
}

// Does the work of Interval::contains_interval on operands that have been read.
#[tactic(auto, unfolding(crate::specs::Line::contains_interval))]
pub fn contains_interval(i: Interval, oi: Interval) -> bool
    ensures { result ≡ contains_interval i oi }
{
    is_empty(oi) | ((i.lo <= oi.lo) & (oi.hi <= i.hi))
}

// Does the work of Interval::interior_contains on operands that have been read.
#[tactic(auto, unfolding(crate::specs::Line::interior_contains))]
pub fn interior_contains(i: Interval, p: f64) -> bool
    ensures { result ≡ interior_contains i p }
{
    (i.lo < p) & (p < i.hi)
}

// Does the work of Interval::interior_contains_interval on operands that have been read.
#[tactic(auto, unfolding(crate::specs::Line::interior_contains_interval))]
pub fn interior_contains_interval(i: Interval, oi: Interval) -> bool
    ensures { result ≡ interior_contains_interval i oi }
{
    is_empty(oi) | ((i.lo < oi.lo) & (oi.hi < i.hi))
}

// Does the work of Interval::intersects on operands that have been read.
pub fn intersects(i: Interval, oi: Interval) -> bool
    ensures { result ≡ intersects i oi }
{
    if i.lo <= oi.lo {
        // oi.lo ∈ i and oi is not empty
        (oi.lo <= i.hi) & (oi.lo <= oi.hi)
    } else {
        // i.lo ∈ oi and i is not empty
        (i.lo <= oi.hi) & (i.lo <= i.hi)
    }
}

// Does the work of Interval::interior_intersects on operands that have been read.
#[tactic(auto, unfolding(crate::specs::Line::interior_intersects))]
pub fn interior_intersects(i: Interval, oi: Interval) -> bool
    ensures { result ≡ interior_intersects i oi }
{
    (oi.lo < i.hi) & (i.lo < oi.hi) & (i.lo < i.hi) & (oi.lo <= oi.hi)
}

// Does the work of Interval::intersection on operands that have been read.
#[tactic(auto, unfolding(crate::specs::Line::intersection))]
pub fn intersection(i: Interval, other: Interval) -> Interval
    ensures { result ≡ intersection i other }
{
    // Empty intervals do not need to be special-cased.
    let lo = order::max(i.lo, other.lo);
    let hi = order::min(i.hi, other.hi);
    Interval { lo, hi }
}

// Does the work of Interval::clamp_point on operands that have been read.
#[tactic(auto, unfolding(crate::specs::Line::clamp_point))]
pub fn clamp_point(i: Interval, p: f64) -> f64
    ensures { result ≡ clamp_point i p }
{
    order::max(i.lo, order::min(i.hi, p))
}

// Does the work of Interval::expanded on operands that have been read.
#[tactic(auto, unfolding(crate::specs::Line::expanded))]
pub fn expanded(i: Interval, margin: f64) -> Interval
    ensures { result ≡ expanded i margin }
{
    if is_empty(i) {
        return i;
    }
    let lo = consts::zero_read(i.lo - margin);
    let hi = consts::zero_read(i.hi + margin);
    Interval { lo, hi }
}

// Does the work of Interval::union on operands that have been read.
#[tactic(auto, unfolding(crate::specs::Line::union))]
pub fn union(i: Interval, other: Interval) -> Interval
    ensures { result ≡ union i other }
{
    if is_empty(i) {
        return other;
    }
    if is_empty(other) {
        return i;
    }
    let lo = order::min(i.lo, other.lo);
    let hi = order::max(i.hi, other.hi);
    Interval { lo, hi }
}

// Does the work of Interval::approx_eq_by on operands that have been read.
#[tactic(auto, unfolding(crate::specs::Line::approx_eq_by))]
pub fn approx_eq_by(i: Interval, other: Interval, max_error: f64) -> bool
    ensures { result ≡ approx_eq_by i other max_error }
{
    if is_empty(i) {
        return len(other) < 2.0 * max_error;
    }
    if is_empty(other) {
        return len(i) < 2.0 * max_error;
    }
    (order::abs(i.lo - other.lo) <= max_error) & (order::abs(i.hi - other.hi) <= max_error)
}

// Does the work of Interval::directed_hausdorff_distance on operands that have been read.
#[tactic(auto, unfolding(crate::specs::Line::directed_hausdorff_distance))]
pub fn directed_hausdorff_distance(i: Interval, other: Interval) -> Distance
    ensures { result ≡ directed_hausdorff_distance i other }
{
    if is_empty(i) {
        return Distance::Of(0.0);
    }
    if is_empty(other) {
        return Distance::Unbounded;
    }
    Distance::Of(order::max(0.0, order::max(i.hi - other.hi, other.lo - i.lo)))
}

// Does the work of Interval::add on operands that have been read.
#[tactic(auto, unfolding(crate::specs::Line::add))]
pub fn add(i: Interval, p: f64) -> Interval
    ensures { result ≡ add i p }
{
    if is_empty(i) {
        return Interval { lo: p, hi: p };
    }
    if p < i.lo {
        return Interval { lo: p, hi: i.hi };
    }
    if p > i.hi {
        return Interval { lo: i.lo, hi: p };
    }
    i
}

// Does the work of Interval::eq on operands that have been read.
#[tactic(auto, unfolding(crate::specs::Line::eq))]
pub fn eq(i: Interval, other: Interval) -> bool
    ensures { result ≡ eq i other }
{
    ((i.lo == other.lo) & (i.hi == other.hi)) | (is_empty(i) & is_empty(other))
}
