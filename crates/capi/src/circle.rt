// Intervals of the circle, and the remainder, which brings a number onto it.
ghost use Rattle.std.specs.Prelude.{◌≡◌};
ghost use Rattle.consts.specs.Remainder.{remainder};
ghost use Rattle.s1.specs.Answers.{«new», from_line, from_point_pair, is_valid, is_full, is_empty, is_inverted, center, len, to_line, fast_contains};
ghost use Rattle.s1.specs.Answers.{contains, contains_interval, interior_contains, interior_contains_interval, intersects, interior_intersects, eq};
ghost use Rattle.s1.specs.Answers.{approx_eq, approx_eq_by, invert, complement, union, intersection, expanded, add, positive_distance};
ghost use Rattle.s1.specs.Answers.{complement_center, directed_hausdorff_distance};

use consts::{Number, YesNo};
use r1::interval::{Answer as LineAnswer, Interval as Line};
use s1::interval::{Answer, Interval};

// ---- making one

// The interval from lo to hi; an end -PI is written PI, but in the full and the empty one.
#[unsafe(no_mangle)]
pub extern "C" fn sjurnabel_circle_new(lo: f64, hi: f64) -> Answer
    ensures { result ≡ «new» lo hi }
{
    Answer::from(Interval::new(lo, hi))
}

// The ends of a line interval as they are: refused where that is not valid.
#[unsafe(no_mangle)]
pub extern "C" fn sjurnabel_circle_from_line(l: Line) -> Answer
    ensures { result ≡ from_line l }
{
    Answer::from(Interval::from_line(l))
}

// The shorter way between two points, but for rounding.
#[unsafe(no_mangle)]
pub extern "C" fn sjurnabel_circle_from_point_pair(p: f64, q: f64) -> Answer
    ensures { result ≡ from_point_pair p q }
{
    Answer::from(Interval::from_point_pair(p, q))
}

// ---- what one is

// Whether a is valid: one that is not is refused, with no beside the number.
#[unsafe(no_mangle)]
pub extern "C" fn sjurnabel_circle_is_valid(a: Interval) -> YesNo
    ensures { result ≡ is_valid a }
{
    YesNo::from(a.is_valid())
}

// Whether a is the whole circle.
#[unsafe(no_mangle)]
pub extern "C" fn sjurnabel_circle_is_full(a: Interval) -> YesNo
    ensures { result ≡ is_full a }
{
    YesNo::from(a.is_full())
}

// Whether a holds nothing.
#[unsafe(no_mangle)]
pub extern "C" fn sjurnabel_circle_is_empty(a: Interval) -> YesNo
    ensures { result ≡ is_empty a }
{
    YesNo::from(a.is_empty())
}

// Whether a crosses the seam, lo > hi; the empty one says yes too.
#[unsafe(no_mangle)]
pub extern "C" fn sjurnabel_circle_is_inverted(a: Interval) -> YesNo
    ensures { result ≡ is_inverted a }
{
    YesNo::from(a.is_inverted())
}

// The middle of a.
#[unsafe(no_mangle)]
pub extern "C" fn sjurnabel_circle_center(a: Interval) -> Number
    ensures { result ≡ center a }
{
    Number::from(a.center())
}

// How long a is; -1 for the empty one.
#[unsafe(no_mangle)]
pub extern "C" fn sjurnabel_circle_len(a: Interval) -> Number
    ensures { result ≡ len a }
{
    Number::from(a.len())
}

// The line interval with the ends of a: empty where a crosses the seam.
#[unsafe(no_mangle)]
pub extern "C" fn sjurnabel_circle_to_line(a: Interval) -> LineAnswer
    ensures { result ≡ to_line a }
{
    LineAnswer::from(a.to_line())
}

// ---- tests of two, or of one and a point

// Whether a holds the point p, where -PI is not taken for PI.
#[unsafe(no_mangle)]
pub extern "C" fn sjurnabel_circle_fast_contains(a: Interval, p: f64) -> YesNo
    ensures { result ≡ fast_contains a p }
{
    YesNo::from(a.fast_contains(p))
}

// Whether a holds the point p.
#[unsafe(no_mangle)]
pub extern "C" fn sjurnabel_circle_contains(a: Interval, p: f64) -> YesNo
    ensures { result ≡ contains a p }
{
    YesNo::from(a.contains(p))
}

// Whether a holds every place of b.
#[unsafe(no_mangle)]
pub extern "C" fn sjurnabel_circle_contains_interval(a: Interval, b: Interval) -> YesNo
    ensures { result ≡ contains_interval a b }
{
    YesNo::from(a.contains_interval(b))
}

// Whether the inside of a holds the point p.
#[unsafe(no_mangle)]
pub extern "C" fn sjurnabel_circle_interior_contains(a: Interval, p: f64) -> YesNo
    ensures { result ≡ interior_contains a p }
{
    YesNo::from(a.interior_contains(p))
}

// Whether the inside of a holds every place of b.
#[unsafe(no_mangle)]
pub extern "C" fn sjurnabel_circle_interior_contains_interval(a: Interval, b: Interval) -> YesNo
    ensures { result ≡ interior_contains_interval a b }
{
    YesNo::from(a.interior_contains_interval(b))
}

// Whether both share a place.
#[unsafe(no_mangle)]
pub extern "C" fn sjurnabel_circle_intersects(a: Interval, b: Interval) -> YesNo
    ensures { result ≡ intersects a b }
{
    YesNo::from(a.intersects(b))
}

// Whether the inside of a shares a place with b.
#[unsafe(no_mangle)]
pub extern "C" fn sjurnabel_circle_interior_intersects(a: Interval, b: Interval) -> YesNo
    ensures { result ≡ interior_intersects a b }
{
    YesNo::from(a.interior_intersects(b))
}

// Whether both have the same ends.
#[unsafe(no_mangle)]
pub extern "C" fn sjurnabel_circle_eq(a: Interval, b: Interval) -> YesNo
    ensures { result ≡ eq a b }
{
    YesNo::from(a.eq(b))
}

// Whether both are the same but for noise, 1e-14 an end.
#[unsafe(no_mangle)]
pub extern "C" fn sjurnabel_circle_approx_eq(a: Interval, b: Interval) -> YesNo
    ensures { result ≡ approx_eq a b }
{
    YesNo::from(a.approx_eq(b))
}

// The same with the error given.
#[unsafe(no_mangle)]
pub extern "C" fn sjurnabel_circle_approx_eq_by(a: Interval, b: Interval, max_error: f64) -> YesNo
    ensures { result ≡ approx_eq_by a b max_error }
{
    YesNo::from(a.approx_eq_by(b, max_error))
}

// ---- a new one from old ones

// The interval with its ends exchanged.
#[unsafe(no_mangle)]
pub extern "C" fn sjurnabel_circle_invert(a: Interval) -> Answer
    ensures { result ≡ invert a }
{
    Answer::from(a.invert())
}

// The rest of the circle, with the ends of a.
#[unsafe(no_mangle)]
pub extern "C" fn sjurnabel_circle_complement(a: Interval) -> Answer
    ensures { result ≡ complement a }
{
    Answer::from(a.complement())
}

// An interval that holds both.
#[unsafe(no_mangle)]
pub extern "C" fn sjurnabel_circle_union(a: Interval, b: Interval) -> Answer
    ensures { result ≡ union a b }
{
    Answer::from(a.union(b))
}

// An interval that holds what both share, and it may hold more.
#[unsafe(no_mangle)]
pub extern "C" fn sjurnabel_circle_intersection(a: Interval, b: Interval) -> Answer
    ensures { result ≡ intersection a b }
{
    Answer::from(a.intersection(b))
}

// The interval with the margin added on each side, or taken off where it is negative.
#[unsafe(no_mangle)]
pub extern "C" fn sjurnabel_circle_expanded(a: Interval, margin: f64) -> Answer
    ensures { result ≡ expanded a margin }
{
    Answer::from(a.expanded(margin))
}

// The interval grown by a point, to the side that is nearer by the rounded distance; a bad point hands
// it back as it came.
#[unsafe(no_mangle)]
pub extern "C" fn sjurnabel_circle_add(a: Interval, p: f64) -> Answer
    ensures { result ≡ add a p }
{
    Answer::grown(a, a.add(p))
}

// ---- distances

// How far it is from p east to q.
#[unsafe(no_mangle)]
pub extern "C" fn sjurnabel_circle_positive_distance(p: f64, q: f64) -> Number
    ensures { result ≡ positive_distance p q }
{
    Number::from(Interval::positive_distance(p, q))
}

// The middle of the rest of the circle.
#[unsafe(no_mangle)]
pub extern "C" fn sjurnabel_circle_complement_center(a: Interval) -> Number
    ensures { result ≡ complement_center a }
{
    Number::from(a.complement_center())
}

// How far a place of a can lie from b, at most.
#[unsafe(no_mangle)]
pub extern "C" fn sjurnabel_circle_directed_hausdorff_distance(a: Interval, b: Interval) -> Number
    ensures { result ≡ directed_hausdorff_distance a b }
{
    Number::from(a.directed_hausdorff_distance(b))
}

// x minus the whole multiple of 2 PI nearest to it.
#[unsafe(no_mangle)]
pub extern "C" fn sjurnabel_remainder(x: f64) -> Number
    ensures { result ≡ remainder x }
{
    Number::from(consts::remainder(x))
}
