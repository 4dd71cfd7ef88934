// Intervals of the line of numbers, such as latitudes.
ghost use Rattle.std.specs.Prelude.{◌≡◌};
ghost use Rattle.r1.specs.Answers.{«new», from_point, from_point_pair, is_empty, center, len, contains, contains_interval, interior_contains};
ghost use Rattle.r1.specs.Answers.{interior_contains_interval, intersects, interior_intersects, eq, approx_eq, approx_eq_by, union, intersection};
ghost use Rattle.r1.specs.Answers.{expanded, add, clamp_point, directed_hausdorff_distance, distance_answer_of};
ghost use Rattle.capi.specs.Records.{distance_back};

use consts::{Number, Refusal, YesNo};
use r1::interval::{Answer, Distance, Interval};

// ---- making one

// The interval from lo to hi.
#[unsafe(no_mangle)]
pub extern "C" fn sjurnabel_line_new(lo: f64, hi: f64) -> Answer
    ensures { result ≡ «new» lo hi }
{
    Answer::from(Interval::new(lo, hi))
}

// The interval of one point.
#[unsafe(no_mangle)]
pub extern "C" fn sjurnabel_line_from_point(p: f64) -> Answer
    ensures { result ≡ from_point p }
{
    Answer::from(Interval::from_point(p))
}

// The interval between two points, in either order.
#[unsafe(no_mangle)]
pub extern "C" fn sjurnabel_line_from_point_pair(p: f64, q: f64) -> Answer
    ensures { result ≡ from_point_pair p q }
{
    Answer::from(Interval::from_point_pair(p, q))
}

// ---- what one is

// Whether a holds nothing.
#[unsafe(no_mangle)]
pub extern "C" fn sjurnabel_line_is_empty(a: Interval) -> YesNo
    ensures { result ≡ is_empty a }
{
    YesNo::from(a.is_empty())
}

// The middle of a.
#[unsafe(no_mangle)]
pub extern "C" fn sjurnabel_line_center(a: Interval) -> Number
    ensures { result ≡ center a }
{
    Number::from(a.center())
}

// How long a is; negative where a is empty.
#[unsafe(no_mangle)]
pub extern "C" fn sjurnabel_line_len(a: Interval) -> Number
    ensures { result ≡ len a }
{
    Number::from(a.len())
}

// ---- tests of two, or of one and a point

// Whether a holds the point p.
#[unsafe(no_mangle)]
pub extern "C" fn sjurnabel_line_contains(a: Interval, p: f64) -> YesNo
    ensures { result ≡ contains a p }
{
    YesNo::from(a.contains(p))
}

// Whether a holds every place of b.
#[unsafe(no_mangle)]
pub extern "C" fn sjurnabel_line_contains_interval(a: Interval, b: Interval) -> YesNo
    ensures { result ≡ contains_interval a b }
{
    YesNo::from(a.contains_interval(b))
}

// Whether the inside of a holds the point p.
#[unsafe(no_mangle)]
pub extern "C" fn sjurnabel_line_interior_contains(a: Interval, p: f64) -> YesNo
    ensures { result ≡ interior_contains a p }
{
    YesNo::from(a.interior_contains(p))
}

// Whether the inside of a holds every place of b.
#[unsafe(no_mangle)]
pub extern "C" fn sjurnabel_line_interior_contains_interval(a: Interval, b: Interval) -> YesNo
    ensures { result ≡ interior_contains_interval a b }
{
    YesNo::from(a.interior_contains_interval(b))
}

// Whether both share a place.
#[unsafe(no_mangle)]
pub extern "C" fn sjurnabel_line_intersects(a: Interval, b: Interval) -> YesNo
    ensures { result ≡ intersects a b }
{
    YesNo::from(a.intersects(b))
}

// Whether the inside of a shares a place with b.
#[unsafe(no_mangle)]
pub extern "C" fn sjurnabel_line_interior_intersects(a: Interval, b: Interval) -> YesNo
    ensures { result ≡ interior_intersects a b }
{
    YesNo::from(a.interior_intersects(b))
}

// Whether both hold the same places.
#[unsafe(no_mangle)]
pub extern "C" fn sjurnabel_line_eq(a: Interval, b: Interval) -> YesNo
    ensures { result ≡ eq a b }
{
    YesNo::from(a.eq(b))
}

// Whether both are the same but for noise, 1e-14 an end.
#[unsafe(no_mangle)]
pub extern "C" fn sjurnabel_line_approx_eq(a: Interval, b: Interval) -> YesNo
    ensures { result ≡ approx_eq a b }
{
    YesNo::from(a.approx_eq(b))
}

// The same with the error given.
#[unsafe(no_mangle)]
pub extern "C" fn sjurnabel_line_approx_eq_by(a: Interval, b: Interval, max_error: f64) -> YesNo
    ensures { result ≡ approx_eq_by a b max_error }
{
    YesNo::from(a.approx_eq_by(b, max_error))
}

// ---- a new one from old ones

// The least interval that holds both.
#[unsafe(no_mangle)]
pub extern "C" fn sjurnabel_line_union(a: Interval, b: Interval) -> Answer
    ensures { result ≡ union a b }
{
    Answer::from(a.union(b))
}

// What both share.
#[unsafe(no_mangle)]
pub extern "C" fn sjurnabel_line_intersection(a: Interval, b: Interval) -> Answer
    ensures { result ≡ intersection a b }
{
    Answer::from(a.intersection(b))
}

// The interval with the margin added on each side, or taken off where it is negative.
#[unsafe(no_mangle)]
pub extern "C" fn sjurnabel_line_expanded(a: Interval, margin: f64) -> Answer
    ensures { result ≡ expanded a margin }
{
    Answer::from(a.expanded(margin))
}

// The interval grown by a point; a bad point hands it back as it came.
#[unsafe(no_mangle)]
pub extern "C" fn sjurnabel_line_add(a: Interval, p: f64) -> Answer
    ensures { result ≡ add a p }
{
    Answer::grown(a, a.add(p))
}

// ---- points and distances

// The place of a that is nearest to p.
#[unsafe(no_mangle)]
pub extern "C" fn sjurnabel_line_clamp_point(a: Interval, p: f64) -> Number
    ensures { result ≡ clamp_point a p }
{
    Number::from(a.clamp_point(p))
}

// A distance that may be without bound: the value is infinity then. C has no enum that holds a number, so
// this record is C's own.
#[repr(C)]
#[derive(Clone, Copy)]
pub struct CDistance {
    pub refusal: u8,
    pub unbounded: bool,
    pub value: f64,
}

// Infinity is one over zero, since no constant can be it.
// Laws: none of its own.
// Ruled out: of the distance 2: 2 and unbounded; of Unbounded: unbounded, and 0 (it is infinity); of a refusal with 1:
// 1 under 1; of the same: 0 under 0.
impl From<Result<Distance, Refusal>> for CDistance {
    ghost from_gives = { λ r d. d ≡ distance_back (distance_answer_of r) };

    #[tactic(auto, unfolding(crate::specs::Records::is_unbounded, r1::specs::Line::distance_of))]
    fn from(r: Result<Distance, Refusal>) -> CDistance {
        match r {
            Ok(d) => match d {
                Distance::Of(value) => CDistance {
                    refusal: 0,
                    unbounded: false,
                    value,
                },
                Distance::Unbounded => CDistance {
                    refusal: 0,
                    unbounded: true,
                    value: 1.0 / 0.0,
                },
            },
            Err(why) => CDistance {
                refusal: why.into(),
                unbounded: false,
                value: 0.0,
            },
        }
    }
}

// How far a place of a can lie from b, at most; unbounded where b is empty and a is not.
#[unsafe(no_mangle)]
pub extern "C" fn sjurnabel_line_directed_hausdorff_distance(a: Interval, b: Interval) -> CDistance
    ensures { result ≡ distance_back (directed_hausdorff_distance a b) }
{
    CDistance::from(a.directed_hausdorff_distance(b))
}
