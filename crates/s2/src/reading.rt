// How the operands of a rectangle's operations are read, in the order of document 01: the rectangles
// from left to right, then points, then margins, sizes or errors. Zeros are read on the way.
ghost use Rattle.std.specs.Prelude.{◌≡◌, IfOk, IfErr};
ghost use Rattle.consts.specs.Refusal.{first_refusal, refusal_of};
ghost use Rattle.s2.specs.Devices.{usual};
ghost use Rattle.s2.specs.Reading.{rect_in_reach, as_read, fault_of, read_one, read_two, read_point, read_margins, read_with_point, read_with_margins};

use crate::latlng::{LatLng, NORTH_POLE_LAT, SOUTH_POLE_LAT};
use crate::rect::Rect;
use crate::zone;
use consts::{NEG_PI, PI, Refusal};
use r1::interval::Interval as Line;
use s1::circle;
use s1::interval::Interval as Circle;

// Whether all four numbers are in reach.
#[tactic(auto, unfolding(crate::specs::Reading::rect_in_reach))]
fn in_reach(r: Rect) -> bool
    ensures { result ≡ rect_in_reach r }
{
    consts::in_reach(r.lat.lo)
        & consts::in_reach(r.lat.hi)
        & consts::in_reach(r.lng.lo)
        & consts::in_reach(r.lng.hi)
}

// Whether a rectangle is a usual one: its latitudes rise within the poles, and no end of its longitudes is
// -PI. Such a one is valid and in reach; most are such, and need no other test.
#[tactic(auto, unfolding(crate::specs::Devices::usual))]
fn is_usual(r: Rect) -> bool
    ensures { result ≡ usual r }
{
    (SOUTH_POLE_LAT <= r.lat.lo)
        & (r.lat.lo <= r.lat.hi)
        & (r.lat.hi <= NORTH_POLE_LAT)
        & (NEG_PI < r.lng.lo)
        & (r.lng.lo <= PI)
        & (NEG_PI < r.lng.hi)
        & (r.lng.hi <= PI)
}

// Refuses a rectangle whose numbers are in reach and that is not valid.
#[tactic(auto, unfolding(crate::specs::Reading::fault_of))]
fn test_parts(r: Rect) -> Result<(), Refusal>
    ensures { refusal_of result ≡ fault_of r }
{
    let latitudes = zone::has_latitudes(r);
    let circle = circle::is_valid(r.lng);
    let parts = zone::has_like_parts(r);
    consts::first_fault(latitudes, circle, parts)
}

// Refuses a rectangle that is not within the limits. A valid one is in reach but perhaps for its lat.hi, which has
// no least value: the others are tested only where it is not valid.
fn test(r: Rect) -> Result<(), Refusal>
    ensures { refusal_of result ≡ (read_one r).refusal }
{
    if zone::is_valid(r) & consts::in_reach(r.lat.hi) {
        return Ok(());
    }
    if in_reach(r) {
        return test_parts(r);
    }
    Err(Refusal::OutOfReach)
}

// Refuses the first of two rectangles that is not within the limits. Whoever reads rectangles comes here where
// one is not usual, and one alone comes twice: so the whole test is compiled once, and what most calls need
// stays short enough to stand where it is used.
#[tactic(auto, using(consts::proofs::Codes::code_refuses), unfolding(consts::specs::Refusal::first_refusal))]
fn test_both(r: Rect, o: Rect) -> Result<(), Refusal>
    ensures { refusal_of result ≡ first_refusal (read_one r).refusal (read_one o).refusal }
{
    test(r)?;
    test(o)
}

// The rectangle with its zeros read.
#[tactic(auto, unfolding(crate::specs::Reading::as_read))]
fn plain(r: Rect) -> Rect
    ensures { result ≡ as_read r }
{
    let a = consts::zero_read(r.lat.lo);
    let b = consts::zero_read(r.lat.hi);
    let c = consts::zero_read(r.lng.lo);
    let d = consts::zero_read(r.lng.hi);
    let lat = Line { lo: a, hi: b };
    let lng = Circle { lo: c, hi: d };
    Rect { lat, lng }
}

// Refuses one rectangle that is not within the limits.
fn test_one(r: Rect) -> Result<(), Refusal>
    ensures { refusal_of result ≡ (read_one r).refusal }
{
    if is_usual(r) { Ok(()) } else { test_both(r, r) }
}

// Refuses the first of two that is not.
fn test_two(r: Rect, o: Rect) -> Result<(), Refusal>
    ensures { refusal_of result ≡ first_refusal (read_one r).refusal (read_one o).refusal }
{
    if is_usual(r) & is_usual(o) {
        Ok(())
    } else {
        test_both(r, o)
    }
}

// Reads a rectangle: every operation on one comes through here, or through the next.
// Laws: Readings.one_in, Readings.one_out, Readings.one-not-valid, Readings.valid-reach;
// Places.from-read, Places.to_read.
// Ruled out: of [0, 2] by {0}: under 0; of [0, DF40000000000000] by EMPTY: under
// 23 (it is 1); of [0, 2] by [-PI, 0]: under 22 (it is 21); of [1, 0] by [-PI, 0]: under 23 (it is 22).
#[tactic(auto, unfolding(crate::specs::Reading::read_one))]
pub fn read_one(r: Rect) -> Result<Rect, Refusal>
    ensures refusal { refusal_of result ≡ (read_one r).refusal }
    ensures value { IfOk result (λ v. v ≡ (read_one r).value) }
{
    test_one(r)?;
    Ok(plain(r))
}

// Reads two rectangles, the left one first.
// Laws: Readings.two_in, Promises.both-refused.
// Ruled out: of [0, 1] by {0} and [0, 1] by {1}: the second on the left; of [0, 2] by {0} and [NaN,
// 1] by {0}: under 1 (the left one decides: 21).
#[tactic(auto, unfolding(crate::specs::Reading::read_two, crate::specs::Reading::read_one))]
pub fn read_two(r: Rect, o: Rect) -> Result<(Rect, Rect), Refusal>
    ensures refusal { refusal_of result ≡ (read_two r o).refusal }
    ensures value { IfOk result (λ v. (v.0 ≡ (read_two r o).left) × (v.1 ≡ (read_two r o).right)) }
{
    test_two(r, o)?;
    Ok((plain(r), plain(o)))
}

// Reads a point: every operation on one comes through here.
// Laws: Readings.point-in, Readings.point-bad.
// Ruled out: of 0 and -PI: under 3; of 2 and 0: under 0.
#[tactic(auto, unfolding(crate::specs::Reading::read_point))]
pub fn read_point(p: LatLng) -> Result<LatLng, Refusal>
    ensures refusal { refusal_of result ≡ (read_point p).refusal }
    ensures value { IfOk result (λ v. v ≡ (read_point p).value) }
    ensures why { IfErr result (λ e. e ≡ Refusal.BadPoint) }
{
    if zone::is_latlng(p) {
        let lat = consts::zero_read(p.lat);
        let lng = consts::zero_read(p.lng);
        Ok(LatLng { lat, lng })
    } else {
        Err(Refusal::BadPoint)
    }
}

// Reads two margins, sizes or errors, the latitude's and the longitude's.
// Laws: Readings.margins-in, Promises.expanded-bad-margin.
// Ruled out: of 9 and 9: under 4; of 0 and infinity: under 0.
#[tactic(auto, using(consts::proofs::Codes::code_refuses), unfolding(crate::specs::Reading::read_margins, consts::specs::Refusal::first_refusal))]
pub fn read_margins(m: LatLng) -> Result<LatLng, Refusal>
    ensures refusal { refusal_of result ≡ (read_margins m).refusal }
    ensures value { IfOk result (λ v. v ≡ (read_margins m).value) }
{
    let lat = consts::read_margin(m.lat)?;
    let lng = consts::read_margin(m.lng)?;
    Ok(LatLng { lat, lng })
}

// Reads a rectangle, then a point.
// Laws: Readings.with-point-in, Promises.with-point-refused, Promises.with-point-bad-point.
// Ruled out: of [0, 1] by {0} and the point 2, 0: under 0; of [0, 2] by {0} and that point: under
// 3.
#[tactic(auto, using(consts::proofs::Codes::code_refuses), unfolding(crate::specs::Reading::read_with_point, consts::specs::Refusal::first_refusal))]
pub fn read_with_point(r: Rect, p: LatLng) -> Result<(Rect, LatLng), Refusal>
    ensures refusal { refusal_of result ≡ (read_with_point r p).refusal }
    ensures value { IfOk result (λ v. (v.0 ≡ (read_with_point r p).value) × (v.1 ≡ (read_with_point r p).beside)) }
{
    Ok((read_one(r)?, read_point(p)?))
}

// Reads a rectangle, then two margins.
// Laws: Readings.with-margins-in, Promises.expanded-accepted.
// Ruled out: of [0, 1] by {0} and margins 9 and 9: under 4; of [0, 2] by {0} and infinite margins:
// under 4.
#[tactic(auto, using(consts::proofs::Codes::code_refuses), unfolding(crate::specs::Reading::read_with_margins, consts::specs::Refusal::first_refusal))]
pub fn read_with_margins(r: Rect, m: LatLng) -> Result<(Rect, LatLng), Refusal>
    ensures refusal { refusal_of result ≡ (read_with_margins r m).refusal }
    ensures value { IfOk result (λ v. (v.0 ≡ (read_with_margins r m).value) × (v.1 ≡ (read_with_margins r m).beside)) }
{
    Ok((read_one(r)?, read_margins(m)?))
}
