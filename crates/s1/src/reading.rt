// How the operands of a circle interval's operations are read, in the order of document 01: the
// intervals from left to right, then points, then a margin or an error (`consts::read_margin`). The first that
// is refused decides. Zeros are read on the way.
ghost use Rattle.std.specs.Prelude.{◌≡◌, IfOk, IfErr};
ghost use Rattle.consts.specs.Reading.{plain};
ghost use Rattle.consts.specs.Refusal.{refusal_of};
ghost use Rattle.s1.specs.Devices.{usual};
ghost use Rattle.s1.specs.Reading.{read_one, read_ends, on_circle, read_point};

use crate::circle;
use crate::interval::Interval;
use consts::{NEG_PI, PI, Refusal, zero_read};

// Whether an interval is a usual one: its ends are of size at most PI, and neither is -PI. Such a one is
// valid; most are such, and need no other test.
#[tactic(auto, unfolding(crate::specs::Devices::usual))]
fn is_usual(i: Interval) -> bool
    ensures { result ≡ usual i }
{
    (NEG_PI < i.lo) & (i.lo <= PI) & (NEG_PI < i.hi) & (i.hi <= PI)
}

// Refuses an interval that is not within the limits. A valid one is in reach, so only one that is not valid is
// tested a second time.
fn test(i: Interval) -> Result<(), Refusal>
    ensures { refusal_of result ≡ (read_one i).refusal }
{
    if is_usual(i) {
        return Ok(());
    }
    if circle::is_valid(i) {
        return Ok(());
    }
    if consts::in_reach(i.lo) & consts::in_reach(i.hi) {
        return Err(Refusal::BadCircle);
    }
    Err(Refusal::OutOfReach)
}

// Reads an interval: every operation on one comes through here.
// Laws: Limits.one_in, Limits.holds_plain; Readings.valid-reach; Promises.refusals-alone.
// Ruled out: of [-PI, 0]: under 0; of [0, NaN]: under 22.
#[tactic(auto, unfolding(crate::specs::Reading::read_one))]
pub fn read_one(i: Interval) -> Result<Interval, Refusal>
    ensures refusal { refusal_of result ≡ (read_one i).refusal }
    ensures value { IfOk result (λ v. v ≡ (read_one i).value) }
{
    test(i)?;
    Ok(plain(i.lo, i.hi))
}

// The interval of two ends, their zeros read.
fn plain(lo: f64, hi: f64) -> Interval
    ensures { result ≡ record { lo = plain lo; hi = plain hi } }
{
    Interval {
        lo: zero_read(lo),
        hi: zero_read(hi),
    }
}

// Whether a point is one of the circle: of size at most PI.
#[tactic(auto, unfolding(crate::specs::Reading::on_circle))]
fn on_circle(p: f64) -> bool
    ensures { result ≡ on_circle p }
{
    (NEG_PI <= p) & (p <= PI)
}

// Refuses two ends that make no interval.
fn test_ends(lo: f64, hi: f64) -> Result<(), Refusal>
    ensures { refusal_of result ≡ (read_ends lo hi).refusal }
{
    if on_circle(lo) & on_circle(hi) {
        return Ok(());
    }
    if consts::in_reach(lo) & consts::in_reach(hi) {
        return Err(Refusal::BadCircle);
    }
    Err(Refusal::OutOfReach)
}

// Reads the ends of an interval that is to be made, before the seam is normalised.
// Laws: Limits.ends-in; Promises.refusals-new.
// Ruled out: of -PI and 0: under 22, as an interval would be; of 0 and 4: under 0.
#[tactic(auto, unfolding(crate::specs::Reading::read_ends))]
pub fn read_ends(lo: f64, hi: f64) -> Result<Interval, Refusal>
    ensures refusal { refusal_of result ≡ (read_ends lo hi).refusal }
    ensures value { IfOk result (λ v. v ≡ (read_ends lo hi).value) }
{
    test_ends(lo, hi)?;
    Ok(plain(lo, hi))
}

// Reads a point of the circle.
// Laws: Limits.read-point; Promises.refusals-from-point-pair.
// Ruled out: of PI: under 3; of 4: under 0.
#[tactic(auto, unfolding(crate::specs::Reading::read_point))]
pub fn read_point(p: f64) -> Result<f64, Refusal>
    ensures refusal { refusal_of result ≡ (read_point p).refusal }
    ensures value { IfOk result (λ v. v ≡ (read_point p).value) }
    ensures why { IfErr result (λ e. e ≡ Refusal.BadPoint) }
{
    if on_circle(p) {
        Ok(zero_read(p))
    } else {
        Err(Refusal::BadPoint)
    }
}
