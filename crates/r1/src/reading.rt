// How an operand of a line interval's operations is read: its zeros are, and a number out of reach refuses it.
// Operands are read in the order of document 01: the intervals from left to right, then a point, a margin or an
// error (`consts::read_margin`). The first that is refused decides.
ghost use Rattle.std.specs.Prelude.{◌≡◌, IfOk, IfErr};
ghost use Rattle.consts.specs.Reading.{read_number};
ghost use Rattle.consts.specs.Refusal.{number, bad_point, refusal_of};
ghost use Rattle.r1.specs.Reading.{read_one};

use crate::interval::Interval;
use consts::Refusal;

// Reads an interval: every operation on one comes through here.
// Laws: Readings.one_in, Readings.holds_plain, Promises.one-interval.
// Ruled out: of [-0, 1]: [-0, 1]; of [NaN, 1]: under 0.
#[tactic(auto, unfolding(crate::specs::Reading::read_one))]
pub fn read_one(i: Interval) -> Result<Interval, Refusal>
    ensures refusal { refusal_of result ≡ (read_one i).refusal }
    ensures value { IfOk result (λ v. v ≡ (read_one i).value) }
{
    if consts::in_reach(i.lo) & consts::in_reach(i.hi) {
        let lo = consts::zero_read(i.lo);
        let hi = consts::zero_read(i.hi);
        Ok(Interval { lo, hi })
    } else {
        Err(Refusal::OutOfReach)
    }
}

// Reads a point.
// Laws: Promises.interval-and-point.
// Ruled out: of 1: 1 under 3; of the NaN: under 1, an interval's number.
#[tactic(auto, unfolding(consts::specs::Reading::number_read, consts::specs::Reading::read_number))]
pub fn read_point(p: f64) -> Result<f64, Refusal>
    ensures refusal { refusal_of result ≡ (read_number p (number bad_point)).refusal }
    ensures value { IfOk result (λ v. v ≡ (read_number p (number bad_point)).value) }
    ensures why { IfErr result (λ e. e ≡ Refusal.BadPoint) }
{
    consts::read_number(p, Refusal::BadPoint)
}
