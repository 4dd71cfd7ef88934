// How a number that comes in is read: whether it is in reach, and negative zero as zero.
ghost use Rattle.std.specs.Prelude.{◌≡◌, IfOk, IfErr};
ghost use Rattle.consts.specs.Refusal.{number, bad_margin, refusal_of};
ghost use Rattle.consts.specs.Reading.{in_reach, plain, read_number, number_read};

use crate::refusal::Refusal;

// 2 ^ 500.
const MOST: f64 =
    3273390607896141870013189696827599152216642046043064789483291368096133796404674554883270092325904157150886684127560071009217256545885393053328527589376.0;

const LEAST: f64 = -MOST;

// Whether x is no NaN and of size at most 2 ^ 500.
// Laws: Readings.reach-num, Readings.nan-out, Readings.inf-out.
// Ruled out: of 2^500: no; of the NaN: yes.
#[tactic(auto, unfolding(crate::specs::Reading::in_reach))]
pub fn in_reach(x: f64) -> bool
    ensures { result ≡ in_reach x }
{
    (LEAST <= x) & (x <= MOST)
}

// Negative zero as zero, and every other number as it is: to add zero does just that, in one instruction.
// Laws: Readings.plain-key, Readings.plain-plain, Readings.plain-same.
// Ruled out: of -0: -0; of 0000000000000001, the smallest double above zero: 0.
pub fn zero_read(x: f64) -> f64
    ensures { result ≡ plain x }
{
    x + 0.0
}

// A point, a margin or an error: x with zero read where it is in reach, and else the refusal given, of whatever
// type.
// Laws: Readings.read-in, Readings.read_out, Readings.number_in, Readings.number_out.
// Ruled out: of 1, with 3 for a bad number: 1 under 3; of the NaN, with 3: under 0.
#[tactic(auto, unfolding(crate::specs::Reading::number_read))]
pub fn read_number<E: Drop>(x: f64, refusal: E) -> Result<f64, E>
    ensures { result ≡ number_read x refusal }
{
    if in_reach(x) {
        Ok(zero_read(x))
    } else {
        Err(refusal)
    }
}

// A margin, a size or an error.
// Laws: Readings.read-in, Readings.read_out.
// Ruled out: of 1: 1 under 4; of the NaN: 3, a point's number; of -0: -0.
#[tactic(auto, unfolding(crate::specs::Reading::number_read, crate::specs::Reading::read_number))]
pub fn read_margin(x: f64) -> Result<f64, Refusal>
    ensures refusal { refusal_of result ≡ (read_number x (number bad_margin)).refusal }
    ensures value { IfOk result (λ v. v ≡ (read_number x (number bad_margin)).value) }
    ensures why { IfErr result (λ e. e ≡ Refusal.BadMargin) }
{
    read_number(x, Refusal::BadMargin)
}
