// The constants and the remainder modulo 2 PI.
//
// The original file has no copyright lines of its own; NOTICE has the crate's.
// ported from src/consts.rs of s2 0.2.0, changed: the remainder is by 2 PI alone, by comparisons and
// not by libm's remquo, refuses what lies beyond 4 PI, and answers no negative zero; what the port
// does not use is left behind.
ghost use Rattle.std.specs.Prelude.{true, ◌≡◌};
ghost use Rattle.consts.specs.Answer.{number_of};
ghost use Rattle.consts.specs.Remainder.{within_four_pi, remainder_of, remainder};

use crate::reading::zero_read;
use crate::refusal::Refusal;

pub const PI: f64 = 3.141592653589793;

pub const NEG_PI: f64 = -PI;

// 2 PI.
pub const TURN: f64 = 6.283185307179586;

const NEG_TURN: f64 = -TURN;

// 3 PI and 4 PI: these too are doubles, with nothing rounded.
const THREE_PI: f64 = 9.42477796076938;

const NEG_THREE_PI: f64 = -THREE_PI;

const FOUR_PI: f64 = 12.566370614359172;

const NEG_FOUR_PI: f64 = -FOUR_PI;

const TWO_TURNS: f64 = FOUR_PI;

const NEG_TWO_TURNS: f64 = -TWO_TURNS;

// EPSILON is a small number that represents a reasonable level of noise between two values that can
// be considered to be equal.
pub const EPSILON: f64 = 1e-14;

// DBL_EPSILON is a smaller number for values that require more precision.
pub const DBL_EPSILON: f64 = 2.220446049250313e-16;

// The remainder of an x of size at most 4 PI: for each multiple of a turn that may be taken off, a
// comparison with its bound on the side of zero, and a subtraction.
//
//     x            -4 PI      -3 PI      -PI       PI      3 PI      4 PI
//     turns off          -2         -1        0        1         2
//
// The bounds of n turns lie half a turn, PI, below and above them; so between its bounds x minus n turns
// lies from -PI to PI. That is no larger than x or than a turn, and a whole number of the last places of
// the finer of the two: it is a double, and nothing is rounded. On a bound the multiples on either side
// are equally near, and the even one is taken: none at PI and -PI, two turns at 3 PI and -3 PI.
fn reduced(x: f64) -> f64
    requires { within_four_pi x ≡ true }
    ensures { result ≡ remainder_of x }
{
    if x > PI {
        if x >= THREE_PI {
            return x - TWO_TURNS;
        }
        return x - TURN;
    }
    if x < NEG_PI {
        if x <= NEG_THREE_PI {
            return x - NEG_TWO_TURNS;
        }
        return x - NEG_TURN;
    }
    zero_read(x)
}

// x minus the whole multiple of 2 PI nearest to it, the even multiple where two are equally near:
// exact, from -PI to PI, and never negative zero. A NaN, or an x of size over 4 PI, is refused.
// Laws: Remainders.answer-is, Remainders.one_answer, Remainders.only-remainder, Turns.stays-in-range.
// Ruled out: of 3 PI, a tie: PI (it is -PI); of 2 PI: 2 PI; of 402921FB54442D19, above 4 PI:
// 3CE0000000000000.
#[tactic(auto, unfolding(crate::specs::Remainder::remainder, crate::specs::Remainder::within_four_pi))]
pub fn remainder(x: f64) -> Result<f64, Refusal>
    ensures { number_of result ≡ remainder x }
{
    if (NEG_FOUR_PI <= x) & (x <= FOUR_PI) {
        Ok(reduced(x))
    } else {
        Err(Refusal::BadMargin)
    }
}
