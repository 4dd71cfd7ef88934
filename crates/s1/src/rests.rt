// What is left of a double once 2 PI is taken off as often as it goes, which the Rust writes as `% (2. * PI)`, by
// comparisons, sums and differences. `%` of doubles is a call of C's `fmod`, of a version that the C library of Debian 12 lacks:
// a program with it would not start there.
ghost use Rattle.std.specs.Prelude.{◌≡◌, ◌+◌, ◌<◌};
ghost use Rattle.s1.specs.Rests.{count, Divides, Left, rest};

use consts::TURN;

const NEG_TURN: f64 = -TURN;

// 2 ^ 1023: no finite double is twice as large.
const LARGE: f64 = 8.98846567431158e307;

// What is left of r, which is less than twice t.
fn taken(r: f64, t: f64) -> f64
    requires divides { Divides t r }
    requires less { count r < count t + count t }
    ensures { Left t r result }
{
    if r < t { r } else { r - t }
}

// What is left of x where t is taken off. Twice t is taken off first, as often as that goes, so that t goes at most once
// more; nothing is rounded. From 2 PI it goes 1,022 calls deep at most, and two for numbers within the limits.
fn rest_of(x: f64, t: f64) -> f64
    requires { Divides t x }
    ensures { Left t x result }
{
    if x < t {
        return x;
    }
    if t < LARGE {
        let r = rest_of(x, t + t);
        return taken(r, t);
    }
    taken(x, t)
}

// The remainder of x by 2 PI, of the sign of x: C's `fmod`. Of a NaN and of an infinity it is NaN.
pub(crate) fn rest(x: f64) -> f64
    ensures { result ≡ rest x }
{
    if (NEG_TURN < x) & (x < TURN) {
        return x;
    }
    let none = x - x;
    if none != 0.0 {
        return none;
    }
    if x < 0.0 {
        return -rest_of(-x, TURN);
    }
    rest_of(x, TURN)
}
