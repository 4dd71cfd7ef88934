// The order of doubles: what every layer's proofs say about `<`, `<=` and `==` (specs/Key.antt,
// proofs/Ranks.antt), and the three choices between doubles that the crate takes from Rust's std. They are
// written out: the kit's `f64::min` and `max` do not say which of 0 and -0 a tie gives, and pass a NaN over;
// its `abs` of -0 is 0.
#![tactic(auto)]

ghost use Rattle.std.specs.Prelude.{◌≡◌};
ghost use Rattle.order.specs.Choice.{min, max, abs};

// The smaller of two numbers, the first where they are equal.
// Laws: Choices.smaller-le, Choices.le-smaller.
// Ruled out: of 1 and 2: 2; of 0 and -0: -0, the second at a tie.
#[tactic(auto, unfolding(crate::specs::Choice::min))]
pub fn min(a: f64, b: f64) -> f64
    ensures { result ≡ min a b }
{
    if b < a { b } else { a }
}

// The larger of two numbers, the first where they are equal.
// Laws: Choices.larger-le, Choices.le-larger.
// Ruled out: of 1 and 2: 1; of -0 and 0: 0, the second at a tie.
#[tactic(auto, unfolding(crate::specs::Choice::max))]
pub fn max(a: f64, b: f64) -> f64
    ensures { result ≡ max a b }
{
    if a < b { b } else { a }
}

// A number without its sign; a zero as it comes.
// Laws: Choices.size-le.
// Ruled out: of -1: -1; of -0: 0, since a zero stays as it comes.
#[tactic(auto, unfolding(crate::specs::Choice::abs))]
pub fn abs(x: f64) -> f64
    ensures { result ≡ abs x }
{
    if x < 0.0 { -x } else { x }
}
