// One piece clipped by arcs that cross the seam. The gap of such an arc is what it leaves out, between its
// eastern and its western end. Where the arcs come in rising order of their eastern ends, each gap
// touches only the last piece: those before it, the front, are settled, and the last one is kept out of the
// array. That the arcs come so is tested at each one; where one does not, `clip` goes on.
ghost use Rattle.std.specs.Prelude.{◌≡◌, true, [], ◌∷◌, ◌++◌, ◌+◌, ◌<◌, ◌≤◌, length, take};
ghost use Rattle.std.specs.Float.Ieee.{lt};
ghost use Rattle.consts.specs.Constants.{NEG-PI};
ghost use Rattle.arcs.specs.Clipping.{steps};
ghost use Rattle.arcs.specs.Inside.{Room, Firsts, Spared, Passed, closed, IsSwept, Skipped, IsEnded};

use crate::clip::{clip_all, past};
use consts::{NEG_PI, PI};
use s1::circle;
use s1::interval::Interval;

// Where a sweep stopped: at the arc k, with f pieces settled, which end at b or before it, and x after them.
#[derive(Clone, Copy)]
struct Swept {
    k: usize,
    f: usize,
    b: f64,
    x: Interval,
}

// Whether the arc leaves every piece that ends at b or before it as it is.
#[tactic(auto, unfolding(crate::specs::Inside::spares))]
fn spares(a: Interval, b: f64) -> bool
    ensures { Spared a b result }
{
    (b <= a.hi) & (a.hi < a.lo) & ((NEG_PI < a.hi) & (a.lo <= PI))
}

// Whether the piece goes on past the gap of the arc, which spares the settled ones.
#[tactic(auto, unfolding(crate::specs::Inside::passes))]
fn passes(a: Interval, x: Interval) -> bool
    ensures { Passed a x result }
{
    if x.lo <= x.hi {
        a.lo <= x.hi
    } else {
        (x.hi < x.lo) & (x.hi <= a.hi)
    }
}

// The piece `start` clipped by the arcs, as long as it goes on past the gap of each: a gap parts it, or moves
// its western end. What is west of the gap is put after the settled ones, and counted among them where there
// is anything: so there is no branch for a processor to foretell.
fn sweep_last(arcs: &[Interval], pieces: &mut [Interval], start: Interval) -> Swept
    requires room { Room 1 arcs.now pieces.old }
    requires part { lt NEG-PI start.lo ≡ true }
    ensures { IsSwept arcs.now start result pieces.new }
{
    let mut x = start;
    let mut f = 0;
    let mut b = NEG_PI;
    for (k, a) in arcs.iter().enumerate() {
        let a = *a;
        if !(spares(a, b) & passes(a, x)) {
            return Swept { k, f, b, x };
        }
        pieces[f] = Interval { lo: x.lo, hi: a.hi };
        f = past(f, x.lo <= a.hi);
        x.lo = order::max(x.lo, a.lo);
        b = a.hi;
    }
    Swept {
        k: arcs.len(),
        f,
        b,
        x,
    }
}

// What is left of a piece that ends before the gap of the arc does, put after the first f. How many they
// are then.
#[tactic(auto, using(crate::proofs::Lasts::put_last), unfolding(crate::specs::Inside::closed))]
fn close(pieces: &mut [Interval], f: usize, a: Interval, x: Interval) -> usize
    requires { f < length pieces.old }
    ensures { Firsts result pieces.new (take f pieces.old ++ closed a x) (f + 1) }
{
    if x.lo <= a.hi {
        pieces[f] = Interval {
            lo: x.lo,
            hi: order::min(x.hi, a.hi),
        };
        return f + 1;
    }
    f
}

// How many of the arcs, from the first, spare pieces which end at `last` or before it.
#[tactic(auto, using(crate::proofs::Lasts::skipped_turn))]
fn spared(arcs: &[Interval], last: f64) -> usize
    ensures { Skipped arcs.now last result }
{
    // A `for`: over `position` the proof did not close.
    for (k, a) in arcs.iter().enumerate() {
        if !spares(*a, last) {
            return k;
        }
    }
    arcs.len()
}

// The arc a closes the piece x after the first f; those of the arcs after it that spare what is left are
// skipped, and the others clip it. How many pieces they are then.
fn close_at(arcs: &[Interval], pieces: &mut [Interval], f: usize, a: Interval, x: Interval) -> usize
    requires { Room (f + 1) arcs.now pieces.old }
    ensures { IsEnded arcs.now a x f pieces.old result pieces.new }
{
    let m = close(pieces, f, a, x);
    let j = spared(arcs, a.hi);
    clip_all(&arcs[j..], pieces, m)
}

// The piece x, which is not FULL, clipped by the arcs. How many pieces they are then.
#[tactic(auto, using(crate::proofs::Lasts::put_last, crate::proofs::Turns::left_is))]
fn sweep_from(arcs: &[Interval], pieces: &mut [Interval], x: Interval) -> usize
    requires room { Room 1 arcs.now pieces.old }
    requires part { lt NEG-PI x.lo ≡ true }
    ensures { Firsts result pieces.new (steps (x ∷ []) arcs.now) (length arcs.now + 1) }
{
    let s = sweep_last(arcs, pieces, x);
    if s.k < arcs.len() {
        let a = arcs[s.k];
        if spares(a, s.b) & (s.x.lo <= s.x.hi) & (s.x.hi < a.lo) {
            return close_at(&arcs[s.k + 1..], pieces, s.f, a, s.x);
        }
    }
    pieces[s.f] = s.x;
    clip_all(&arcs[s.k..], pieces, s.f + 1)
}

// The piece x clipped by the arcs, of which there is one. How many pieces they are then. FULL is replaced by
// the first arc.
#[tactic(auto, using(crate::proofs::Turns::first_one))]
pub(crate) fn sweep(arcs: &[Interval], pieces: &mut [Interval], x: Interval) -> usize
    requires room { Room 1 arcs.now pieces.old }
    requires some { 0 < length arcs.now }
    ensures { Firsts result pieces.new (steps (x ∷ []) arcs.now) (length arcs.now + 1) }
{
    if NEG_PI < x.lo {
        return sweep_from(arcs, pieces, x);
    }
    let a = arcs[0];
    if circle::is_full(x) & (NEG_PI < a.lo) & !circle::is_empty(a) {
        return sweep_from(&arcs[1..], pieces, a);
    }
    pieces[0] = x;
    clip_all(arcs, pieces, 1)
}
