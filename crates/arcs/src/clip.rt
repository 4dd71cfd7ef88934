// The common pieces of arcs: the pieces found so far, in rising order of their western ends, clipped by one
// arc more, or by one after the other. They are the first of a lent array; how many they are stands beside
// it, since they grow and shrink there and there is no heap.
ghost use Rattle.std.specs.Prelude.{◌≡◌, cond, not, ◌&&◌, ◌+◌, ◌<◌, ◌≤◌, length, take, eqb, MatchOption};
ghost use Rattle.s1.specs.Circle.{is_full};
ghost use Rattle.arcs.specs.Clipping.{before, sooner, insert, clip, step, steps};
ghost use Rattle.arcs.specs.Inside.{IsCut, Firsts, Room};

use s1::circle;
use s1::interval::Interval;

// Whether x is met no later than y, going east from s.
#[tactic(auto, unfolding(crate::specs::Clipping::before))]
fn is_before(s: f64, x: f64, y: f64) -> bool
    ensures { result ≡ before s x y }
{
    if s <= x {
        (y < s) | (x <= y)
    } else {
        (y < s) & (x <= y)
    }
}

// Of x and y, the one that is met first going east from s.
#[tactic(auto, unfolding(crate::specs::Clipping::sooner))]
fn sooner(s: f64, x: f64, y: f64) -> f64
    ensures { result ≡ sooner s x y }
{
    if is_before(s, x, y) { x } else { y }
}

// One more, where it is kept.
pub(crate) fn past(m: usize, keep: bool) -> usize
    requires { m < 1024 }
    ensures { result ≡ cond keep (m + 1) m }
{
    if keep { m + 1 } else { m }
}

// How many pieces are left and, where one held the arc's western end, where that one ended.
#[derive(Clone, Copy)]
struct Cut {
    n: usize,
    end: Option<f64>,
}

// The pieces found that start in the arc a, each cut at its end: the first of `found` then.
#[tactic(auto, using(crate::proofs::Turns::cutting))]
fn cut_all(found: &mut [Interval], a: Interval) -> Cut
    requires { length found.old ≤ 1024 }
    ensures { IsCut a found.old result found.new }
{
    let mut n = 0;
    let mut end = None;
    for k in 0..found.len() {
        let x = found[k];
        if circle::fast_contains(x, a.lo) {
            end = Some(x.hi);
        }
        found[n] = Interval {
            lo: x.lo,
            hi: sooner(x.lo, x.hi, a.hi),
        };
        n = past(n, circle::fast_contains(a, x.lo));
    }
    Cut { n, end }
}

// One piece more, put in its place among the first n. How many they are then.
#[tactic(auto, using(crate::proofs::Insertion::insertion))]
fn put(pieces: &mut [Interval], n: usize, x: Interval) -> usize
    requires { n < length pieces.old }
    ensures { Firsts result pieces.new (insert x (take n pieces.old)) (n + 1) }
{
    let mut c = x;
    let mut moved = false;
    for i in 0..n {
        let y = pieces[i];
        if moved | (c.lo < y.lo) {
            pieces[i] = c;
            c = y;
            moved = true;
        } else if !(y.lo < c.lo) {
            return n;
        }
    }
    pieces[n] = c;
    n + 1
}

// The first n pieces, none of them FULL, clipped by an arc that is not FULL. How many they are then.
#[tactic(auto, using(crate::proofs::Turns::clipping))]
fn clip_rest(pieces: &mut [Interval], n: usize, a: Interval) -> usize
    requires { (n ≤ 1000) × (n < length pieces.old) }
    ensures { Firsts result pieces.new (clip (take n pieces.old) a) (n + 1) }
{
    let c = cut_all(&mut pieces[..n], a);
    let Some(end) = c.end else {
        return c.n;
    };
    if circle::is_empty(a) {
        return c.n;
    }
    let hi = sooner(a.lo, end, a.hi);
    put(pieces, c.n, Interval { lo: a.lo, hi })
}

// Whether the first of m pieces is FULL.
fn is_whole(m: usize, x: Interval) -> bool
    ensures { result ≡ not (eqb m 0) && is_full x }
{
    (m != 0) & circle::is_full(x)
}

// The first m pieces clipped by one arc more. How many they are then.
#[tactic(auto, using(crate::proofs::Turns::whole_is, crate::proofs::Turns::first_one), unfolding(crate::specs::Clipping::step))]
pub(crate) fn clip_one(pieces: &mut [Interval], m: usize, a: Interval) -> usize
    requires { (m ≤ 1000) × (m < length pieces.old) }
    ensures { Firsts result pieces.new (step (take m pieces.old) a) (m + 1) }
{
    if circle::is_full(a) {
        return m;
    }
    if is_whole(m, pieces[0]) {
        if circle::is_empty(a) {
            return 0;
        }
        pieces[0] = a;
        return 1;
    }
    clip_rest(pieces, m, a)
}

// The first m pieces clipped by the arcs, in the order in which they lie: how many they are then. None where
// they come to be more than `most` while arcs are left.
#[tactic(auto, using(crate::proofs::Turns::turn_clips, crate::proofs::Turns::all_clipped))]
pub(crate) fn clip_while(
    arcs: &[Interval],
    pieces: &mut [Interval],
    m: usize,
    most: usize,
) -> Option<usize>
    requires { Room m arcs.now pieces.old }
    ensures { MatchOption result (most < m + length arcs.now) (λ n. Firsts n pieces.new (steps (take m pieces.old) arcs.now) (m + length arcs.now)) }
{
    let mut n = m;
    for a in arcs.iter() {
        if n > most {
            return None;
        }
        n = clip_one(pieces, n, *a);
    }
    Some(n)
}

// The first m pieces clipped by the arcs, of which each adds one piece at most. How many they are then.
pub(crate) fn clip_all(arcs: &[Interval], pieces: &mut [Interval], m: usize) -> usize
    requires { Room m arcs.now pieces.old }
    ensures { Firsts result pieces.new (steps (take m pieces.old) arcs.now) (m + length arcs.now) }
{
    clip_while(arcs, pieces, m, m + arcs.len()).unwrap()
}
