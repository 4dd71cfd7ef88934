// The common pieces of one arc that does not cross the seam, and of others. The one is a piece; the others
// clip it (`sweep`), in the order that goes fastest (`sort`). No answer depends on the order.
ghost use Rattle.std.specs.Prelude.{◌≡◌, ◌+◌, length, take, IfSome};
ghost use Rattle.arcs.specs.Clipping.{steps};
ghost use Rattle.arcs.specs.Kinds.{narrowed};
ghost use Rattle.arcs.specs.Arrays.{room, Met};
ghost use Rattle.arcs.specs.Inside.{Room, Firsts, IsMet};

use crate::clip::clip_while;
use crate::sweep::sweep;
use s1::interval::Interval;
use sort::sort;

// So many arcs are sorted at once. With more of them it pays to try first whether few pieces, or none,
// are left without it.
const SHORT: usize = 64;

// So many pieces are few.
const FEW: usize = 8;

// What two arcs that do not cross the seam have in common: nothing where it does not rise.
// Laws: Laws.two-kinds.
// Ruled out: of [0, 2] and [1, 3]: [0, 3]; of [0, 1] and [2, 3]: [0, 1].
#[tactic(auto, unfolding(crate::specs::Kinds::narrowed))]
pub fn narrowed(x: Interval, a: Interval) -> Interval
    ensures { result ≡ narrowed x a }
{
    let lo = order::max(x.lo, a.lo);
    let hi = order::min(x.hi, a.hi);
    Interval { lo, hi }
}

// (The arcs and the pieces have room in each function of this crate. A struct of the two would be no plainer: the arcs
// are lent to be sorted here, and only to be read there, and the pieces that are begun differ.)
// The first piece clipped by the arcs in the order in which they lie: how many pieces there are then, if
// they are few all along. None where the arcs are to be sorted at once.
fn try_few(arcs: &[Interval], pieces: &mut [Interval]) -> Option<usize>
    requires { Room 1 arcs.now pieces.old }
    ensures { IfSome result (λ m. Firsts m pieces.new (steps (take 1 pieces.old) arcs.now) (length arcs.now + 1)) }
{
    if arcs.len() <= SHORT {
        return None;
    }
    clip_while(arcs, pieces, 1, FEW)
}

// The piece x clipped by the arcs, which may come into another order. How many pieces they are then.
fn meet_in(arcs: &mut [Interval], pieces: &mut [Interval], x: Interval) -> usize
    requires { Room 1 arcs.old pieces.old }
    ensures { IsMet arcs.old x result pieces.new }
{
    pieces[0] = x;
    if arcs.is_empty() {
        return 1;
    }
    if let Some(m) = try_few(arcs, pieces) {
        return m;
    }
    sort(arcs);
    sweep(arcs, pieces, x)
}

// Whether there is room for one piece more than arcs, of which there are 512 at most.
#[tactic(auto, unfolding(crate::specs::Arrays::room))]
fn has_room(arcs: usize, pieces: usize) -> bool
    ensures { result ≡ room arcs pieces }
{
    (arcs <= 512) && (arcs + 1 < pieces)
}

// The common pieces of x, where it rises, and the arcs, to the start of `pieces`. How many they are, since
// there is no heap to answer them in. It takes 512 arcs at most, and room for one piece more than arcs and
// another: where there is no such room it answers 0 and alters nothing. What is found is determined; the
// order that the arcs are left in, and what lies behind the pieces, is not: both arrays are for working in.
// Laws: Laws.found-exactly, Laws.at_most, Laws.two-kinds.
// Ruled out: of FULL, [1, -1] and [2, 0.5]: one piece; of [0, 1] and [2, 1]: [2, 1], which x does
// not hold.
pub fn meet(arcs: &mut [Interval], pieces: &mut [Interval], x: Interval) -> usize
    ensures { Met arcs.old pieces.old x result arcs.new pieces.new }
{
    if has_room(arcs.len(), pieces.len()) & (x.lo <= x.hi) {
        return meet_in(arcs, pieces, x);
    }
    0
}
