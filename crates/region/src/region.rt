// The common region: a lent list of rectangles in, lat.lo, lat.hi, lng.lo, lng.hi each, and its pieces
// out to a second lent list in the same form. Each rectangle is read as every operation on one reads it
// (the crate s2). A refusal alters no number.
ghost use Rattle.std.specs.Prelude.{◌≡◌, ◌++◌, ◌+◌, ◌*◌, ◌≤◌, ◌%◌, length, drop};
ghost use Rattle.lists.specs.Rects.{numbers_of};
ghost use Rattle.region.specs.Region.{across};
ghost use Rattle.region.specs.Answers.{entry_of, told_pieces, Promised};
ghost use Rattle.region.specs.Inside.{Room, Fitted, listed_of, IsWritten, IsListed};

use crate::finding::find;
use consts::Refusal;
use entries::{Fault, whole};
use lists::first_refused;
use r1::interval::Interval as Line;
use s1::interval::Interval as Circle;

// What C has of it: how many pieces were listed; none under a refusal. Where a rectangle is refused, its entry is
// told, counted from zero; beside any other number the entry is 0 and means nothing.
#[repr(C)]
#[derive(Clone, Copy)]
pub struct Pieces {
    pub refusal: u8,
    pub count: usize,
    pub entry: usize,
}

// Laws: none of its own.
// Ruled out: of two pieces: 1 under 0; of a refusal with 21 at the entry 1: the entry 0.
impl From<Result<usize, Fault>> for Pieces {
    ghost from_gives = { λ r y. y ≡ told_pieces r };

    fn from(r: Result<usize, Fault>) -> Pieces {
        match r {
            Ok(count) => Pieces {
                refusal: 0,
                count,
                entry: 0,
            },
            Err(fault) => Pieces {
                refusal: fault.refusal.into(),
                count: 0,
                entry: fault.entry,
            },
        }
    }
}

// How many of n pieces are written into room for so many numbers: all, or none where they do not fit.
fn fitting(n: usize, room: usize) -> usize
    requires { n ≤ 1024 }
    ensures { Fitted n room result }
{
    if room < 4 * n {
        return 0;
    }
    n
}

// The pieces, with the latitude band b, to the start of `out`.
#[tactic(auto, using(crate::proofs::Written::writing), unfolding(crate::specs::Region::across, lists::specs::Rects::numbers_of))]
fn write_out(pieces: &[Circle], b: Line, out: &mut [f64])
    requires { 4 * length pieces.now ≤ length out.old }
    ensures { out.new ≡ numbers_of (across b pieces.now) ++ drop (4 * length pieces.now) out.old }
{
    for (k, x) in pieces.iter().enumerate() {
        out[4 * k] = b.lo;
        out[4 * k + 1] = b.hi;
        out[4 * k + 2] = x.lo;
        out[4 * k + 3] = x.hi;
    }
}

// The pieces, with the latitude band b, to the start of `out` where they all have room. How many they are.
fn list_pieces(pieces: &[Circle], b: Line, out: &mut [f64]) -> Result<usize, Refusal>
    requires { length pieces.now ≤ 1024 }
    ensures { IsWritten (across b pieces.now) out.old (listed_of result) out.new }
{
    let n = pieces.len();
    let k = fitting(n, out.len());
    write_out(&pieces[..k], b, out);
    if k < n {
        return Err(Refusal::NoRoom);
    }
    Ok(n)
}

// The common region of a list of whole rectangles, with room for its arcs and for the pieces. How many pieces were
// listed, or why the list is refused: before the entry is looked for.
fn region_in(
    list: &[f64],
    arcs: &mut [Circle],
    pieces: &mut [Circle],
    out: &mut [f64],
) -> Result<usize, Refusal>
    requires { Room list.now arcs.old pieces.old }
    ensures { IsListed list.now out.old (listed_of result) out.new }
{
    let f = find(list, arcs, pieces)?;
    list_pieces(&pieces[..f.count], f.lat, out)
}

// What an array is filled with that is written before it is read: zeros cost least.
const BLANK: Circle = Circle { lo: 0.0, hi: 0.0 };

// The common region of a list of whole rectangles, found in arrays of these lengths. (That it is one stands here and
// at the next two. A type for such a list would be no plainer: one function makes it, and all three hand on the slice.)
fn region_in_room<const ARCS: usize, const PIECES: usize>(
    list: &[f64],
    out: &mut [f64],
) -> Result<usize, Refusal>
    requires list { (length list.now % 4 ≡ 0) × (length list.now ≤ 2048) }
    requires room { (length list.now ≤ 4 * ARCS) × (length list.now + 8 ≤ 4 * PIECES) }
    requires few { (ARCS ≤ 512) × (PIECES ≤ 514) }
    ensures { IsListed list.now out.old (listed_of result) out.new }
{
    let mut arcs = [BLANK; ARCS];
    let mut pieces = [BLANK; PIECES];
    region_in(list, &mut arcs, &mut pieces, out)
}

// The common region of a list of whole rectangles. The arrays that the pieces are found in have room for one
// arc and one piece a rectangle, and two pieces more; a short list takes short ones, since an array costs what
// it takes to fill it.
fn region_sized(list: &[f64], out: &mut [f64]) -> Result<usize, Refusal>
    requires { (length list.now % 4 ≡ 0) × (length list.now ≤ 2048) }
    ensures { IsListed list.now out.old (listed_of result) out.new }
{
    let n = list.len() / 4;
    if n <= 4 {
        return region_in_room::<4, 6>(list, out);
    }
    if n <= 16 {
        return region_in_room::<16, 18>(list, out);
    }
    if n <= 128 {
        return region_in_room::<128, 130>(list, out);
    }
    region_in_room::<512, 514>(list, out)
}

// The entry that is refused, of a list of whole rectangles; 0 where none is. It is looked for only where the list
// is refused: so a list that is taken pays nothing for it.
fn entry_in(list: &[f64]) -> usize
    requires { (length list.now % 4 ≡ 0) × (length list.now ≤ 2048) }
    ensures { result ≡ entry_of list.now }
{
    match first_refused(list) {
        Some(fault) => fault.entry,
        None => 0,
    }
}

// The common region of the rectangles in `list`, to the start of `out`.
// Laws: Laws.listed-exactly, Laws.accepts, Laws.none-listed, Laws.at_most, Laws.unaltered,
// Laws.determined; Promises.the-entry, Promises.no-entry.
// Ruled out: of [-1, 1] and [1, -1]: one piece, [-1, 1], or none; of [2, 1] and [0.5, 0.25]: [2,
// 0.25] first; of one empty rectangle: one empty piece; a refusal, and a number of the output
// changed; of a good rectangle, then [0, 2] by {0}, then [0, 1] by [-PI, 0]: 22, or the entry 2, or the
// entry 0 (it is 21 at 1).
pub fn common_region(list: &[f64], out: &mut [f64]) -> Result<usize, Fault>
    ensures { Promised list.now out.old (told_pieces result) out.new }
{
    if !whole(list.len(), 4, 512) {
        return Err(Fault {
            refusal: Refusal::BadList,
            entry: 0,
        });
    }
    match region_sized(list, out) {
        Ok(count) => Ok(count),
        Err(refusal) => Err(Fault {
            refusal,
            entry: entry_in(list),
        }),
    }
}
