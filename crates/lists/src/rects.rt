// Rectangles, lat.lo, lat.hi, lng.lo, lng.hi each.
ghost use Rattle.std.specs.Prelude.{◌≡◌, IfOk};
ghost use Rattle.consts.specs.Refusal.{refusal_of};
ghost use Rattle.s2.specs.Reading.{read_one};
ghost use Rattle.lists.specs.Rects.{rects_of, rect_at, put_rect};
ghost use Rattle.entries.specs.First.{first_of, told};
ghost use Rattle.lists.specs.Refused.{of_rect};

use crate::points::rest_from;
use consts::Refusal;
use entries::{Fault, number_at};
use r1::interval::Interval as Line;
use s1::interval::Interval as Circle;
use s2::reading::read_one;
use s2::rect::Rect;

// The rectangle that starts at the number i.
// Laws: RectLists.rect-entry, RectLists.past_end.
// Ruled out: of [0, 1, 2, 3] and 0: [0, 2] by [1, 3]; of three numbers and 0: a fourth that is no
// NaN.
#[tactic(auto, using(crate::proofs::RectLists::rect_from))]
pub fn rect_at(list: &[f64], i: usize) -> Rect
    ensures { result ≡ rect_at list.now i }
{
    let rest = rest_from(list, i);
    Rect {
        lat: Line {
            lo: number_at(rest, 0),
            hi: number_at(rest, 1),
        },
        lng: Circle {
            lo: number_at(rest, 2),
            hi: number_at(rest, 3),
        },
    }
}

// The same as it is read: 1 where a number is out of reach, and past the end of the list there is none.
// Laws: RectLists.rect-entry.
// Ruled out: of three numbers and 0: under 0 (the fourth is the NaN, so it is 1); of [-0, 1, 0, 1]
// and 0: a -0.
pub fn read_rect(list: &[f64], i: usize) -> Result<Rect, Refusal>
    ensures refusal { refusal_of result ≡ (read_one (rect_at list.now i)).refusal }
    ensures value { IfOk result (λ v. v ≡ (read_one (rect_at list.now i)).value) }
{
    read_one(rect_at(list, i))
}

// Puts the numbers of a rectangle into the list from the number i on, where there is room for all four.
// Laws: Promises.put-there, Promises.put-nothing.
// Ruled out: into three numbers: the first three changed; into eight at 4: the first four changed.
#[tactic(auto, using(crate::proofs::RectLists::no_room, crate::proofs::RectLists::put_stores))]
pub fn put_rect(out: &mut [f64], i: usize, r: Rect)
    ensures { out.new ≡ put_rect i r out.old }
{
    if i < out.len() && out.len() - i >= 4 {
        out[i] = r.lat.lo;
        out[i + 1] = r.lat.hi;
        out[i + 2] = r.lng.lo;
        out[i + 3] = r.lng.hi;
    }
}

// The first rectangle of the list that is refused: why, and which entry it is.
// Laws: Promises.first-refusal, Promises.one-first, Promises.none-beside-none.
// Ruled out: of a good rectangle and one that is not valid: the entry 0; of good ones alone: any entry;
// of one with the latitudes over their range and one that is half empty: 23, the last one's.
pub fn first_refused(list: &[f64]) -> Option<Fault>
    ensures { told result ≡ first_of of_rect (rects_of list.now) }
{
    let n = list.len() / 4;
    for entry in 0..n {
        if let Err(refusal) = read_rect(list, 4 * entry) {
            return Some(Fault { refusal, entry });
        }
    }
    None
}
