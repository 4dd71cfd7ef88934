// The list's rectangles read: their common latitude band and, of their longitudes, two things, as the crate
// arcs takes them. Arcs that do not cross the seam are met by their ends alone, so that one arc is left of
// them all; arcs that do cross it are put down one by one, in the list's order.
ghost use Rattle.std.specs.Prelude.{◌≡◌, ◌+◌, ◌*◌, ◌<◌, ◌≤◌, ◌%◌, length, IfOk};
ghost use Rattle.consts.specs.Refusal.{refusal_of};
ghost use Rattle.s2.specs.Reading.{read_one};
ghost use Rattle.lists.specs.Rects.{rects_of, rect_at};
ghost use Rattle.lists.specs.Refused.{first_refused};
ghost use Rattle.region.specs.Inside.{IsArcs};

use arcs::narrowed;
use consts::Refusal;
use r1::interval::Interval as Line;
use r1::line;
use s1::interval::Interval as Circle;
use s2::reading::read_one;
use s2::rect::Rect;

// What the rectangles of a list come to: how many arcs cross the seam, the common band, and what the other arcs
// have in common: nothing where it does not rise.
#[derive(Clone, Copy)]
pub(crate) struct Arcs {
    pub(crate) count: usize,
    pub(crate) lat: Line,
    pub(crate) lng: Circle,
}

// The rectangle that starts at the number i, as it is read.
fn read_at(list: &[f64], i: usize) -> Result<Rect, Refusal>
    requires { i + 3 < length list.now }
    ensures refusal { refusal_of result ≡ (read_one (rect_at list.now i)).refusal }
    ensures value { IfOk result (λ r. r ≡ (read_one (rect_at list.now i)).value) }
{
    let lat = Line {
        lo: list[i],
        hi: list[i + 1],
    };
    let lng = Circle {
        lo: list[i + 2],
        hi: list[i + 3],
    };
    read_one(Rect { lat, lng })
}

// Reads the rectangles from the first. The arcs that cross the seam go to the start of `arcs`; how many they
// are is told, since there is no heap to answer them in.
pub(crate) fn read_arcs(list: &[f64], arcs: &mut [Circle]) -> Result<Arcs, Refusal>
    requires { (length list.now % 4 ≡ 0) × (length list.now ≤ 4 * length arcs.old) }
    ensures refusal { refusal_of result ≡ first_refused (rects_of list.now) }
    ensures found { IfOk result (λ a. IsArcs list.now a arcs.new) }
{
    let full = Rect::FULL;
    let mut lat = full.lat;
    let mut lng = full.lng;
    let mut count = 0;
    for i in 0..list.len() / 4 {
        let x = read_at(list, 4 * i)?;
        lat = line::intersection(lat, x.lat);
        let a = x.lng;
        if a.lo <= a.hi {
            lng = narrowed(lng, a);
        } else {
            arcs[count] = a;
            count += 1;
        }
    }
    Ok(Arcs { count, lat, lng })
}
