// The questions `growth` and `running`: a rectangle's four numbers, a bar, and the numbers of a list of
// points. They are asked alike, but that half a point is no call, and differ in what is done with the list.
use crate::parse;
use crate::rect::{bounds, rect};
use crate::reply::Reply;
use arrayvec::ArrayVec;
use growth::{RunningAnswer, grow};
use s2::rect::{Answer, Rect};

// The most numbers of the list: one point more than the operations take, so that their refusal of a
// longer list can be asked for.
const MOST: usize = 8194;

// The answer to `growth`; s is what follows the name.
pub(crate) fn growth(s: &[u8]) -> Option<Reply> {
    let (r, rest) = operands(s)?;
    let mut points = ArrayVec::<f64, MOST>::new();
    parse::numbers(rest, &mut points)?;
    Some(rect(Answer::grown(r, grow(r, points.as_slice()))))
}

// The answer to `running`.
pub(crate) fn running(s: &[u8]) -> Option<Reply> {
    let (r, rest) = operands(s)?;
    let mut points = ArrayVec::<f64, MOST>::new();
    parse::numbers(rest, &mut points)?;
    if points.len() % 2 != 0 {
        return None;
    }
    let run = growth::running(r, points.as_slice());
    Some(ran(RunningAnswer::of(r, run)))
}

// Reads the rectangle and the bar, and hands back what follows them.
fn operands(s: &[u8]) -> Option<(Rect, &[u8])> {
    let (r, rest) = parse::four(s)?;
    Some((bounds(r), rest.strip_prefix(b" |")?))
}

// How many calls were accepted, then the box.
fn ran(a: RunningAnswer) -> Reply {
    let r = a.value;
    Reply::Counted(
        a.refusal, a.accepted, r.lat.lo, r.lat.hi, r.lng.lo, r.lng.hi,
    )
}
