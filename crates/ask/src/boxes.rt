// The questions `bbox.`: a bbox array as a box, a box as a bbox array, and a box as a rectangle. A box is
// asked with as its four whole numbers: west, south, east and north.
ghost use Rattle.ask.specs.Room.{longest, room, HasRoom, GrewBy};

use crate::print::Answers;
use crate::rect::rect;
use crate::reply::Reply;
use crate::{parse, print};
use arrayvec::ArrayVec;
use bbox::Answer;
use bounds::Bounds;

// The most bytes of a text to read: a line has no room for the digits of more.
const LONGEST: usize = 100000;

// The most bytes of an output text.
const MOST: usize = 99;

// What each byte of an output text is before the call, so that one that is not written shows.
const BEFORE: u8 = b'_';

// Puts the answer to `bbox.read`; s is what follows the name.
pub(crate) fn read(s: &[u8], out: &mut Answers) -> Option<()>
    requires { HasRoom out.old room }
    ensures { GrewBy out.old out.new longest }
{
    let mut bytes = ArrayVec::<u8, LONGEST>::new();
    parse::text(s, &mut bytes)?;
    let a = Answer::from(bbox::read(bytes.as_slice()));
    print::bounds(a.refusal, a.value, out);
    Some(())
}

// The same for `bbox.write`.
pub(crate) fn write(s: &[u8], out: &mut Answers) -> Option<()>
    requires { HasRoom out.old room }
    ensures { GrewBy out.old out.new longest }
{
    let (n, rest) = parse::room(s)?;
    let b = bounds(rest)?;
    let mut x = [BEFORE; MOST];
    let x = x.get_mut(..n)?;
    let written = bbox_text::write(b, x);
    print::text(written, x, out);
    Some(())
}

// The answer to `bbox.rect`, of which s is what follows the name.
pub(crate) fn to_rect(s: &[u8]) -> Option<Reply> {
    Some(rect(degrees::to_rect(bounds(s)?)))
}

// Reads a box, from the first byte to the last.
fn bounds(s: &[u8]) -> Option<Bounds> {
    let (west, s) = parse::whole(s)?;
    let (south, s) = parse::whole(s)?;
    let (east, s) = parse::whole(s)?;
    let (north, s) = parse::whole(s)?;
    s.is_empty().then_some(Bounds {
        west,
        south,
        east,
        north,
    })
}
