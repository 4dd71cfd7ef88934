// The question `common`: the room of the output list in decimal, a bar, and the numbers of a list of
// rectangles. Its answer is as long as the room, so it goes to the output at once and not by way of a
// reply.
ghost use Rattle.ask.specs.Room.{longest, room, HasRoom, GrewBy};

use crate::print::Answers;
use crate::{parse, print};
use arrayvec::ArrayVec;
use region::common_region;

// The most numbers of either list: one rectangle more than the operation takes, so that its refusal of
// a longer list can be asked for.
const MOST: usize = 2052;

// What each number of the output list is before the call, so that one that is not written shows.
const BEFORE: f64 = 42.0;

// Puts the answer; s is what follows the name.
pub(crate) fn reply(s: &[u8], out: &mut Answers) -> Option<()>
    requires { HasRoom out.old room }
    ensures { GrewBy out.old out.new longest }
{
    let (n, rest) = parse::room(s)?;
    let mut list = ArrayVec::<f64, MOST>::new();
    parse::numbers(rest.strip_prefix(b" |")?, &mut list)?;
    let mut x = [BEFORE; MOST];
    let x = x.get_mut(..n)?;
    let p = common_region(list.as_slice(), x);
    print::pieces(p, x, out);
    Some(())
}
