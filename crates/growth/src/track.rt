// The running box by value: each point of a lent list is a call that enlarges it, and a bad point changes
// nothing.
ghost use Rattle.std.specs.Prelude.{◌≡◌};
ghost use Rattle.growth.specs.Growth.{ran, ran_of};

use crate::calls::calls;
use crate::start::start_of;
use consts::Refusal;
use s2::rect::{Answer, Rect};

// How many calls were accepted, and the box after all of them.
#[derive(Clone, Copy)]
pub struct Run {
    pub accepted: usize,
    pub value: Rect,
}

// A run as C has it. A refusal is of the list's length or of the start; no call was made then.
#[repr(C)]
#[derive(Clone, Copy)]
pub struct RunningAnswer {
    pub refusal: u8,
    pub accepted: usize,
    pub value: Rect,
}

impl RunningAnswer {
    // What a run from `start` answers C: where it is refused, the rectangle that growth would hand back.
    // Laws: none of its own.
    // Ruled out: of [0, 1] by {0} and a refusal with 5: the standard empty under 5; of the same and one with 21: the
    // same under 21 (it is the standard empty).
    pub fn of(start: Rect, run: Result<Run, Refusal>) -> RunningAnswer
        ensures { result ≡ ran_of start run }
    {
        match run {
            Ok(run) => RunningAnswer {
                refusal: 0,
                accepted: run.accepted,
                value: run.value,
            },
            Err(why) => {
                let refused = Answer::grown(start, Err(why));
                RunningAnswer {
                    refusal: refused.refusal,
                    accepted: 0,
                    value: refused.value,
                }
            }
        }
    }
}

// The running box that starts as `start`, after a call with each point of the list, of which there are at
// most 4,096. A call is growth by the point; a refused one changes nothing, and the next is made.
// Laws: Laws.ran-are, Laws.ran-number, Laws.ran-list-refused, Laws.ran-start-refused, Laws.ran-kept,
// Laws.ran-plain, RunningBox.once-in, RunningBox.point-held, RunningBox.edges-from,
// RunningBox.left_out, RunningBox.run-append.
// Ruled out: of [0, 1] by [0, 1] and the points 0.5, 2, then 1, 4, then 1, -0.5: [0, 1] by [0, 2],
// stopped at the bad point; [0, 1] by [-0.5, 1], without what came before it; 3 accepted (they are 2,
// and [0, 1] by [-0.5, 2]); of [-0, 1] by [-0, 1] and the point 1, 4: [0, 1] by [0, 1] (its bits are
// kept); of the latitudes [NaN, 1] and any points: 0 (it is 1, none accepted, and the standard empty).
#[tactic(auto, using(crate::proofs::Made::refused_run))]
pub fn running(start: Rect, points: &[f64]) -> Result<Run, Refusal>
    ensures { ran_of start result ≡ ran start points.now }
{
    let first = start_of(start, points)?;
    let after = calls(first, points);
    let accepted = points.len() / 2 - after.refused;
    // Where no call was accepted the start is kept, with its bits.
    let value = if accepted == 0 { start } else { after.value };
    Ok(Run { accepted, value })
}
