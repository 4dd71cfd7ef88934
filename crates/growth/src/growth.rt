// Growth by a lent list of points, latitude then longitude each, by value: the calls of the running box, where
// one bad point refuses the whole list. What C is handed back under a refusal is `s2::rect::Answer::grown`.
ghost use Rattle.std.specs.Prelude.{◌≡◌};
ghost use Rattle.s2.specs.Answers.{grown_of};
ghost use Rattle.growth.specs.Growth.{grow};

use crate::calls::calls;
use crate::start::start_of;
use consts::Refusal;
use s2::rect::Rect;

// The rectangle grown by all the points of the list, of which there are at most 4,096.
// Laws: Laws.accepted-is, Laws.accepted-exactly, Laws.growth-runs, Laws.growth-holds, Laws.one-point,
// Laws.list-refused, Laws.start-refused, Laws.bad-point.
// Ruled out: of [0, 1] by [0, 1] and the points 0.5, 2 and 1, -0.5: [0, 1] by [0, 2], grown by the
// first alone; of the same start and the points 0.5, 2 and 1, 4: [0, 1] by [0, 2] under 3 (the
// start comes back).
#[tactic(auto, using(crate::proofs::Made::refused_grow))]
pub fn grow(r: Rect, points: &[f64]) -> Result<Rect, Refusal>
    ensures { grown_of r result ≡ grow r points.now }
{
    let start = start_of(r, points)?;
    let after = calls(start, points);
    if after.refused != 0 {
        return Err(Refusal::BadPoint);
    }
    Ok(after.value)
}
