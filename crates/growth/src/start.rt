// What is looked at before the points of a list: its length, then the rectangle that they start from.
ghost use Rattle.s2.specs.Answers.{grown_of};
ghost use Rattle.growth.specs.Devices.{Started};

use consts::Refusal;
use entries::whole;
use s2::reading::read_one;
use s2::rect::Rect;

// The start as it is read. A list that is not of whole points or too long is refused before all else.
pub(crate) fn start_of(r: Rect, points: &[f64]) -> Result<Rect, Refusal>
    ensures { Started r points.now (grown_of r result) }
{
    if !whole(points.len(), 2, 4096) {
        return Err(Refusal::BadList);
    }
    read_one(r)
}
