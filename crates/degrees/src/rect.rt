// A box in whole ten-millionths of a degree as a rectangle in radians.
ghost use Rattle.std.specs.Prelude.{◌≡◌};
ghost use Rattle.s2.specs.Answers.{rectangle_of};
ghost use Rattle.degrees.specs.Degrees.{degrees, radians, rect_of, to_rect};

use crate::angle::from_degrees;
use bounds::{Bounds, can_give};
use consts::Refusal;
use r1::interval::Interval as Line;
use s1::interval::Interval as Circle;
use s2::rect::Rect;

// Ten-millionths in a degree.
const TEN_MILLION: f64 = 10000000.0;

// A whole number of ten-millionths as the nearest double of its degrees.
#[tactic(auto, unfolding(crate::specs::Degrees::degrees))]
fn degrees_of(w: i64) -> f64
    ensures { result ≡ degrees w }
{
    std::num::nearest_i64_to_f64(w) / TEN_MILLION
}

// A whole number of ten-millionths of a degree in radians.
// Laws: Angles.east, Angles.west, Angles.north, Angles.south, Angles.none; Rises.rises,
// Rises.one-to-one.
// Ruled out: of -1,800,000,000: anything but -PI; of 1: what 2 has; of 3: 3E367D07881BB1EA (by a
// product with 1/10^7).
#[tactic(auto, unfolding(crate::specs::Degrees::radians))]
pub fn radians_of(w: i64) -> f64
    ensures { result ≡ radians w }
{
    from_degrees(degrees_of(w))
}

// The four numbers in radians, south to north and west to east.
#[tactic(auto, unfolding(crate::specs::Degrees::rect_of))]
fn rect_of(b: Bounds) -> Rect
    ensures { result ≡ rect_of b }
{
    let south = radians_of(b.south);
    let north = radians_of(b.north);
    let west = radians_of(b.west);
    let east = radians_of(b.east);
    let lat = Line {
        lo: south,
        hi: north,
    };
    let lng = Circle { lo: west, hi: east };
    Rect { lat, lng }
}

// The rectangle of a box that reading can give; any other is refused.
// Laws: Boxes.is-valid, Boxes.not-empty, Boxes.latitudes, Boxes.seam, Boxes.read_back,
// Boxes.same-box, Boxes.refused.
// Ruled out: of [180, 0, 180, 1]: EMPTY longitudes; of [0, 0, -180, 0]: a rectangle, under 0.
#[tactic(auto, unfolding(crate::specs::Degrees::to_rect))]
pub fn to_rect(b: Bounds) -> Result<Rect, Refusal>
    ensures { rectangle_of result ≡ to_rect b }
{
    if can_give(b) {
        Ok(rect_of(b))
    } else {
        Err(Refusal::BadBox)
    }
}
