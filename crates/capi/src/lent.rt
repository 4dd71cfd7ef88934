// Lent lists and the lent box: the common region of a list of rectangles, growth by a list of points, the
// running box by value, and the scan worker. A list is a pointer and a count of numbers: four a rectangle,
// lat.lo, lat.hi, lng.lo, lng.hi; two a point, latitude, longitude.
//
// The running box is lent as its four numbers in the same order (the crate `c_records`).
ghost use Rattle.std.specs.Prelude.{◌≡◌};
ghost use Rattle.s2.specs.Answers.{add};
ghost use Rattle.region.specs.Answers.{Promised};
ghost use Rattle.growth.specs.Growth.{grow, ran};
ghost use Rattle.c_records.specs.Boxes.{box_of, Stored};

use c_records::{CRefusal, box_of, keep};
use growth::{RunningAnswer, grow, running};
use region::{Pieces, common_region};
use s2::latlng::LatLng;
use s2::rect::{Answer, Rect};

// The common region of the rectangles in `list`, to the start of `out`.
#[unsafe(no_mangle)]
pub extern "C" fn sjurnabel_common_region(list: &[f64], out: &mut [f64]) -> Pieces
    ensures { Promised list.now out.old result out.new }
{
    Pieces::from(common_region(list, out))
}

// The rectangle grown by all the points of the list.
#[unsafe(no_mangle)]
pub extern "C" fn sjurnabel_grow(a: Rect, points: &[f64]) -> Answer
    ensures { result ≡ grow a points.now }
{
    Answer::grown(a, grow(a, points))
}

// The running box that starts as a, after a call with each point of the list.
#[unsafe(no_mangle)]
pub extern "C" fn sjurnabel_running(a: Rect, points: &[f64]) -> RunningAnswer
    ensures { result ≡ ran a points.now }
{
    RunningAnswer::of(a, running(a, points))
}

// Enlarges the running box by a point.
#[unsafe(no_mangle)]
pub extern "C" fn sjurnabel_scan_point(b: &mut [f64; 4], p: LatLng) -> CRefusal
    ensures { Stored b.old (add (box_of b.old) p) result b.new }
{
    let r = box_of(b);
    keep(b, Answer::grown(r, r.add(p)))
}

// Enlarges the running box by a list of points: one bad point leaves the box.
#[unsafe(no_mangle)]
pub extern "C" fn sjurnabel_scan_list(b: &mut [f64; 4], points: &[f64]) -> CRefusal
    ensures { Stored b.old (grow (box_of b.old) points.now) result b.new }
{
    let r = box_of(b);
    keep(b, Answer::grown(r, grow(r, points)))
}
