// The calls with the points of a list on a box that has been read, first to last: growth by a list and the
// running box are both made of them. Most points of a track are held already and are passed over.
ghost use Rattle.std.specs.Prelude.{◌≡◌, ◌+◌, ◌*◌, ◌<◌, length};
ghost use Rattle.s2.specs.Zone.{at};
ghost use Rattle.lists.specs.Points.{point_at};
ghost use Rattle.growth.specs.Devices.{is_on, is_held, Growing, Left, Beyond, AfterCalls};

use consts::{NEG_PI, PI};
use entries::number_at;
use s1::interval::Interval as Circle;
use s2::latlng::LatLng;
use s2::reading::read_point;
use s2::rect::Rect;
use s2::zone;
use std::ops::Range;

// How many of the calls were refused, and the box after all of them.
#[derive(Clone, Copy)]
pub(crate) struct Called {
    pub(crate) refused: usize,
    pub(crate) value: Rect,
}

// Whether the arc, which is not EMPTY, holds the longitude; the longitude is then of size at most PI.
#[tactic(auto, unfolding(crate::specs::Devices::is_on))]
fn is_on(i: Circle, p: f64) -> bool
    ensures { result ≡ is_on i p }
{
    if i.lo <= i.hi {
        (i.lo <= p) & (p <= i.hi)
    } else if i.lo <= p {
        p <= PI
    } else {
        (NEG_PI <= p) & (p <= i.hi)
    }
}

// Whether the box holds the point already, so that a call with it changes nothing.
#[tactic(auto, unfolding(crate::specs::Devices::is_held))]
fn is_held(q: Rect, lat: f64, lng: f64) -> bool
    ensures { result ≡ is_held q (at lat lng) }
{
    (q.lat.lo <= lat) & (lat <= q.lat.hi) & is_on(q.lng, lng)
}

// The next of the points left that the box does not hold already, if there is one. It and those before it
// are no longer left then.
fn beyond(left: &mut Range<usize>, points: &[f64], q: Rect) -> Option<usize>
    requires { Left points.now left.old q }
    ensures { Beyond points.now left.old q left.new result }
{
    while let Some(k) = left.next() {
        if !is_held(q, points[2 * k], points[2 * k + 1]) {
            return Some(k);
        }
    }
    None
}

// The point k of the list. (By indexes alone the compiler would keep the numbers that `beyond` has tested,
// and copy both at each point: two instructions more a point that is held.)
fn point(points: &[f64], k: usize) -> LatLng
    requires { 2 * k + 1 < length points.now }
    ensures { result ≡ point_at points.now (2 * k) }
{
    LatLng {
        lat: number_at(points, 2 * k),
        lng: number_at(points, 2 * k + 1),
    }
}

// The box after a call with each of the whole points. A bad point is counted, and changes nothing. (One
// loop that tests each point and makes its call takes 26 instructions a point that is held, where this takes
// 14; a new iterator for each call takes 40 a bad point, where this takes 32.)
pub(crate) fn calls(start: Rect, points: &[f64]) -> Called
    requires { Growing points.now 0 start }
    ensures { AfterCalls points.now start result }
{
    let mut q = start;
    let mut refused = 0;
    let mut left = 0..points.len() / 2;
    while let Some(k) = beyond(&mut left, points, q) {
        match read_point(point(points, k)) {
            Ok(p) => q = zone::add(q, p),
            Err(_) => refused += 1,
        }
    }
    Called { refused, value: q }
}
