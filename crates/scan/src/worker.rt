// The scan worker: it keeps one running box, and each point enlarges that same box. It calls growth by
// value and stores what that answers, but only where it is accepted: a refusal leaves every bit of the box as it is.
ghost use Rattle.std.specs.Prelude.{◌≡◌};
ghost use Rattle.consts.specs.Refusal.{refusal_of};
ghost use Rattle.s2.specs.Zone.{at};
ghost use Rattle.scan.specs.Scan.{enlarge, enlarge_all};

use consts::Refusal;
use growth::grow;
use s2::latlng::LatLng;
use s2::rect::Rect;

// Enlarges the running box by a point, or answers growth's refusal.
// Laws: Laws.point-refused, Laws.point-accepted, Laws.calls-run.
// Ruled out: of [0, 1] by [0, 1] and the point 0.5, 2: accepted, and the box as it was; of [0, 2] by {0},
// which is not valid, and a point: 21, and the standard empty in the box.
#[tactic(auto, using(crate::proofs::Boxes::point_out))]
pub fn enlarge(b: &mut Rect, lat: f64, lng: f64) -> Result<(), Refusal>
    ensures { (refusal_of result ≡ (enlarge b.old (at lat lng)).refusal) × (b.new ≡ (enlarge b.old (at lat lng)).value) }
{
    *b = b.add(LatLng { lat, lng })?;
    Ok(())
}

// Enlarges the running box by a list of points, or answers growth's refusal: one bad point leaves the box.
// Laws: Laws.list-refused, Laws.list-accepted, Laws.list-runs.
// Ruled out: of [0, 1] by [0, 1] and the points 0.5, 2 and 1, 4: 3, and [0, 1] by [0, 2] in the
// box; by the first point alone: accepted, and the box as it was.
#[tactic(auto, using(crate::proofs::Boxes::list_out))]
pub fn enlarge_all(b: &mut Rect, points: &[f64]) -> Result<(), Refusal>
    ensures { (refusal_of result ≡ (enlarge_all b.old points.now).refusal) × (b.new ≡ (enlarge_all b.old points.now).value) }
{
    *b = grow(*b, points)?;
    Ok(())
}
