// Points, latitude then longitude each.
ghost use Rattle.std.specs.Prelude.{◌≡◌, drop, IfOk};
ghost use Rattle.consts.specs.Refusal.{refusal_of};
ghost use Rattle.s2.specs.Reading.{read_point};
ghost use Rattle.lists.specs.Points.{point_at};

use consts::Refusal;
use entries::number_at;
use s2::latlng::LatLng;
use s2::reading::read_point;

// What is left of a list from the number i on, nothing past its end.
pub(crate) fn rest_from(list: &[f64], i: usize) -> &[f64]
    ensures { result.now ≡ drop i list.now }
{
    list.get(i..).unwrap_or(&[])
}

// The point that starts at the number i.
// Laws: PointLists.point-entry, PointLists.past_end.
// Ruled out: of [5, 6] and 0: longitude 5; of [5] and 0: longitude 0 (it is the NaN).
#[tactic(auto, using(crate::proofs::PointLists::point_from))]
pub fn point_at(list: &[f64], i: usize) -> LatLng
    ensures { result ≡ point_at list.now i }
{
    let rest = rest_from(list, i);
    LatLng {
        lat: number_at(rest, 0),
        lng: number_at(rest, 1),
    }
}

// The same as it is read: 3 where it is no point, and past the end of the list there is none.
// Laws: PointLists.point-entry.
// Ruled out: of [0, 1] and 2, past the end: under 0; of [-0, 1] and 0: a -0.
pub fn read_point_at(list: &[f64], i: usize) -> Result<LatLng, Refusal>
    ensures refusal { refusal_of result ≡ (read_point (point_at list.now i)).refusal }
    ensures value { IfOk result (λ v. v ≡ (read_point (point_at list.now i)).value) }
{
    read_point(point_at(list, i))
}
