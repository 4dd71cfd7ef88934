// All that a list of rectangles comes to: the common band, and the common pieces of the longitudes.
ghost use Rattle.std.specs.Prelude.{◌≡◌, IfOk};
ghost use Rattle.consts.specs.Refusal.{refusal_of};
ghost use Rattle.lists.specs.Rects.{rects_of};
ghost use Rattle.lists.specs.Refused.{first_refused};
ghost use Rattle.region.specs.Inside.{Room, IsFound};

use crate::reading::read_arcs;
use arcs::meet;
use consts::Refusal;
use r1::interval::Interval as Line;
use r1::line;
use s1::interval::Interval;

// How many longitude pieces were found, and the common latitude band. None are found where the latitudes have
// nothing in common.
#[derive(Clone, Copy)]
pub(crate) struct Found {
    pub(crate) count: usize,
    pub(crate) lat: Line,
}

// What the list of whole rectangles comes to. Its longitude pieces are the first of `pieces`; the arcs that
// cross the seam are kept in `arcs`.
pub(crate) fn find(
    list: &[f64],
    arcs: &mut [Interval],
    pieces: &mut [Interval],
) -> Result<Found, Refusal>
    requires { Room list.now arcs.old pieces.old }
    ensures refusal { refusal_of result ≡ first_refused (rects_of list.now) }
    ensures found { IfOk result (λ f. IsFound list.now f pieces.new) }
{
    let a = read_arcs(list, arcs)?;
    let lat = a.lat;
    if line::is_empty(lat) {
        return Ok(Found { count: 0, lat });
    }
    let count = meet(&mut arcs[..a.count], pieces, a.lng);
    Ok(Found { count, lat })
}
