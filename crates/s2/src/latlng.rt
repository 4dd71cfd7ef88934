// A point by its latitude and longitude, in radians.
//
// The original file has no copyright lines of its own; NOTICE has the crate's.
// ported from src/s2/latlng.rs of s2 0.2.0, changed: the record and its validity alone, by value, with
// refusals and with radians for `Angle`.
ghost use Rattle.std.specs.Prelude.{◌≡◌};
ghost use Rattle.consts.specs.Answer.{yes_no_of};
ghost use Rattle.s2.specs.Answers.{is_lat_lng};

use crate::reading::read_point;
use consts::Refusal;

// The latitudes of the poles, PI / 2 and -PI / 2.
pub const NORTH_POLE_LAT: f64 = 1.5707963267948966;

pub const SOUTH_POLE_LAT: f64 = -NORTH_POLE_LAT;

#[repr(C)]
#[derive(Clone, Copy)]
pub struct LatLng {
    pub lat: f64,
    pub lng: f64,
}

impl LatLng {
    // is_valid returns true iff the latitude is from pole to pole and the longitude of size at most PI.
    // A point that is not valid is refused, with no beside the number.
    // Laws: Readings.point-in, Readings.point-bad.
    // Ruled out: of latitude 2, longitude 0: yes; of 0 and -PI: no.
    #[tactic(auto, using(consts::proofs::Codes::code_refuses), unfolding(crate::specs::Answers::is_lat_lng))]
    pub fn is_valid(self) -> Result<bool, Refusal>
        ensures { yes_no_of result ≡ is_lat_lng self }
    {
        read_point(self)?;
        Ok(true)
    }
}
