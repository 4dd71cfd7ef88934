// The refusals of documents 01 and 02 (specs/Refusal.antt has what each means), and the number of each.
ghost use Rattle.std.specs.Prelude.{◌≡◌, cond};
ghost use Rattle.consts.specs.Refusal.{number, accepted, first_fault, code, refusal_of};

use std::error::Error;
use std::fmt;

// Why something is refused, with the number that document 01 or 02 has for it. 0 is no refusal.
#[derive(Clone, Copy, Debug, PartialEq, Eq, Hash)]
pub enum Refusal {
    OutOfReach = 1,
    BadPoint = 3,
    BadMargin = 4,
    BadList = 5,
    NoRoom = 6,
    BadRecord = 7,
    BadText = 8,
    BadBox = 9,
    BadLatitude = 21,
    BadCircle = 22,
    HalfEmpty = 23,
}

// Laws: Codes.refuses, Codes.same_code.
// Ruled out: of BadCircle: 2 (it is 22); of BadMargin: 40 (it is 4); of OutOfReach: 0, which is no refusal's.
impl From<Refusal> for u8 {
    ghost from_gives = { λ r n. n ≡ code r };

    fn from(r: Refusal) -> u8 {
        r as u8
    }
}

impl fmt::Display for Refusal {
    fn fmt<W: fmt::Write>(&self, f: &mut fmt::Formatter<W>) -> fmt::Result {
        f.write_str(match self {
            Refusal::OutOfReach => "a number out of reach",
            Refusal::BadPoint => "not a valid point",
            Refusal::BadMargin => "a margin, size, error or angle out of range",
            Refusal::BadList => "too many records, or one cut short",
            Refusal::NoRoom => "too little room for the answer",
            Refusal::BadRecord => "not a stream of whole records",
            Refusal::BadText => "not a bbox array",
            Refusal::BadBox => "a box out of range, or not as reading gives it",
            Refusal::BadLatitude => "a latitude beyond a pole",
            Refusal::BadCircle => "not a valid interval of longitudes",
            Refusal::HalfEmpty => "latitudes or longitudes empty, but not both",
        })
    }
}

impl Error for Refusal {}

// The refusal, unless the test holds.
fn unless(holds: bool, why: Refusal) -> Result<(), Refusal>
    ensures { refusal_of result ≡ cond holds (number accepted) (code why) }
{
    if holds { Ok(()) } else { Err(why) }
}

// Why a rectangle whose numbers are in reach is not valid: of the three tests of validity, that of its
// latitudes, of its circle interval and of its parts, the first that does not hold decides.
// Laws: s2.Promises.alone-refused, s2.Promises.three-faults.
// Ruled out: of no, no and no: 22 or 23; of yes, no and no: 23, or 2; of yes, yes and yes: 23.
#[tactic(auto, unfolding(crate::specs::Refusal::first_fault))]
pub fn first_fault(latitudes: bool, circle: bool, parts: bool) -> Result<(), Refusal>
    ensures { refusal_of result ≡ first_fault latitudes circle parts }
{
    unless(latitudes, Refusal::BadLatitude)?;
    unless(circle, Refusal::BadCircle)?;
    unless(parts, Refusal::HalfEmpty)
}
