// Reads a bbox array from a lent text: RFC 7946's four numbers, between JSON's spaces.
ghost use Rattle.std.specs.Prelude.{◌≡◌, ◌<◌, ◌≤◌, length};
ghost use Rattle.std.specs.List.{prefix_len};
ghost use Rattle.bbox_text.specs.Grammar.{is_space};
ghost use Rattle.bbox.specs.Reading.{spaces_of, reading_of, element_of, numbers_of, four_of, answer_of, read_of};

use crate::number::{byte, number};
use bounds::{Bounds, is_in_limits, place};
use consts::Refusal;

// What reading gives, as C has it: 0 and the box, or a refusal and four zeros.
#[repr(C)]
#[derive(Clone, Copy)]
pub struct Answer {
    pub refusal: u8,
    pub value: Bounds,
}

// Laws: none of its own.
// Ruled out: of [1, 2, 3, 4]: [2, 1, 3, 4]; of a refusal with 9: [1, 0, 0, 0] under 9; of the same: four zeros under 0.
impl From<Result<Bounds, Refusal>> for Answer {
    ghost from_gives = { λ r y. y ≡ answer_of r };

    fn from(r: Result<Bounds, Refusal>) -> Answer {
        match r {
            Ok(value) => Answer { refusal: 0, value },
            Err(why) => Answer {
                refusal: why.into(),
                value: Bounds {
                    west: 0,
                    south: 0,
                    east: 0,
                    north: 0,
                },
            },
        }
    }
}

// JSON's four spaces.
#[tactic(auto, unfolding(bbox_text::specs::Grammar::is_space))]
fn is_space(b: u8) -> bool
    ensures { result ≡ is_space b }
{
    matches!(b, b' ' | b'\t' | b'\n' | b'\r')
}

// How many spaces a text begins with.
fn leading_spaces(s: &[u8]) -> usize
    ensures value { result ≡ prefix_len is_space s.now }
    ensures bound { result ≤ length s.now }
{
    s.iter().take_while(|b| is_space(**b)).count()
}

// The position after the spaces at a position.
#[tactic(auto, using(crate::proofs::Positions::skipped, crate::proofs::Positions::space_end))]
fn spaces(s: &[u8], at: usize) -> usize
    ensures { result ≡ spaces_of s.now at }
{
    if at < s.len() {
        at + leading_spaces(&s[at..])
    } else {
        at
    }
}

// A number between spaces, with the mark that ends it, and the position after the mark.
#[tactic(auto, unfolding(crate::specs::Reading::element_of, crate::specs::Reading::mark_of))]
fn element(s: &[u8], at: usize, mark: u8) -> Option<(i64, usize)>
    requires { 0 < mark }
    ensures { reading_of result ≡ element_of s.now at mark }
{
    let (degrees, next) = number(s, spaces(s, at))?;
    let end = spaces(s, next);
    if byte(s, end) != mark {
        return None;
    }
    Some((degrees, end + 1))
}

// The four numbers of a text.
#[tactic(auto, unfolding(crate::specs::Reading::four_of, crate::specs::Reading::then_of))]
fn four_at(s: &[u8]) -> Option<Bounds>
    ensures { numbers_of result ≡ four_of s.now }
{
    let open = spaces(s, 0);
    if byte(s, open) != b'[' {
        return None;
    }
    let (west, a) = element(s, open + 1, b',')?;
    let (south, b) = element(s, a, b',')?;
    let (east, c) = element(s, b, b',')?;
    let (north, d) = element(s, c, b']')?;
    if spaces(s, d) < s.len() {
        return None;
    }
    Some(Bounds {
        west,
        south,
        east,
        north,
    })
}

// Reads a bbox array: 8 for bad text, then 9 for a number out of range or the south above the north.
// Laws: over the grammar, `Array`: Exactly.read-array, Exactly.bad-text, Exactly.bad-text-only,
// Exactly.one-meaning; Given.accepted-is, Given.reads-given, Given.zeros.
// Ruled out: of `[01,0,0,0]`: a box; of `[-180,0,0,0]`: west -180; of `[0,91,0,0`: 9 (it is 8: the
// whole text first); of `[0,1,0,0]`: a box.
#[tactic(auto, unfolding(crate::specs::Reading::read_of, crate::specs::Reading::judged_of))]
pub fn read(s: &[u8]) -> Result<Bounds, Refusal>
    ensures { answer_of result ≡ read_of s.now }
{
    let b = four_at(s).ok_or(Refusal::BadText)?;
    if is_in_limits(b) {
        Ok(place(b))
    } else {
        Err(Refusal::BadBox)
    }
}
