// One record of the stream: the mark 52 31, then lat.lo, lat.hi, lng.lo, lng.hi as little-endian doubles.
ghost use Rattle.std.specs.Prelude.{◌≡◌, ◌+◌, ◌≤◌, length};
ghost use Rattle.record.specs.Records.{is_mark, double_at, rect_of, whole_record, record_number, IsRecord};

use consts::Refusal;
use r1::interval::Interval as Line;
use s1::interval::Interval as Circle;
use s2::reading::read_one;
use s2::rect::Rect;

// How many bytes a record has.
const SIZE: usize = 34;

// Document 01's number for a record.
// Laws: Records.whole-number, Records.short-refused, Records.mark-refused.
// Ruled out: of a rectangle: 7; of a refusal by 22: 0.
#[tactic(auto, unfolding(crate::specs::Records::record_number))]
pub fn number_of(x: Result<Rect, Refusal>) -> u8
    ensures { result ≡ record_number x }
{
    match x {
        Ok(_) => 0,
        Err(why) => why.into(),
    }
}

// Whether two bytes are the mark.
#[tactic(auto, unfolding(crate::specs::Records::is_mark))]
fn is_mark(a: u8, b: u8) -> bool
    ensures { result ≡ is_mark a b }
{
    (a == 0x52) & (b == 0x31)
}

// The double at a place, its bytes the lowest first. A NaN's pattern is the NaN's, and never a double's.
#[tactic(auto, using(crate::proofs::Records::joined_is), unfolding(crate::specs::Records::double_at, crate::specs::Records::word_at))]
fn double_at(s: &[u8], at: usize) -> f64
    requires { at + 8 ≤ length s.now }
    ensures { result ≡ double_at s.now at }
{
    bits::from_pattern(u64::from_le_bytes([
        s[at],
        s[at + 1],
        s[at + 2],
        s[at + 3],
        s[at + 4],
        s[at + 5],
        s[at + 6],
        s[at + 7],
    ]))
}

// The rectangle of a whole record.
#[tactic(auto, unfolding(crate::specs::Records::rect_of))]
fn rect_of(s: &[u8]) -> Rect
    requires { 34 ≤ length s.now }
    ensures { result ≡ rect_of s.now }
{
    Rect {
        lat: Line {
            lo: double_at(s, 2),
            hi: double_at(s, 10),
        },
        lng: Circle {
            lo: double_at(s, 18),
            hi: double_at(s, 26),
        },
    }
}

// Whether a whole record with a right mark stands at the start of s.
// Laws: Records.short-refused, Records.mark-refused.
// Ruled out: of 33 bytes that begin with the mark: yes; of 34 bytes with the mark 31 52: yes.
#[tactic(auto, unfolding(crate::specs::Records::whole_record))]
pub fn is_record(s: &[u8]) -> bool
    ensures { result ≡ whole_record s.now }
{
    s.len() >= SIZE && is_mark(s[0], s[1])
}

// The record that stands at the start of s: document 01's number and values for these bytes, which no other
// record has (one-record).
// Laws: Records.short-refused, Records.mark-refused, Records.whole-number, Records.taken-values,
// Records.no-values, Records.record-plain, Records.one-record.
// Ruled out: of 33 bytes that begin with the mark: a rectangle; of a record whose mark is 31 52: a
// rectangle (both are refused with 7); of a record of [0, 1] by [-0, 1]: [0, 1] by [-0, 1] (its
// west is 0).
#[tactic(auto, using(crate::proofs::Records::whole_long, crate::proofs::Records::is_read), unfolding(crate::specs::Records::number_of, crate::specs::Records::values_of, crate::specs::Records::record_number, crate::specs::Records::record_values))]
pub fn read_record(s: &[u8]) -> Result<Rect, Refusal>
    ensures { IsRecord s.now result }
{
    if is_record(s) {
        return read_one(rect_of(s));
    }
    Err(Refusal::BadRecord)
}
