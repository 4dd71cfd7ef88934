// Writes a box as a bbox array into a lent text: fewest digits, no spaces, never "-0". The text is made in
// a local of 64 bytes first, since only then is its length known; the longest has 51.
ghost use Rattle.std.specs.Prelude.{◌≡◌, true, ◌+◌, ◌≤◌, ◌<◌, ◌++◌, nat_abs, length};
ghost use Rattle.text.specs.Text.{decimal_text};
ghost use Rattle.text.specs.Answers.{written_of};
ghost use Rattle.bounds.specs.Bounds.{givable};
ghost use Rattle.bbox_text.specs.Text.{decimals, frac_text, size_text, number_text, element_text, text_of, wrote_box, left_box};

use arrayvec::ArrayVec;
use bounds::{Bounds, can_give};
use consts::Refusal;
use text::write_text;

// A text that is being made.
type Text = ArrayVec<u8, 64>;

// A decimal digit. (By hand, as in `text`: no contract of a `write!` says which bytes it gave.)
fn glyph(d: u64) -> u8
    requires { d < 10 }
    ensures { result ≡ 48 + d }
{
    b'0' + d as u8
}

// One to three digits.
#[tactic(auto, unfolding(text::specs::Text::decimal_text, text::specs::Text::hex_digit))]
fn put_whole(t: &mut Text, w: u64)
    requires { (w < 1000) × (length t.old.items + length (decimal_text w) ≤ 64) }
    ensures { t.new.items ≡ t.old.items ++ decimal_text w }
{
    match w {
        0..=9 => t.push(glyph(w)),
        10..=99 => {
            t.push(glyph(w / 10));
            t.push(glyph(w % 10));
        }
        _ => {
            t.push(glyph(w / 100));
            t.push(glyph(w / 10 % 10));
            t.push(glyph(w % 10));
        }
    }
}

// At most seven decimals, without the zeros at their end: each place takes what the places before it leave.
#[tactic(auto, using(crate::proofs::Grown::unit_above, crate::proofs::Grown::unit_fits, crate::proofs::Grown::digit_under))]
fn put_decimals(t: &mut Text, f: u64)
    requires { (f < 10000000) × (length t.old.items + length (decimals 7 f) ≤ 64) }
    ensures { t.new.items ≡ t.old.items ++ decimals 7 f }
{
    let mut rest = f;
    for k in (0..7).rev() {
        if rest == 0 {
            return;
        }
        let unit = 10u64.pow(k);
        t.push(glyph(rest / unit));
        rest %= unit;
    }
}

// A point and the decimals, or nothing for a whole number of degrees.
#[tactic(auto, unfolding(crate::specs::Text::frac_text))]
fn put_fraction(t: &mut Text, f: u64)
    requires { (f < 10000000) × (length t.old.items + length (frac_text f) ≤ 64) }
    ensures { t.new.items ≡ t.old.items ++ frac_text f }
{
    if f > 0 {
        t.push(b'.');
        put_decimals(t, f);
    }
}

// A size of so many ten-millionths: whole degrees, then decimals.
#[tactic(auto, unfolding(crate::specs::Text::size_text))]
fn put_size(t: &mut Text, size: u64)
    requires { (size < 10000000000) × (length t.old.items + length (size_text size) ≤ 64) }
    ensures { t.new.items ≡ t.old.items ++ size_text size }
{
    put_whole(t, size / 10000000);
    put_fraction(t, size % 10000000);
}

// A number with the fewest digits, in 12 bytes at most. Zero has no minus.
fn put_number(t: &mut Text, z: i64)
    requires { (nat_abs z < 10000000000) × (length t.old.items ≤ 52) }
    ensures text { t.new.items ≡ t.old.items ++ number_text z }
    ensures bound { length t.new.items ≤ length t.old.items + 12 }
{
    let minus = z < 0;
    if minus {
        t.push(b'-');
    }
    put_size(t, z.unsigned_abs());
}

// A number and the mark after it.
#[tactic(auto, unfolding(crate::specs::Text::element_text))]
fn put_element(t: &mut Text, z: i64, mark: u8)
    requires { (nat_abs z < 10000000000) × (length t.old.items ≤ 51) }
    ensures text { t.new.items ≡ t.old.items ++ element_text z mark }
    ensures bound { length t.new.items ≤ length t.old.items + 13 }
{
    put_number(t, z);
    t.push(mark);
}

// The text of a box that reading can give.
#[tactic(auto, using(crate::proofs::Room::box_sizes), unfolding(crate::specs::Text::text_of))]
fn text_of(b: Bounds) -> Text
    requires { givable b ≡ true }
    ensures { result.items ≡ text_of b }
{
    let mut t = ArrayVec::new();
    t.push(b'[');
    put_element(&mut t, b.west, b',');
    put_element(&mut t, b.south, b',');
    put_element(&mut t, b.east, b',');
    put_element(&mut t, b.north, b']');
    t
}

// Writes a box at the start of out: 9 for a box that reading cannot give, then 6 where out is too short.
// A refused writing writes nothing, and the bytes after the text stay.
// Laws: bbox.Round.round_trip, bbox.Round.fewest, bbox.Round.same_text; Written.array_written,
// Written.minus-below, Written.no-minus-zero; Answers.box-stands, Answers.box-unaltered,
// Answers.enough; Room.longest.
// Ruled out: of [0, 0, 0, 0]: `[-0,0,0,0]`; of west 0.5: `[0.50,..`; of west 0.0000001: `[0,..`; of
// east -180: any text.
#[tactic(auto, unfolding(crate::specs::Text::wrote_box, crate::specs::Text::left_box))]
pub fn write(b: Bounds, out: &mut [u8]) -> Result<usize, Refusal>
    ensures value { written_of result ≡ wrote_box b (length out.old) }
    ensures out_after { out.new ≡ left_box b out.old }
{
    if can_give(b) {
        return write_text(text_of(b).as_slice(), out);
    }
    Err(Refusal::BadBox)
}
