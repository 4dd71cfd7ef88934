// Writes what document 01 gives the program `common` to write: `pieces N` and a line a piece, four bit
// patterns in 16 upper-case hexadecimal digits with single spaces; or only `refused N`. A refusal is told
// with its place in two ways: `refused N at K`, K the number of a list's entry, counted from zero; and, by
// a program that reads lines, `refused N at line L`, L counted from 1. Every line ends with a newline. Each
// private writer puts one text at the start of what it is lent, and its contract says which.
ghost use Rattle.std.specs.Prelude.{◌≡◌, ◌+◌, ◌*◌, ◌<◌, ◌≤◌, ◌%◌, length, OnOk, IfErr};
ghost use Rattle.consts.specs.Refusal.{number, no_room, code};
ghost use Rattle.text.specs.Text.{number_text, word_text, lines_text, decimal_text, head_text, pieces_text, refused_where};
ghost use Rattle.text.specs.Inside.{onto};
ghost use Rattle.text.specs.Answers.{written_of, wrote, left, wrote_pieces, left_pieces, wrote_refusal, left_refusal, wrote_at, left_at};
ghost use Rattle.text.specs.Answers.{wrote_refusal_at, left_refusal_at, wrote_refusal_at_line, left_refusal_at_line};

use bits::pattern;
use consts::Refusal;

// Puts a text at the start.
fn put_text(s: &[u8], out: &mut [u8])
    requires { length s.now ≤ length out.old }
    ensures { out.new ≡ onto s.now out.old }
{
    out[..s.len()].copy_from_slice(s);
}

// Puts a number's bit pattern, in upper-case digits.
#[tactic(auto, using(crate::proofs::Puts::encoded_number))]
fn put_number(x: f64, out: &mut [u8])
    requires { 16 ≤ length out.old }
    ensures { out.new ≡ onto (number_text x) out.old }
{
    let mut digits = [0u8; 16];
    let _ = hex::encode_to_slice(pattern(x).to_be_bytes(), &mut digits);
    digits.make_ascii_uppercase();
    out[..16].copy_from_slice(&digits);
}

// Puts a number and the mark after it.
#[tactic(auto, using(crate::proofs::Puts::onto_byte, crate::proofs::Lengths::sizes), unfolding(crate::specs::Text::word_text))]
fn put_word(x: f64, mark: u8, out: &mut [u8])
    requires { 17 ≤ length out.old }
    ensures { out.new ≡ onto (word_text x mark) out.old }
{
    put_number(x, out);
    out[16] = mark;
}

// Puts the line of a piece.
fn put_line(piece: &[f64; 4], out: &mut [u8])
    requires { 68 ≤ length out.old }
    ensures { out.new ≡ onto (lines_text piece.now) out.old }
{
    put_word(piece[0], b' ', out);
    put_word(piece[1], b' ', &mut out[17..]);
    put_word(piece[2], b' ', &mut out[34..]);
    put_word(piece[3], b'\n', &mut out[51..]);
}

// Puts a line a piece; a line takes 68 bytes.
#[tactic(auto, unfolding(crate::specs::Text::lines_text))]
fn put_lines(list: &[f64], out: &mut [u8])
    requires { (length list.now % 4 ≡ 0) × (17 * length list.now ≤ length out.old) }
    ensures { out.new ≡ onto (lines_text list.now) out.old }
{
    let (pieces, _) = list.as_chunks::<4>();
    for (i, piece) in pieces.iter().enumerate() {
        put_line(piece, &mut out[68 * i..]);
    }
}

// How many digits a number under 1,000 has in decimal.
#[tactic(auto, unfolding(crate::specs::Text::decimal_text))]
fn width(n: u64) -> usize
    requires { n < 1000 }
    ensures value { result ≡ length (decimal_text n) }
    ensures upper_bound { result ≤ 3 }
{
    match n {
        0..=9 => 1,
        10..=99 => 2,
        _ => 3,
    }
}

// Puts a number under 1,000 in decimal.
#[tactic(auto, using(crate::proofs::Puts::decimal_digits))]
fn put_decimal(n: u64, out: &mut [u8])
    requires { (n < 1000) × (length (decimal_text n) ≤ length out.old) }
    ensures { out.new ≡ onto (decimal_text n) out.old }
{
    let mut digits = [0u8; 20];
    let count = io::decimal(n, &mut digits);
    put_text(&digits[..count], out);
}

// Puts a line that ends with a number: a name, a number under 1,000 and the newline.
fn put_head(name: &[u8], n: u64, out: &mut [u8])
    requires { (n < 1000) × (length name.now + length (decimal_text n) < length out.old) }
    ensures { out.new ≡ onto (head_text name.now n) out.old }
{
    put_text(name, out);
    put_decimal(n, &mut out[name.len()..]);
    out[name.len() + width(n)] = b'\n';
}

// Refuses an output that has no room for so many bytes.
fn test_room(count: usize, out: &[u8]) -> Result<(), Refusal>
    ensures room { OnOk result (count ≤ length out.now) }
    ensures none { IfErr result (λ r. (length out.now < count) × (code r ≡ number no_room)) }
{
    if out.len() < count {
        return Err(Refusal::NoRoom);
    }
    Ok(())
}

// Writes a list of whole pieces; that there is room is known before the first byte is put.
#[tactic(auto, using(crate::proofs::Lengths::sizes), unfolding(crate::specs::Answers::wrote, crate::specs::Answers::left))]
fn write_whole(list: &[f64], out: &mut [u8]) -> Result<usize, Refusal>
    requires { (length list.now % 4 ≡ 0) × (length list.now ≤ 2048) }
    ensures value { written_of result ≡ wrote (pieces_text list.now) (length out.old) }
    ensures out_after { out.new ≡ left (pieces_text list.now) out.old }
{
    let n = list.len();
    let pieces = (n / 4) as u64;
    let head = 8 + width(pieces);
    let count = head + 17 * n;
    test_room(count, out)?;
    put_head(b"pieces ", pieces, out);
    put_lines(list, &mut out[head..]);
    Ok(count)
}

// The pieces in `list`, four numbers each, to the start of `out`. A refusal writes nothing.
// Laws: Laws.stands, Laws.unaltered, Laws.enough; Digits.number-reads, Digits.same_number,
// Digits.decimal-reads; Examples.two-pieces.
// Ruled out: of two pieces: `pieces 1` and their lines; of two pieces: digits in lower case; of
// five numbers: one line, under 0.
#[tactic(auto, unfolding(crate::specs::Answers::wrote_pieces, crate::specs::Answers::left_pieces, entries::specs::Lists::whole_length))]
pub fn write_pieces(list: &[f64], out: &mut [u8]) -> Result<usize, Refusal>
    ensures value { written_of result ≡ wrote_pieces list.now (length out.old) }
    ensures out_after { out.new ≡ left_pieces list.now out.old }
{
    if entries::whole(list.len(), 4, 512) {
        return write_whole(list, out);
    }
    Err(Refusal::BadList)
}

// The refusal number n to the start of `out`. Where there is no room, nothing is written. Here and below n is
// a u8 and not a `Refusal`, since the contracts and the laws hold of every number.
// Laws: Laws.refusal-stands, Laws.refusal-unaltered, Laws.refusal-enough; Examples.refused-seven.
// Ruled out: of 7: `refused 7` without its newline; of 7, with room for nine bytes: those nine
// bytes changed.
#[tactic(auto, using(crate::proofs::Lengths::sizes), unfolding(crate::specs::Answers::wrote_refusal, crate::specs::Answers::left_refusal, crate::specs::Answers::wrote, crate::specs::Answers::left, crate::specs::Text::refused_text))]
pub fn write_refusal(n: u8, out: &mut [u8]) -> Result<usize, Refusal>
    ensures value { written_of result ≡ wrote_refusal n (length out.old) }
    ensures out_after { out.new ≡ left_refusal n out.old }
{
    let n = u64::from(n);
    let count = 9 + width(n);
    test_room(count, out)?;
    put_head(b"refused ", n, out);
    Ok(count)
}

// Any text to the start of `out`. Where there is no room, nothing is written.
// Laws: Laws.text-stands, Laws.text-unaltered.
// Ruled out: of `ab`, with room for one byte: 1 byte, and that byte `a`; of `ab`, with room for
// three: the third byte changed.
#[tactic(auto, unfolding(crate::specs::Answers::wrote, crate::specs::Answers::left))]
pub fn write_text(s: &[u8], out: &mut [u8]) -> Result<usize, Refusal>
    ensures value { written_of result ≡ wrote s.now (length out.old) }
    ensures out_after { out.new ≡ left s.now out.old }
{
    let count = s.len();
    test_room(count, out)?;
    put_text(s, out);
    Ok(count)
}

// The refusal number n, the words between and the number of a place, where all of them fit: a place of more
// than three digits is refused.
#[tactic(auto, using(crate::proofs::Lengths::sizes), unfolding(crate::specs::Answers::wrote, crate::specs::Answers::left))]
fn write_where(n: u8, words: &[u8], place: u64, out: &mut [u8]) -> Result<usize, Refusal>
    requires { length words.now ≤ 9 }
    ensures value { written_of result ≡ wrote_at (refused_where words.now n place) place (length out.old) }
    ensures out_after { out.new ≡ left_at (refused_where words.now n place) place out.old }
{
    if place >= 1000 {
        return Err(Refusal::BadList);
    }
    let at = 8 + width(n as u64);
    let count = at + words.len() + width(place) + 1;
    test_room(count, out)?;
    put_text(b"refused ", out);
    put_decimal(n as u64, &mut out[8..]);
    put_head(words, place, &mut out[at..]);
    Ok(count)
}

// The refusal number n and the entry of a list that has the fault, counted from zero, to the start of
// `out`: an entry's number of more than three digits is refused. Where there is no room, nothing is written.
// Laws: Laws.refusal-at-stands, Laws.refusal-at-unaltered; Examples.refused-at-seventeen.
// Ruled out: of 22 and 17: `refused 22 at 71`, or `refused 22 at line 17`; of 22 and 1,000:
// `refused 22 at 000` (it is refused with 5).
#[tactic(auto, unfolding(crate::specs::Answers::wrote_refusal_at, crate::specs::Answers::left_refusal_at, crate::specs::Text::refused_at_text))]
pub fn write_refusal_at(n: u8, entry: u64, out: &mut [u8]) -> Result<usize, Refusal>
    ensures value { written_of result ≡ wrote_refusal_at n entry (length out.old) }
    ensures out_after { out.new ≡ left_refusal_at n entry out.old }
{
    write_where(n, b" at ", entry, out)
}

// The refusal number n and the line that it stands on, counted from 1, to the start of `out`: a line number
// of more than three digits is refused. Where there is no room, nothing is written.
// Laws: Laws.refusal-at-line-stands, Laws.refusal-at-line-unaltered; Examples.refused-at-line-twelve.
// Ruled out: of 8 and 12: `refused 8 at line 21`, or `refused 8 at 12`; of 8 and 1,000:
// `refused 8 at line 000` (it is refused with 5).
#[tactic(auto, unfolding(crate::specs::Answers::wrote_refusal_at_line, crate::specs::Answers::left_refusal_at_line, crate::specs::Text::refused_at_line_text))]
pub fn write_refusal_at_line(n: u8, line: u64, out: &mut [u8]) -> Result<usize, Refusal>
    ensures value { written_of result ≡ wrote_refusal_at_line n line (length out.old) }
    ensures out_after { out.new ≡ left_refusal_at_line n line out.old }
{
    write_where(n, b" at line ", line, out)
}
