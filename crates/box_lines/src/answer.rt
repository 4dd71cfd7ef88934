// What the program `boxes` writes for a text: the common region of its boxes, one a line, or the refusal
// of its first fault with its line, or the refusal of a text without a line.
ghost use Rattle.std.specs.Prelude.{◌≡◌, [], ◌++◌, ◌+◌, ◌*◌, ◌%◌, ◌≤◌, length};
ghost use Rattle.lists.specs.Rects.{rects_of};
ghost use Rattle.text.specs.Answers.{written_of, wrote, left};
ghost use Rattle.box_lines.specs.Answers.{box_line, boxes_of, box_lines, answer_text};
ghost use Rattle.box_lines.specs.Inside.{Listed, IsFound, listed_text};

use crate::gather::{Unread, gather};
use crate::wholes::{Edges, GLOBE, Radians, Wholes, add, put_radians};
use arrayvec::ArrayVec;
use bbox_text::write;
use bounds::Bounds;
use consts::Refusal;
use region::common_region;
use text::{write_refusal, write_refusal_at_line, write_text};

// A text that is being made: 512 lines of at most 51 bytes, each with its newline.
type Text = ArrayVec<u8, 26624>;

// Adds a box's line. A box that reading cannot give has no text, and an empty line.
fn put_line(t: &mut Text, b: Bounds)
    requires { length t.old.items + 52 ≤ 26624 }
    ensures items { t.new.items ≡ t.old.items ++ box_line b }
    ensures few { length t.new.items ≤ length t.old.items + 52 }
{
    let mut line = [0u8; 51];
    let n = write(b, &mut line).unwrap_or(0);
    // It has room, as is required.
    let _ = t.try_extend_from_slice(&line[..n]);
    t.push(b'\n');
}

// Puts the lines of the pieces into a text that is empty. (It is lent: handed back it would be copied.)
fn put_lines(t: &mut Text, edges: &Edges, pieces: &[f64])
    requires empty { t.old.items ≡ [] }
    requires pieces { (length pieces.now % 4 ≡ 0) × (length pieces.now ≤ 2048) }
    ensures { t.new.items ≡ box_lines (boxes_of edges.now.wholes.now (rects_of pieces.now)) }
{
    for piece in pieces.chunks_exact(4) {
        put_line(t, edges.box_of(piece));
    }
}

// Finds the common region of boxes that were read, and puts its pieces at the start of a list. How many they are:
// no more than there are boxes, so there is room for them, and nothing is refused.
fn find(edges: &Edges, pieces: &mut [f64]) -> usize
    requires list { Listed edges.now.wholes.now }
    requires room { length pieces.old ≡ 2048 }
    ensures { IsFound edges.now.wholes.now result pieces.new }
{
    common_region(&edges.radians[4..], pieces).unwrap_or(0)
}

// The text of the common region of boxes that were read, to the start of out. The list has the whole numbers of the
// globe and of the boxes.
#[tactic(auto, using(crate::proofs::Listing::listed_is, crate::proofs::Listing::listed_fits), unfolding(crate::specs::Inside::listed_text))]
fn listed(list: &[i64], out: &mut [u8]) -> Result<usize, Refusal>
    requires { Listed list.now }
    ensures value { written_of result ≡ wrote (listed_text list.now) (length out.old) }
    ensures out_after { out.new ≡ left (listed_text list.now) out.old }
{
    let mut radians = Radians::new();
    put_radians(&mut radians, list);
    let edges = Edges {
        wholes: list,
        radians: radians.as_slice(),
    };
    let mut pieces = [0.0; 2048];
    let n = find(&edges, &mut pieces);
    let mut t = ArrayVec::new();
    put_lines(&mut t, &edges, &pieces[..4 * n]);
    write_text(t.as_slice(), out)
}

// The text that goes out for the lines of s, to the start of out. No line at all is refused: the command
// before may have failed, and the common region of no boxes would be the whole globe.
// Laws: Laws.no_line, Laws.no_text, Laws.lines-given, Laws.some-line, Laws.first-fault,
// Laws.too_many, Laws.answer-boxes; Again.again; Common.common-boxes, Common.all-given,
// Common.only-these, Common.at_most, Common.any_order.
// Ruled out: of no bytes: `[-180,-90,180,90]`, or nothing, or `refused 8 at line 1` (it is
// `refused 8`); of two lines of which the second is bad: `refused 8 at line 1`, or `refused 8 at 1`
// (it is `refused 8 at line 2`); of an edge 0.1: 0.0999999.
#[tactic(auto, using(crate::proofs::Listing::answered), unfolding(crate::specs::Answers::answer_text, crate::specs::Answers::answer_of, text::specs::Answers::wrote_refusal, text::specs::Answers::left_refusal, text::specs::Answers::wrote_refusal_at_line, text::specs::Answers::left_refusal_at_line))]
pub fn boxes_text(s: &[u8], out: &mut [u8]) -> Result<usize, Refusal>
    ensures value { written_of result ≡ wrote (answer_text s.now) (length out.old) }
    ensures out_after { out.new ≡ left (answer_text s.now) out.old }
{
    let mut list = Wholes::new();
    add(&mut list, GLOBE);
    match gather(s, &mut list) {
        Ok(()) => listed(list.as_slice(), out),
        Err(Unread::NoLine) => write_refusal(Refusal::BadText.into(), out),
        Err(Unread::Line { refusal, line }) => write_refusal_at_line(refusal.into(), line, out),
        Err(Unread::TooMany) => write_refusal(Refusal::BadList.into(), out),
    }
}
