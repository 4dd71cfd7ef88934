// What the program `common` writes for a stream: the pieces of the common region of its rectangles, or
// the refusal of its first fault.
ghost use Rattle.std.specs.Prelude.{◌≡◌, ◌≤◌, length};
ghost use Rattle.consts.specs.Refusal.{code};
ghost use Rattle.text.specs.Answers.{wrote, left, written_of};
ghost use Rattle.stream.specs.Answers.{region_text, fault_text, answer_text};
ghost use Rattle.stream.specs.Inside.{Taken};

use crate::gather::gather;
use consts::Refusal;
use entries::{Fault, of_entry};
use region::common_region;
use text::{write_pieces, write_refusal, write_refusal_at};

// The text of the common region of a list that has no fault. The list has at most 512 rectangles, and
// their common region no more pieces than that, so there is room for it.
fn listed(list: &[f64], out: &mut [u8]) -> Result<usize, Refusal>
    requires { Taken list.now }
    ensures value { written_of result ≡ wrote (region_text list.now) (length out.old) }
    ensures out_after { out.new ≡ left (region_text list.now) out.old }
{
    let mut pieces = [0.0; 2048];
    let n = common_region(list, &mut pieces).unwrap();
    write_pieces(&pieces[..4 * n], out)
}

// The text of a fault, to the start of `out`: a rectangle's number is told with its record.
fn write_fault(fault: Fault, out: &mut [u8]) -> Result<usize, Refusal>
    requires { fault.entry ≤ 512 }
    ensures value { written_of result ≡ wrote (fault_text (code fault.refusal) fault.entry) (length out.old) }
    ensures out_after { out.new ≡ left (fault_text (code fault.refusal) fault.entry) out.old }
{
    let number = fault.refusal.into();
    if of_entry(number) {
        return write_refusal_at(number, fault.entry as u64, out);
    }
    write_refusal(number, out)
}

// The text that goes out for the stream s, to the start of `out`.
// Laws: Every.every-answer, Every.one_answer; Settled.settled; Laws.common-answer, Laws.stream-of,
// Laws.first-fault, Laws.one-too-many, Laws.no_record.
// Ruled out: of no bytes: `pieces 0` (it is the full rectangle, once); of 513 whole records with
// right marks: the text of the first 512; of 513 records of which the third has a NaN: `refused 5`
// (the first fault decides: `refused 1 at 2`); of a good record and one of [0, 2] by {0}: `refused 21`,
// or `refused 21 at 2` (it is `refused 21 at 1`).
pub fn common_text(s: &[u8], out: &mut [u8]) -> Result<usize, Refusal>
    ensures value { written_of result ≡ wrote (answer_text s.now) (length out.old) }
    ensures out_after { out.new ≡ left (answer_text s.now) out.old }
{
    let mut list = [0.0; 2048];
    match gather(s, &mut list) {
        Ok(n) => listed(&list[..4 * n], out),
        Err(fault) => write_fault(fault, out),
    }
}
