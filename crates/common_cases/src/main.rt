// The program `common_cases`: every kind of stream that the stored run of `common` leaves out, each fed to
// the same library function, and records fed to the function that reads one; a label and the answer for
// each. The cases stand in `stdin` as the crate `cases` reads them. They and the expected answers come from
// the reference in `oracle/` (`oracle/cases`).
#![tactic(auto)]

ghost use Rattle.std.specs.Prelude.{◌≤◌, length, IfOk};

use cases::{Case, Cases};
use consts::Refusal;

// Room for all cases: they have 170,287 bytes.
const LIMIT: usize = 196608;

// The longest answer to a stream: `pieces 512` and 512 lines of 68 bytes.
const ROOM: usize = 34827;

// What is written of one record: `pieces 1` and a line of 68 bytes.
const RECORD_ROOM: usize = 77;

fn main(rt: HostRuntime) {
    let mut bytes = [0u8; LIMIT];
    // Where the input cannot be read there is no case.
    let n = input::read_all(&mut rt.stdin(), &mut bytes).unwrap_or(0);
    for case in Cases(&bytes[..n]) {
        show(&rt, case);
    }
}

// Writes a case's label and its answer: that of a stream, or of a record by itself. Of another sort nothing
// is written. The room is made where the sort is known, as long as that answer: it is cleared for each case.
#[tactic(auto, unfolding(text::specs::Answers::wrote))]
fn show(rt: &impl Print, case: Case) {
    match case.sort {
        b's' => {
            let mut out = [0u8; ROOM];
            let written = stream::common_text(case.bytes, &mut out);
            write_case(rt, case.label, &out[..written.unwrap_or(0)]);
        }
        b'r' => {
            let mut out = [0u8; RECORD_ROOM];
            let written = record_text(case.bytes, &mut out);
            write_case(rt, case.label, &out[..written.unwrap_or(0)]);
        }
        _ => {}
    }
}

// Writes a label and an answer. (As in `boxes_cases`: a library's function has a contract, and none can speak of
// what is written.)
fn write_case(rt: &impl Print, label: &[u8], answer: &[u8]) {
    for part in [b"case ".as_slice(), label, b"\n", answer] {
        // What cannot be written is missing in the output: the stored one shows it.
        let _ = rt.write_all(part);
    }
}

// The text of the record at the start of s: the rectangle that is handed out, written as a list of one piece
// is, or the refusal.
#[tactic(auto, unfolding(text::specs::Answers::wrote, text::specs::Answers::wrote_pieces, text::specs::Answers::wrote_refusal, text::specs::Answers::refused_with))]
fn record_text(s: &[u8], out: &mut [u8]) -> Result<usize, Refusal>
    ensures { IfOk result (λ n. n ≤ length out.new) }
{
    match record::read_record(s) {
        Ok(r) => text::write_pieces(&[r.lat.lo, r.lat.hi, r.lng.lo, r.lng.hi], out),
        Err(why) => text::write_refusal(why.into(), out),
    }
}
