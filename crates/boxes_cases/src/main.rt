// The program `boxes_cases`: kinds of input that the stored run of `boxes` leaves out, each fed to the same
// library function; a label and the answer for each. The cases stand in `stdin` as the crate `cases` reads
// them. They and the expected answers come from the reference in `oracle/` (`oracle/cases boxes`).
#![tactic(auto)]

use cases::{Case, Cases};

// Room for all cases: they have 21,037 bytes.
const LIMIT: usize = 32768;

// Room for any answer here: the longest is two lines.
const ROOM: usize = 128;

fn main(rt: HostRuntime) {
    let mut bytes = [0u8; LIMIT];
    // Where the input cannot be read there is no case.
    let n = input::read_all(&mut rt.stdin(), &mut bytes).unwrap_or(0);
    for case in Cases(&bytes[..n]) {
        show(&rt, case);
    }
}

// Writes a case's label and its answer.
#[tactic(auto, unfolding(text::specs::Answers::wrote))]
fn show(rt: &impl Print, case: Case) {
    if case.sort != b'b' {
        return;
    }
    let mut out = [0u8; ROOM];
    let written = box_lines::boxes_text(case.bytes, &mut out);
    // (As in `common_cases`: a library's function has a contract, and none can speak of what is written.)
    for part in [
        b"case ".as_slice(),
        case.label,
        b"\n",
        &out[..written.unwrap_or(0)],
    ] {
        // What cannot be written is missing in the output: the stored one shows it.
        let _ = rt.write_all(part);
    }
}
