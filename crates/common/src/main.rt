// The program `common`: a stream of records on standard input, the common region of its rectangles on
// standard output. What the bytes mean and what text goes out is the library's (the crate `stream`).
#![tactic(auto)]

use consts::Refusal;

// 513 records. No byte after them changes an answer: `settled` of crates/stream/proofs/Settled.antt.
const LIMIT: usize = 17442;

// The longest answer: `pieces 512` and 512 lines of 68 bytes.
const ROOM: usize = 34827;

// A read that failed must not pass for the end of the input, where an empty list would answer the whole
// globe. What cannot be written, as on a full disk, is told on standard error; the exit status stays 0.
#[tactic(auto, unfolding(text::specs::Answers::wrote, text::specs::Answers::wrote_refusal))]
fn main(rt: HostRuntime) {
    let mut bytes = [0u8; LIMIT];
    let mut out = [0u8; ROOM];
    let written = match input::read_all(&mut rt.stdin(), &mut bytes) {
        Ok(n) => stream::common_text(&bytes[..n], &mut out),
        Err(_) => text::write_refusal(Refusal::BadRecord.into(), &mut out),
    };
    // (As in `boxes`: a library's function has a contract, and none can speak of what is written.)
    let n = written.unwrap_or(0);
    if rt.write_all(&out[..n]).is_err() {
        // Where this cannot be written either, nobody is left to tell.
        let _ = rt.eprintln("common: the answer cannot be written");
    }
}
