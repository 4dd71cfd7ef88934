// The program `boxes`: GeoJSON bbox arrays on standard input, one a line, and the common region of all of
// them on standard output, as bbox arrays, one a line. What the lines mean and what text goes out is the
// library's (the crate `box_lines`).
#![tactic(auto)]

use consts::Refusal;

// The longest input is 65,536 bytes: 128 a line for 512 lines, of which a box needs at most 51. One byte
// more is read, so that a longer input is seen to be longer.
const LIMIT: usize = 65536;

// The longest answer: 512 boxes of 51 bytes, each with its newline.
const ROOM: usize = 26624;

// A read that failed must not pass for the end of the input, where the lines that were read would answer for
// all of them; and no more must an input be cut short. What cannot be written, as on a full disk, is told on
// standard error; the exit status stays 0.
#[tactic(auto, unfolding(text::specs::Answers::wrote, text::specs::Answers::wrote_refusal))]
fn main(rt: HostRuntime) {
    let mut bytes = [0u8; LIMIT + 1];
    let mut out = [0u8; ROOM];
    let written = match input::read_all(&mut rt.stdin(), &mut bytes) {
        Ok(n) if n > LIMIT => text::write_refusal(Refusal::BadList.into(), &mut out),
        Ok(n) => box_lines::boxes_text(&bytes[..n], &mut out),
        Err(_) => text::write_refusal(Refusal::BadRecord.into(), &mut out),
    };
    // (As in `common`: a library's function has a contract, and none can speak of what is written.)
    // There is room for every answer: none is refused here.
    if rt.write_all(&out[..written.unwrap_or(0)]).is_err() {
        // Where this cannot be written either, nobody is left to tell.
        let _ = rt.eprintln("boxes: the answer cannot be written");
    }
}
