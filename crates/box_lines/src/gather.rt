// The lines of a text from the first to the last, the whole numbers of their boxes as one list, after those of the
// whole globe. The first fault decides.
ghost use Rattle.std.specs.Prelude.{◌≡◌, [], ◌∷◌, OnOk, IfErr};
ghost use Rattle.box_lines.specs.Answers.{GLOBE, wholes};
ghost use Rattle.box_lines.specs.Inside.{Gathered, IsUnread};

use crate::wholes::{Wholes, add};
use bbox::read;
use consts::Refusal;

// Why no boxes were gathered: there is no line at all; or the first fault and the line that it stands on,
// counted from 1; or there are more lines than are taken.
#[derive(Clone, Copy, Debug, PartialEq, Eq)]
pub(crate) enum Unread {
    NoLine,
    Line { refusal: Refusal, line: u64 },
    TooMany,
}

// Reads the lines of s, and adds the whole numbers of their boxes to those of the globe. The last line may lack its
// newline. What is left after the 512th is one line too many, however long: it isn't read.
// (The list is lent: handed back in the result it would be copied.)
#[tactic(auto, using(crate::proofs::Held::starts, crate::proofs::Held::no_line))]
pub(crate) fn gather(s: &[u8], list: &mut Wholes) -> Result<(), Unread>
    requires { list.old.items ≡ wholes (GLOBE ∷ []) }
    ensures boxes { OnOk result (Gathered s.now list.new.items) }
    ensures fault { IfErr result (λ u. IsUnread s.now u) }
{
    if s.is_empty() {
        return Err(Unread::NoLine);
    }
    let mut left = s.len();
    for (k, line) in s.split_inclusive(|b| *b == b'\n').take(512).enumerate() {
        match read(line.strip_suffix(b"\n").unwrap_or(line)) {
            Ok(b) => add(list, b),
            Err(refusal) => {
                return Err(Unread::Line {
                    refusal,
                    line: k as u64 + 1,
                });
            }
        }
        left -= line.len();
    }
    if left > 0 {
        return Err(Unread::TooMany);
    }
    Ok(())
}
