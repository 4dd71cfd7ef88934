// The records of a stream from the first to the last, their rectangles as one list of numbers. The first
// fault decides.
ghost use Rattle.std.specs.Prelude.{◌≡◌, ◌≤◌, length};
ghost use Rattle.consts.specs.Refusal.{code};
ghost use Rattle.stream.specs.Stream.{over_number};
ghost use Rattle.stream.specs.Inside.{ended_with, gathered_of, IsGathered};

use consts::Refusal;
use entries::Fault;
use lists::put_rect;
use record::{is_record, read_record};

// The refusal of what goes on after 512 records: the 513th is one too many where it is whole and has a
// right mark, whatever its numbers.
#[tactic(auto, unfolding(crate::specs::Stream::over_number))]
fn over(s: &[u8]) -> Refusal
    ensures { code result ≡ over_number s.now }
{
    if is_record(s) {
        return Refusal::BadList;
    }
    Refusal::BadRecord
}

// Reads the records of s, and puts the numbers of their rectangles at the start of the list. How many they are,
// since there is no heap to answer them in; or the first fault, which stands behind so many.
pub(crate) fn gather(s: &[u8], list: &mut [f64]) -> Result<usize, Fault>
    requires { length list.old ≡ 2048 }
    ensures { IsGathered s.now (gathered_of result) list.new }
{
    for entry in 0..512 {
        let at = 34 * entry;
        if s.len() <= at {
            return Ok(entry);
        }
        match read_record(&s[at..]) {
            Ok(r) => put_rect(list, 4 * entry, r),
            Err(refusal) => return Err(Fault { refusal, entry }),
        }
    }
    ended(s, 512)
}

// What is gathered once k records are read and no other is taken.
fn ended(s: &[u8], k: usize) -> Result<usize, Fault>
    requires { k ≤ 512 }
    ensures { gathered_of result ≡ ended_with k s.now }
{
    let at = 34 * k;
    if s.len() <= at {
        return Ok(k);
    }
    Err(Fault {
        refusal: over(&s[at..]),
        entry: k,
    })
}
