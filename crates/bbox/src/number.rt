// A number of a bbox array: an optional minus, one to three digits without a needless leading zero, and
// an optional point with one to seven digits. It is read in whole ten-millionths of a degree.
//
// What reads takes the text and a position, here and in reader.rt, and not what is left of the text: the
// definitions that the laws are of (specs/Reading.antt, proofs/Exactly.antt) speak of positions.
ghost use Rattle.std.specs.Prelude.{◌≡◌, ◌+◌, ◌*◌, ◌^◌, ◌≤◌, ◌<◌, get_or, length};
ghost use Rattle.bbox_text.specs.Grammar.{is_digit, signed};
ghost use Rattle.bbox.specs.Reading.{turn_of, whole_of, turns_of, reading_of, point_of, magnitude_of, number_of};

// Digits read so far: their value, and the position after them.
#[derive(Clone, Copy)]
pub(crate) struct Run {
    pub(crate) value: u64,
    pub(crate) next: usize,
}

// The byte at a position, 0 past the end.
pub(crate) fn byte(s: &[u8], at: usize) -> u8
    ensures value { result ≡ get_or s.now at 0 }
    ensures at_in_bounds { 0 < result → at < length s.now }
{
    s.get(at).copied().unwrap_or(0)
}

// Whether a byte is a decimal digit.
#[tactic(auto, unfolding(bbox_text::specs::Grammar::is_digit))]
fn is_digit(b: u8) -> bool
    ensures { result ≡ is_digit b }
{
    b.is_ascii_digit()
}

// One turn of a run: a digit is taken; where there is none, the value gains a zero if it is padded.
#[tactic(auto, unfolding(crate::specs::Reading::turn_of, bbox_text::specs::Grammar::is_digit))]
fn turn(s: &[u8], run: Run, pad: bool) -> Run
    requires { run.value < 1000000000000 }
    ensures value { result ≡ turn_of pad s.now run }
    ensures value_bound { result.value ≤ run.value * 10 + 9 }
{
    let Run { value, next } = run;
    let b = byte(s, next);
    if is_digit(b) {
        return Run {
            value: value * 10 + u64::from(b - b'0'),
            next: next + 1,
        };
    }
    if pad {
        return Run {
            value: value * 10,
            next,
        };
    }
    run
}

// So many turns.
#[tactic(auto, using(crate::proofs::Positions::no_turns, crate::proofs::Positions::turns_more))]
fn turns(s: &[u8], start: Run, pad: bool, n: usize) -> Run
    requires { (start.value + 1) * 10 ^ n ≤ 1000000000000 }
    ensures value { result ≡ turns_of n pad s.now start }
    ensures value_bound { result.value < (start.value + 1) * 10 ^ n }
{
    let mut run = start;
    for _ in 0..n {
        run = turn(s, run, pad);
    }
    run
}

// The whole degrees: a zero alone, or up to three digits.
#[tactic(auto, unfolding(crate::specs::Reading::whole_of, crate::specs::Reading::turns_of))]
fn whole(s: &[u8], at: usize) -> Run
    ensures value { result ≡ whole_of s.now at }
    ensures value_bound { result.value < 1000 }
{
    let first = turn(s, Run { value: 0, next: at }, false);
    if byte(s, at) == b'0' {
        return first;
    }
    turns(s, first, false, 2)
}

// A size with its sign. Minus zero is zero.
#[tactic(auto, unfolding(bbox_text::specs::Grammar::signed))]
fn signed(minus: bool, size: u64) -> i64
    requires { size < 10000000000 }
    ensures { result ≡ signed minus size }
{
    let value = size as i64;
    if minus { -value } else { value }
}

// A number whose whole degrees were read: with a point, one to seven decimals, and zeros for those of the
// seven that are not there.
#[tactic(auto, unfolding(crate::specs::Reading::point_of, crate::specs::Reading::fraction_of, crate::specs::Reading::got_of))]
fn point(s: &[u8], minus: bool, whole: Run) -> Option<(i64, usize)>
    requires { whole.value < 1000 }
    ensures { reading_of result ≡ point_of s.now minus whole }
{
    let Run { value, next } = whole;
    if byte(s, next) != b'.' {
        return Some((signed(minus, value * 10000000), next));
    }
    let after = next + 1;
    if !is_digit(byte(s, after)) {
        return None;
    }
    let all = turns(s, Run { value, next: after }, true, 7);
    Some((signed(minus, all.value), all.next))
}

// The number at a position, after its sign.
#[tactic(auto, unfolding(crate::specs::Reading::magnitude_of))]
fn magnitude(s: &[u8], at: usize, minus: bool) -> Option<(i64, usize)>
    ensures { reading_of result ≡ magnitude_of s.now at minus }
{
    if is_digit(byte(s, at)) {
        return point(s, minus, whole(s, at));
    }
    None
}

// The number at a position, and the position after it.
#[tactic(auto, unfolding(crate::specs::Reading::number_of))]
pub(crate) fn number(s: &[u8], at: usize) -> Option<(i64, usize)>
    ensures { reading_of result ≡ number_of s.now at }
{
    if byte(s, at) == b'-' {
        return magnitude(s, at + 1, true);
    }
    magnitude(s, at, false)
}
