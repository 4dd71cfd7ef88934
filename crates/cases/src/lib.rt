// Stored cases, one after the other: for the programs that feed each one to a library function.
//
// A case is a line, then its bytes. The line has the case's sort, which is a letter, how many bytes its
// label has, in two digits, how many bytes come after the line, in six, and the label:
//
//     s 06 000035 tail 1
#![tactic(auto)]

ghost use Rattle.std.specs.Prelude.{◌≡◌, ◌+◌, ◌≤◌, length, drop, IfSome};
ghost use Rattle.std.specs.Iterator.{at_most};
ghost use Rattle.cases.specs.Cases.{digit, two, six, first_case, Lies, case_of, IsCut, StepsCase};

// Where the label starts.
const LABEL: usize = 12;

// A case, lent out of the bytes that it stands in.
#[derive(Clone, Copy, Debug, PartialEq, Eq)]
pub struct Case<'a> {
    pub sort: u8,
    pub label: &'a [u8],
    pub bytes: &'a [u8],
}

// The cases that stand one after the other at the start of some bytes. One that is cut ends them.
#[derive(Clone, Copy, Debug)]
pub struct Cases<'a>(pub &'a [u8]);

// Laws: Laws.read_back, Laws.parts-back, Laws.cut_short.
// Ruled out: of `s 01 000001 a`, a newline, `x`, `t 01 000000 b` and a newline: the case of sort t; of the same: the
// first, and `x` left; of `s 01 000002 a`, a newline and one byte: a case of sort s (it is cut).
impl<'a> Iterator for Cases<'a> {
    type Item = Case<'a>;

    ghost next_gives = { λ a r b. StepsCase a.0.now r b.0.now };

    ghost remaining = { λ a. at_most (length a.0.now) };

    fn next(&mut self) -> Option<Case<'a>> {
        let (case, rest) = first(self.0)?;
        self.0 = rest;
        Some(case)
    }
}

// What a digit counts. Of any other byte the lower half counts: no count is refused.
#[tactic(auto, unfolding(crate::specs::Cases::digit))]
fn digit_of(b: u8) -> usize
    ensures value { result ≡ digit b }
    ensures upper_bound { result ≤ 15 }
{
    usize::from(b % 16)
}

// The number of two digits at a place.
#[tactic(auto, unfolding(crate::specs::Cases::two))]
fn two_at(s: &[u8], at: usize) -> usize
    requires { at + 2 ≤ length s.now }
    ensures value { result ≡ two s.now at }
    ensures upper_bound { result ≤ 165 }
{
    10 * digit_of(s[at]) + digit_of(s[at + 1])
}

// The number of six digits at a place.
#[tactic(auto, unfolding(crate::specs::Cases::six))]
fn six_at(s: &[u8], at: usize) -> usize
    requires { at + 6 ≤ length s.now }
    ensures value { result ≡ six s.now at }
    ensures upper_bound { result ≤ 1666665 }
{
    10000 * two_at(s, at) + 100 * two_at(s, at + 2) + two_at(s, at + 4)
}

// The case that s starts with, where the whole of it is there, and what comes after it. The three parts lie
// in s one after the other.
// Laws: Laws.read_back, Laws.parts-back, Laws.cut_short, Laws.whole-case, Laws.lies.
// Ruled out: of `s 01 000002 a`, a newline and one byte: a case of sort s (it is cut); of `s 01 000000 a` and a
// newline: an end at 13 (it is 14).
pub fn first(s: &[u8]) -> Option<(Case<'_>, &[u8])>
    ensures value { case_of s.now result ≡ first_case s.now }
    ensures lies { Lies (case_of s.now result) (length s.now) }
    ensures lent { IfSome result (λ r. IsCut s.now (first_case s.now) r.0.label.now r.0.bytes.now r.1.now) }
{
    if s.len() <= LABEL {
        return None;
    }
    let line = LABEL + two_at(s, 2);
    let bytes = line + 1;
    let end = bytes + six_at(s, 5);
    if s.len() < end {
        return None;
    }
    let case = Case {
        sort: s[0],
        label: &s[LABEL..line],
        bytes: &s[bytes..end],
    };
    Some((case, &s[end..]))
}
