// What a question is answered with, before it is text: a refusal number, and the result that stands beside it.
// The protocol writes both, as C is handed them: so it is no `Result`.
use consts::{Number, Refusal, YesNo};

#[derive(Clone, Copy)]
pub enum Reply {
    Test(u8, bool),
    One(u8, f64),
    Two(u8, f64, f64),
    Four(u8, f64, f64, f64, f64),
    // A count before a rectangle's four numbers.
    Counted(u8, usize, f64, f64, f64, f64),
    // A distance that is no number.
    Unbounded(u8),
}

pub(crate) fn test(a: Result<bool, Refusal>) -> Reply {
    let a = YesNo::from(a);
    Reply::Test(a.refusal, a.value)
}

pub(crate) fn number(a: Result<f64, Refusal>) -> Reply {
    let a = Number::from(a);
    Reply::One(a.refusal, a.value)
}
