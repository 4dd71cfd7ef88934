// The questions `r1.`, but for `r1.to_s1` (circle.rt): what each operation on line intervals is asked
// with, and what it answers.
use crate::reply::{Reply, number, test};
use consts::Refusal;
use r1::interval::{Answer, Distance, Interval};

// The answer to a question of this layer. Operands come as they are asked with, unread.
pub(crate) fn reply(name: &[u8], numbers: &[f64]) -> Option<Reply> {
    match (name, numbers) {
        (b"r1.empty", []) => Some(interval(Ok(Interval::EMPTY))),
        (b"r1.from_point", &[x]) => Some(interval(Interval::from_point(x))),
        (_, &[lo, hi]) => of_one(name, Interval { lo, hi }),
        (_, &[lo, hi, p]) => with_number(name, Interval { lo, hi }, p),
        (_, &[lo, hi, x, y]) => of_two(name, Interval { lo, hi }, Interval { lo: x, hi: y }),
        (b"r1.approx_eq_by", &[lo, hi, x, y, max_error]) => {
            let b = Interval { lo: x, hi: y };
            Some(test(Interval { lo, hi }.approx_eq_by(b, max_error)))
        }
        _ => None,
    }
}

// Of one interval, or of the two numbers that are its ends.
fn of_one(name: &[u8], a: Interval) -> Option<Reply> {
    Some(match name {
        b"r1.new" => interval(Interval::new(a.lo, a.hi)),
        b"r1.from_point_pair" => interval(Interval::from_point_pair(a.lo, a.hi)),
        b"r1.center" => number(a.center()),
        b"r1.len" => number(a.len()),
        b"r1.is_empty" => test(a.is_empty()),
        _ => return None,
    })
}

// Of an interval and a number.
fn with_number(name: &[u8], a: Interval, p: f64) -> Option<Reply> {
    Some(match name {
        b"r1.expanded" => interval(a.expanded(p)),
        b"r1.add" => interval(Answer::grown(a, a.add(p))),
        b"r1.clamp_point" => number(a.clamp_point(p)),
        b"r1.contains" => test(a.contains(p)),
        b"r1.interior_contains" => test(a.interior_contains(p)),
        _ => return None,
    })
}

// Of two intervals.
fn of_two(name: &[u8], a: Interval, b: Interval) -> Option<Reply> {
    Some(match name {
        b"r1.intersection" => interval(a.intersection(b)),
        b"r1.union" => interval(a.union(b)),
        b"r1.hausdorff" => distance(a.directed_hausdorff_distance(b)),
        _ => return compared(name, a, b),
    })
}

// Tests of two intervals.
fn compared(name: &[u8], a: Interval, b: Interval) -> Option<Reply> {
    Some(match name {
        b"r1.contains_interval" => test(a.contains_interval(b)),
        b"r1.interior_contains_interval" => test(a.interior_contains_interval(b)),
        b"r1.intersects" => test(a.intersects(b)),
        b"r1.interior_intersects" => test(a.interior_intersects(b)),
        b"r1.eq" => test(a.eq(b)),
        b"r1.approx_eq" => test(a.approx_eq(b)),
        _ => return None,
    })
}

fn interval(a: impl Into<Answer>) -> Reply {
    let a = a.into();
    Reply::Two(a.refusal, a.value.lo, a.value.hi)
}

fn distance(a: Result<Distance, Refusal>) -> Reply {
    match a {
        Ok(Distance::Of(d)) => number(Ok(d)),
        Ok(Distance::Unbounded) => Reply::Unbounded(0),
        Err(why) => number(Err(why)),
    }
}
