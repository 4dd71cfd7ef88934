// The questions `s1.`, and `r1.to_s1`, since a circle interval is its answer: what each operation on
// circle intervals is asked with, and what it answers.
use crate::reply::{Reply, number, test};
use consts::Refusal;
use r1::interval::{Answer as LineAnswer, Interval as Line};
use s1::interval::{Answer, Interval};

// The answer to a question of this layer. Operands come as they are asked with, unread.
pub(crate) fn reply(name: &[u8], numbers: &[f64]) -> Option<Reply> {
    match (name, numbers) {
        (b"s1.empty", []) => Some(interval(Ok(Interval::EMPTY))),
        (b"s1.full", []) => Some(interval(Ok(Interval::FULL))),
        (_, &[lo, hi]) => of_one(name, Interval { lo, hi }),
        (_, &[lo, hi, p]) => with_number(name, Interval { lo, hi }, p),
        (_, &[lo, hi, x, y]) => of_two(name, Interval { lo, hi }, Interval { lo: x, hi: y }),
        (b"s1.approx_eq_by", &[lo, hi, x, y, max_error]) => {
            let b = Interval { lo: x, hi: y };
            Some(test(Interval { lo, hi }.approx_eq_by(b, max_error)))
        }
        _ => None,
    }
}

// Of one interval, or of the two numbers that are its ends: intervals.
fn of_one(name: &[u8], a: Interval) -> Option<Reply> {
    Some(match name {
        b"s1.new" => interval(Interval::new(a.lo, a.hi)),
        b"s1.from_point_pair" => interval(Interval::from_point_pair(a.lo, a.hi)),
        b"r1.to_s1" => interval(Interval::from_line(Line { lo: a.lo, hi: a.hi })),
        b"s1.to_r1" => line(a.to_line()),
        b"s1.invert" => interval(a.invert()),
        b"s1.complement" => interval(a.complement()),
        _ => return measured(name, a),
    })
}

// Numbers; the distance is from one end to the other.
fn measured(name: &[u8], a: Interval) -> Option<Reply> {
    Some(match name {
        b"s1.positive_distance" => number(Interval::positive_distance(a.lo, a.hi)),
        b"s1.center" => number(a.center()),
        b"s1.complement_center" => number(a.complement_center()),
        b"s1.len" => number(a.len()),
        _ => return tested(name, a),
    })
}

// Tests of one interval.
fn tested(name: &[u8], a: Interval) -> Option<Reply> {
    Some(match name {
        b"s1.is_valid" => test(a.is_valid()),
        b"s1.is_full" => test(a.is_full()),
        b"s1.is_empty" => test(a.is_empty()),
        b"s1.is_inverted" => test(a.is_inverted()),
        _ => return None,
    })
}

// Of an interval and a number.
fn with_number(name: &[u8], a: Interval, p: f64) -> Option<Reply> {
    Some(match name {
        b"s1.expanded" => interval(a.expanded(p)),
        b"s1.add" => interval(Answer::grown(a, a.add(p))),
        b"s1.fast_contains" => test(a.fast_contains(p)),
        b"s1.contains" => test(a.contains(p)),
        b"s1.interior_contains" => test(a.interior_contains(p)),
        _ => return None,
    })
}

// Of two intervals.
fn of_two(name: &[u8], a: Interval, b: Interval) -> Option<Reply> {
    Some(match name {
        b"s1.union" => interval(a.union(b)),
        b"s1.intersection" => interval(a.intersection(b)),
        b"s1.hausdorff" => number(a.directed_hausdorff_distance(b)),
        _ => return compared(name, a, b),
    })
}

// Tests of two intervals.
fn compared(name: &[u8], a: Interval, b: Interval) -> Option<Reply> {
    Some(match name {
        b"s1.contains_interval" => test(a.contains_interval(b)),
        b"s1.interior_contains_interval" => test(a.interior_contains_interval(b)),
        b"s1.intersects" => test(a.intersects(b)),
        b"s1.interior_intersects" => test(a.interior_intersects(b)),
        b"s1.eq" => test(a.eq(b)),
        b"s1.approx_eq" => test(a.approx_eq(b)),
        _ => return None,
    })
}

fn interval(a: impl Into<Answer>) -> Reply {
    let a = a.into();
    Reply::Two(a.refusal, a.value.lo, a.value.hi)
}

fn line(a: Result<Line, Refusal>) -> Reply {
    let a = LineAnswer::from(a);
    Reply::Two(a.refusal, a.value.lo, a.value.hi)
}
