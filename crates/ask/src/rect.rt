// The questions `rect.`, and `latlng.is_valid`, since a rectangle is made of such points: what each
// operation on rectangles is asked with, and what it answers.
use crate::parse;
use crate::reply::{Reply, test};
use consts::Refusal;
use r1::interval::Interval as Line;
use s1::interval::Interval as Circle;
use s2::latlng::LatLng;
use s2::rect::{Answer, PointAnswer, Rect};

// The answer to a question of this layer, but for `rect.vertex`. Operands come as they are asked with,
// unread: points, margins and errors as two numbers, rectangles as four.
pub(crate) fn reply(name: &[u8], numbers: &[f64]) -> Option<Reply> {
    match (name, numbers) {
        (b"rect.empty", []) => Some(rect(Ok(Rect::EMPTY))),
        (b"rect.full", []) => Some(rect(Ok(Rect::FULL))),
        (_, &[lat, lng]) => of_point(name, at(lat, lng)),
        _ => {
            let (first, rest) = numbers.split_first_chunk()?;
            of_four(name, *first, rest)
        }
    }
}

// The same for four numbers and those that follow them.
fn of_four(name: &[u8], first: [f64; 4], rest: &[f64]) -> Option<Reply> {
    let a = bounds(first);
    match (name, rest) {
        (_, []) => of_points(name, first).or_else(|| of_one(name, a)),
        (_, &[lat, lng]) => with_point(name, a, at(lat, lng)),
        (_, &[s, n, w, e]) => of_two(name, a, bounds([s, n, w, e])),
        (b"rect.approx_eq_by", &[s, n, w, e, lat, lng]) => {
            Some(test(a.approx_eq_by(bounds([s, n, w, e]), at(lat, lng))))
        }
        _ => None,
    }
}

// The answer to `rect.vertex`, of which s is what follows the name: a rectangle's four numbers, then
// the vertex number.
pub(crate) fn vertex(s: &[u8]) -> Option<Reply> {
    let (r, rest) = parse::four(s)?;
    Some(point(bounds(r).vertex(parse::vertex(rest)?)))
}

fn of_point(name: &[u8], p: LatLng) -> Option<Reply> {
    match name {
        b"rect.from_latlng" => Some(rect(Rect::from_latlng(p))),
        b"latlng.is_valid" => Some(test(p.is_valid())),
        _ => None,
    }
}

// Of one rectangle.
fn of_one(name: &[u8], a: Rect) -> Option<Reply> {
    Some(match name {
        b"rect.polar_closure" => rect(a.polar_closure()),
        b"rect.lo" => point(a.lo()),
        b"rect.hi" => point(a.hi()),
        b"rect.center" => point(a.center()),
        b"rect.size" => point(a.size()),
        _ => return tested(name, a),
    })
}

// Tests of one rectangle.
fn tested(name: &[u8], a: Rect) -> Option<Reply> {
    Some(match name {
        b"rect.is_valid" => test(a.is_valid()),
        b"rect.is_empty" => test(a.is_empty()),
        b"rect.is_full" => test(a.is_full()),
        b"rect.is_point" => test(a.is_point()),
        b"rect.is_inverted" => test(a.is_inverted()),
        _ => return None,
    })
}

// Of two points, or of a point and a size.
fn of_points(name: &[u8], [u, v, w, x]: [f64; 4]) -> Option<Reply> {
    match name {
        b"rect.from_center_size" => Some(rect(Rect::from_center_size(at(u, v), at(w, x)))),
        b"rect.from_point_pair" => Some(rect(Rect::from_point_pair(at(u, v), at(w, x)))),
        _ => None,
    }
}

// Of a rectangle and a point or margins.
fn with_point(name: &[u8], a: Rect, p: LatLng) -> Option<Reply> {
    Some(match name {
        b"rect.contains_latlng" => test(a.contains_latlng(p)),
        b"rect.interior_contains_latlng" => test(a.interior_contains_latlng(p)),
        b"rect.add" => rect(Answer::grown(a, a.add(p))),
        b"rect.expanded" => rect(a.expanded(p)),
        _ => return None,
    })
}

// Of two rectangles.
fn of_two(name: &[u8], a: Rect, b: Rect) -> Option<Reply> {
    Some(match name {
        b"rect.union" => rect(a.union(b)),
        b"rect.intersection" => rect(a.intersection(b)),
        _ => return compared(name, a, b),
    })
}

// Tests of two rectangles.
fn compared(name: &[u8], a: Rect, b: Rect) -> Option<Reply> {
    Some(match name {
        b"rect.contains" => test(a.contains(b)),
        b"rect.interior_contains" => test(a.interior_contains(b)),
        b"rect.intersects" => test(a.intersects(b)),
        b"rect.interior_intersects" => test(a.interior_intersects(b)),
        b"rect.eq" => test(a.eq(b)),
        b"rect.approx_eq" => test(a.approx_eq(b)),
        _ => return None,
    })
}

// A point by its latitude and longitude.
fn at(lat: f64, lng: f64) -> LatLng {
    LatLng { lat, lng }
}

// A rectangle by its ends, in the order of a question's numbers.
pub(crate) fn bounds([south, north, west, east]: [f64; 4]) -> Rect {
    Rect {
        lat: Line {
            lo: south,
            hi: north,
        },
        lng: Circle { lo: west, hi: east },
    }
}

pub(crate) fn rect(a: impl Into<Answer>) -> Reply {
    let a = a.into();
    let r = a.value;
    Reply::Four(a.refusal, r.lat.lo, r.lat.hi, r.lng.lo, r.lng.hi)
}

fn point(a: Result<LatLng, Refusal>) -> Reply {
    let a = PointAnswer::from(a);
    Reply::Two(a.refusal, a.value.lat, a.value.lng)
}
