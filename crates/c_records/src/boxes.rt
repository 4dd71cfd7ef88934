// The running box of the scan worker is lent as its four numbers, lat.lo, lat.hi, lng.lo, lng.hi, which is
// what a rectangle is in memory. The worker takes them up, has the rectangle grown by value, and stores the
// four numbers of the answer only under 0.
ghost use Rattle.std.specs.Prelude.{◌≡◌};
ghost use Rattle.c_records.specs.Boxes.{box_of, Stored};

use r1::interval::Interval as Line;
use s1::interval::Interval as Circle;
use s2::rect::{Answer, Rect};

// The refusal number alone: the worker's answer lies in the box. In a record, as every answer of the
// library is.
#[repr(C)]
#[derive(Clone, Copy)]
pub struct CRefusal {
    pub refusal: u8,
}

// The rectangle of four numbers.
// Laws: capi.Laws.keeps.
// Ruled out: of 0, 1, 2 and 3: [0, 2] by [1, 3]; [2, 3] by [0, 1].
pub fn box_of(b: &[f64; 4]) -> Rect
    ensures { result ≡ box_of b.now }
{
    let lat = Line { lo: b[0], hi: b[1] };
    let lng = Circle { lo: b[2], hi: b[3] };
    Rect { lat, lng }
}

// What growth answers goes into the box, under 0 alone.
// Laws: capi.Laws.keeps, capi.Promises.refused-stays.
// Ruled out: under 3: the box changed; under 0: the box as it was.
pub fn keep(b: &mut [f64; 4], a: Answer) -> CRefusal
    ensures { Stored b.old a result b.new }
{
    if a.refusal == 0 {
        let r = a.value;
        *b = [r.lat.lo, r.lat.hi, r.lng.lo, r.lng.hi];
    }
    CRefusal { refusal: a.refusal }
}
