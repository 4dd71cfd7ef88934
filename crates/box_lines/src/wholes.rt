// Whole ten-millionths of a degree to radians, and back: the radians of each whole number stand at its
// place, so that an edge in radians is found by looking for it, and nothing is rounded on the way back.
ghost use Rattle.std.specs.Prelude.{◌≡◌, [], ◌∷◌, ◌++◌, ◌+◌, ◌≤◌, length, position};
ghost use Rattle.std.specs.Float.Ieee.{eq};
ghost use Rattle.lists.specs.Rects.{rect_at};
ghost use Rattle.box_lines.specs.Answers.{wholes, in_radians, whole_of, box_of};

use arrayvec::ArrayVec;
use bounds::Bounds;
use degrees::radians_of;

pub(crate) const GLOBE: Bounds = Bounds {
    west: -1800000000,
    south: -900000000,
    east: 1800000000,
    north: 900000000,
};

// The edges of the globe and of at most 512 boxes in whole numbers: south, north, west, east of each.
pub(crate) type Wholes = ArrayVec<i64, 2052>;

// As many numbers, in radians.
pub(crate) type Radians = ArrayVec<f64, 2052>;

// Whole numbers, and the radians of each at its place. They are lent from where they were made, so that neither is copied,
// and are two slices, since `common_region` takes one of radians.
#[derive(Drop)]
pub(crate) struct Edges<'a> {
    pub(crate) wholes: &'a [i64],
    pub(crate) radians: &'a [f64],
    ghost same: { radians.now ≡ in_radians wholes.now },
}

// Adds the edges of a box.
#[tactic(auto, unfolding(crate::specs::Answers::wholes))]
pub(crate) fn add(list: &mut Wholes, b: Bounds)
    requires { length list.old.items + 4 ≤ 2052 }
    ensures { list.new.items ≡ list.old.items ++ wholes (b ∷ []) }
{
    list.push(b.south);
    list.push(b.north);
    list.push(b.west);
    list.push(b.east);
}

// Puts the radians of whole numbers into a list that is empty. (It is lent: handed back it would be copied.)
pub(crate) fn put_radians(x: &mut Radians, list: &[i64])
    requires empty { x.old.items ≡ [] }
    requires few { length list.now ≤ 2052 }
    ensures { x.new.items ≡ in_radians list.now }
{
    for w in list {
        x.push(radians_of(*w));
    }
}

// Where a number stands first.
fn position_of(list: &[f64], v: f64) -> Option<usize>
    ensures { result ≡ position (λ x. eq x v) list.now }
{
    list.iter().position(|x| *x == v)
}

// The same, by looking in two parts: the first has a multiple of four numbers, and so is gone through four at a turn.
fn place_of(list: &[f64], v: f64) -> Option<usize>
    ensures { result ≡ position (λ x. eq x v) list.now }
{
    let (fours, rest) = list.split_at(list.len() / 4 * 4);
    if let Some(i) = position_of(fours, v) {
        return Some(i);
    }
    let i = position_of(rest, v)?;
    Some(fours.len() + i)
}

impl<'a> Edges<'a> {
    // The first whole number whose radians are v.
    fn whole_of(&self, v: f64) -> i64
        ensures { result ≡ whole_of self.now.wholes.now v }
    {
        match place_of(self.radians, v) {
            Some(i) => self.wholes[i],
            None => 0,
        }
    }

    // A piece in whole numbers.
    #[tactic(auto, unfolding(crate::specs::Answers::box_of))]
    pub(crate) fn box_of(&self, piece: &[f64]) -> Bounds
        requires { length piece.now ≡ 4 }
        ensures { result ≡ box_of self.now.wholes.now (rect_at piece.now 0) }
    {
        Bounds {
            west: self.whole_of(piece[2]),
            south: self.whole_of(piece[0]),
            east: self.whole_of(piece[3]),
            north: self.whole_of(piece[1]),
        }
    }
}
