// What lists of any records share.
ghost use Rattle.std.specs.Prelude.{◌≡◌, get_or};
ghost use Rattle.std.specs.Float.{nan};
ghost use Rattle.consts.specs.Refusal.{of_entry};
ghost use Rattle.entries.specs.Lists.{whole_length};

use consts::Refusal;

// The first fault of a list: why an entry is refused, and which entry it is, counted from zero.
#[derive(Clone, Copy, Debug, PartialEq, Eq)]
pub struct Fault {
    pub refusal: Refusal,
    pub entry: usize,
}

// Whether a refusal number is that of an entry, and is told with it: those of a rectangle are. It takes any number,
// since it says so of every one.
// Laws: lists.Promises.entry-numbers.
// Ruled out: of 22: no; of 5: yes; of 0: yes.
#[tactic(auto, unfolding(consts::specs::Refusal::of_entry))]
pub fn of_entry(n: u8) -> bool
    ensures { result ≡ of_entry n }
{
    matches!(n, 1 | 21 | 22 | 23)
}

// Whether n numbers are whole records of `size` numbers each, at most `limit` of them.
// Laws: Lengths.whole-when, Lengths.not-whole-when.
// Ruled out: of 8 numbers by 4, 512 at most: no; of 2,052: yes.
#[tactic(auto, using(crate::proofs::Lengths::no_size, crate::proofs::Lengths::by_count))]
pub fn whole(n: usize, size: usize, limit: usize) -> bool
    ensures { result ≡ whole_length size limit n }
{
    if size == 0 {
        return n == 0;
    }
    (n % size == 0) & (n / size <= limit)
}

// The NaN stands where there is no number.
// Laws: none of its own.
// Ruled out: zero; an infinity.
pub fn no_number() -> f64
    ensures { result ≡ nan }
{
    f64::NAN
}

// The number i of a list.
// Laws: none of its own.
// Ruled out: of a list and its length: the last number (it is the NaN); of [5, 6] and 1: 5.
pub fn number_at(list: &[f64], i: usize) -> f64
    ensures { result ≡ get_or list.now i nan }
{
    list.get(i).copied().unwrap_or(no_number())
}
