// Reads a line: a name, then numbers, each a single space and the 16 hexadecimal digits of its bit
// pattern. So it is fixed where each number stands, and a space or a digit too many or too few puts a
// wrong byte somewhere. Written otherwise are a vertex number, in two digits, a text, in two digits a
// byte, and whole numbers, in decimal. What is not as it should be is None.
ghost use Rattle.std.specs.Prelude.{◌<◌, ◌≤◌, IfSome, pos, ◌≤ℤ◌};

use arrayvec::ArrayVec;

// A number's bytes: a space and 16 digits.
const WORD: usize = 17;

// The least number of 18 digits. It is beyond every limit: more digits change it no more.
const BEYOND: usize = 100000000000000000;

// Splits a line where its name ends: before the first space, or with the line.
pub(crate) fn name(s: &[u8]) -> (&[u8], &[u8]) {
    let end = s.iter().position(|&b| b == b' ').unwrap_or(s.len());
    s.split_at(end)
}

// Reads numbers from the first byte to the last, and adds them to x, as many as it has room for at most. A list is
// lent to be filled, here and below: one that is handed back would be copied whole, however short it is.
pub(crate) fn numbers<const MOST: usize>(s: &[u8], x: &mut ArrayVec<f64, MOST>) -> Option<()> {
    each(s, WORD, number, x)
}

// Reads what so many bytes each are, from the first byte to the last, and adds it to x, as many as it has room for
// at most.
fn each<T: Drop, const MOST: usize, F: Fn(&[u8]) -> Option<T>>(
    s: &[u8],
    size: usize,
    read: F,
    x: &mut ArrayVec<T, MOST>,
) -> Option<()>
    requires size_nonzero { 0 < size }
    requires can_read { F.IsAlwaysCallable read }
{
    if s.len() % size != 0 {
        return None;
    }
    for part in s.chunks_exact(size) {
        x.try_push(read(part)?).ok()?;
    }
    Some(())
}

// Reads the four numbers at the start, and hands back what follows them.
pub(crate) fn four(s: &[u8]) -> Option<([f64; 4], &[u8])> {
    let (first, rest) = s.split_at_checked(4 * WORD)?;
    let mut x = ArrayVec::<f64, 4>::new();
    numbers(first, &mut x)?;
    Some((x.into_inner().ok()?, rest))
}

// Reads a number.
fn number(word: &[u8]) -> Option<f64> {
    let digits = word.strip_prefix(b" ")?;
    if digits.len() != 16 {
        return None;
    }
    let mut bits = 0;
    for &b in digits {
        bits = (bits << 4) | u64::from(digit(b)?);
    }
    Some(bits::from_pattern(bits))
}

// Reads a vertex number: a space and two digits, and no byte more.
pub(crate) fn vertex(s: &[u8]) -> Option<u8> {
    octet(s.strip_prefix(b" ")?)
}

// The number of two digits.
fn octet(digits: &[u8]) -> Option<u8> {
    let &[high, low] = digits else {
        return None;
    };
    Some((digit(high)? << 4) | digit(low)?)
}

// Reads a text behind a space, and adds its bytes to x: two digits for each, or `-` where it is empty.
pub(crate) fn text<const MOST: usize>(s: &[u8], x: &mut ArrayVec<u8, MOST>) -> Option<()> {
    match s.strip_prefix(b" ")? {
        [] => None,
        b"-" => Some(()),
        digits => each(digits, 2, octet, x),
    }
}

// Reads the room of an output behind a space, and hands back what follows it.
pub(crate) fn room(s: &[u8]) -> Option<(usize, &[u8])> {
    let (digits, rest) = name(s.strip_prefix(b" ")?);
    Some((decimal(digits)?, rest))
}

// Reads the whole number behind a space, of either sign, and hands back what follows it. Minus zero is
// zero.
pub(crate) fn whole(s: &[u8]) -> Option<(i64, &[u8])> {
    let (word, rest) = name(s.strip_prefix(b" ")?);
    let value = match word.strip_prefix(b"-") {
        Some(digits) => -size(digits)?,
        None => size(word)?,
    };
    Some((value, rest))
}

// Reads the size of a whole number.
fn size(digits: &[u8]) -> Option<i64>
    ensures { IfSome result (λ n. pos 0 ≤ℤ n) }
{
    Some(decimal(digits)? as i64)
}

// Reads a number in decimal, of any length, without a needless leading zero. One of more digits than 18 is
// beyond every limit, as the number of its first 18 is.
fn decimal(digits: &[u8]) -> Option<usize>
    ensures { IfSome result (λ n. n < 1000000000000000000) }
{
    if let [] | [b'0', _, ..] = digits {
        return None;
    }
    let mut n = 0;
    for &b in digits {
        n = longer(n, char::from(b).to_digit(10)?);
    }
    Some(n)
}

// A number with one digit more, unless it has 18.
fn longer(n: usize, d: u32) -> usize
    requires { (n < 1000000000000000000) × (d ≤ 9) }
    ensures { result < 1000000000000000000 }
{
    if n < BEYOND { n * 10 + d as usize } else { n }
}

// The value of a hexadecimal digit of either case.
fn digit(b: u8) -> Option<u8> {
    Some(char::from(b).to_digit(16)? as u8)
}
