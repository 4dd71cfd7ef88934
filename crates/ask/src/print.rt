// Writes an answer: the refusal number in decimal, then each result after a single space, a number in
// the 16 upper-case hexadecimal digits of its bit pattern, yes or no as 1 or 0, unbounded as U, a count
// and a whole number in decimal, a text as it is.
//
// Without heap, a `write!` does not say that there was room for what it wrote: so there is no Display here,
// and each function has the room that it takes in its contract.
ghost use Rattle.std.specs.Prelude.{◌≡◌, ◌+◌, ◌*◌, ◌≤◌, ◌++◌, length};
ghost use Rattle.ask.specs.Room.{longest, room, HasRoom, GrewBy, LongerBy};

use crate::reply::Reply;
use arrayvec::ArrayVec;
use bounds::Bounds;
use consts::Refusal;
use entries::{Fault, of_entry};

// The room of an answer's line.
pub const ROOM: usize = 36000;

// How many bytes of answers may wait to be written.
pub const CAPACITY: usize = 65536;

// The answers that are not written yet.
pub type Answers = ArrayVec<u8, CAPACITY>;

// Puts an answer's line.
pub(crate) fn reply(a: Reply, out: &mut Answers)
    requires { HasRoom out.old room }
    ensures { GrewBy out.old out.new longest }
{
    answer(a, out);
    put(b"\n", out);
}

// Puts the answer without its newline. None has more bytes than a count and four numbers take.
fn answer(a: Reply, out: &mut Answers)
    requires { HasRoom out.old 109 }
    ensures { GrewBy out.old out.new 109 }
{
    match a {
        Reply::Test(n, yes) => {
            refusal(n, out);
            put(if yes { b" 1" } else { b" 0" }, out);
        }
        Reply::One(n, x) => results(n, &[x], out),
        Reply::Two(n, x, y) => results(n, &[x, y], out),
        Reply::Four(n, w, x, y, z) => results(n, &[w, x, y, z], out),
        Reply::Counted(n, k, w, x, y, z) => {
            counted(n, k, out);
            numbers(&[w, x, y, z], out);
        }
        Reply::Unbounded(n) => {
            refusal(n, out);
            put(b" U", out);
        }
    }
}

// Puts a refusal number and the results under it.
fn results(n: u8, x: &[f64], out: &mut Answers)
    requires { HasRoom out.old (20 + 17 * length x.now) }
    ensures { GrewBy out.old out.new (20 + 17 * length x.now) }
{
    refusal(n, out);
    numbers(x, out);
}

// Puts the line that answers what is no question.
pub(crate) fn unknown(out: &mut Answers)
    requires { HasRoom out.old 2 }
{
    put(b"?\n", out);
}

// Puts the line of a common region: the refusal, with its entry where an entry is refused, the count of its
// pieces, and the list that they are in.
pub(crate) fn pieces(found: Result<usize, Fault>, x: &[f64], out: &mut Answers)
    requires has_room { HasRoom out.old room }
    requires x_len_bound { length x.now ≤ 2052 }
    ensures { GrewBy out.old out.new longest }
{
    match found {
        Ok(count) => counted(0, count, out),
        Err(fault) => refused(fault, out),
    }
    numbers(x, out);
    put(b"\n", out);
}

// Puts the line of a text: the refusal, the count of the bytes that are written, and the text that they
// are in.
pub(crate) fn text(written: Result<usize, Refusal>, s: &[u8], out: &mut Answers)
    requires has_room { HasRoom out.old room }
    requires s_len_bound { length s.now ≤ 99 }
    ensures { GrewBy out.old out.new longest }
{
    match written {
        Ok(count) => counted(0, count, out),
        Err(why) => counted(why.into(), 0, out),
    }
    word(s, out);
    put(b"\n", out);
}

// Puts the line of a box: the refusal and its four numbers.
pub(crate) fn bounds(n: u8, b: Bounds, out: &mut Answers)
    requires { HasRoom out.old room }
    ensures { GrewBy out.old out.new longest }
{
    refusal(n, out);
    whole(b.west, out);
    whole(b.south, out);
    whole(b.east, out);
    whole(b.north, out);
    put(b"\n", out);
}

// Puts a refusal number.
fn refusal(n: u8, out: &mut Answers)
    requires { HasRoom out.old 20 }
    ensures { GrewBy out.old out.new 20 }
{
    decimal(n.into(), out);
}

// Puts a refusal number, with ` at ` and its entry where it is one of an entry, and the count 0.
fn refused(fault: Fault, out: &mut Answers)
    requires { HasRoom out.old 65 }
    ensures { GrewBy out.old out.new 65 }
{
    let number = fault.refusal.into();
    refusal(number, out);
    if of_entry(number) {
        put(b" at ", out);
        decimal(fault.entry as u64, out);
    }
    put(b" 0", out);
}

// Puts a refusal number, a space and a count.
fn counted(n: u8, count: usize, out: &mut Answers)
    requires { HasRoom out.old 41 }
    ensures { GrewBy out.old out.new 41 }
{
    refusal(n, out);
    put(b" ", out);
    decimal(count as u64, out);
}

// Puts a space and a text, or nothing where it is empty.
fn word(s: &[u8], out: &mut Answers)
    requires { HasRoom out.old (1 + length s.now) }
    ensures { GrewBy out.old out.new (1 + length s.now) }
{
    if !s.is_empty() {
        put(b" ", out);
        put(s, out);
    }
}

// Puts a space and a whole number.
fn whole(z: i64, out: &mut Answers)
    requires { HasRoom out.old 22 }
    ensures { GrewBy out.old out.new 22 }
{
    put(if z < 0 { b" -" } else { b" " }, out);
    decimal(z.unsigned_abs(), out);
}

// Puts a number in decimal; none has more than 20 digits.
fn decimal(n: u64, out: &mut Answers)
    requires { HasRoom out.old 20 }
    ensures { GrewBy out.old out.new 20 }
{
    let mut digits = [0u8; 20];
    let count = io::decimal(n, &mut digits);
    put(&digits[..count], out);
}

// Puts each number after a space.
fn numbers(x: &[f64], out: &mut Answers)
    requires { HasRoom out.old (17 * length x.now) }
    ensures { LongerBy out.old out.new (17 * length x.now) }
{
    for &v in x {
        number(v, out);
    }
}

// Puts a space and a number.
fn number(x: f64, out: &mut Answers)
    requires { HasRoom out.old 17 }
    ensures { LongerBy out.old out.new 17 }
{
    let mut digits = [0u8; 16];
    let _ = hex::encode_to_slice(bits::pattern(x).to_be_bytes(), &mut digits);
    digits.make_ascii_uppercase();
    put(b" ", out);
    put(&digits, out);
}

// Puts a text.
fn put(s: &[u8], out: &mut Answers)
    requires { HasRoom out.old (length s.now) }
    ensures items { out.new.items ≡ out.old.items ++ s.now }
    ensures len { LongerBy out.old out.new (length s.now) }
{
    out.try_extend_from_slice(s).unwrap();
}
