// Standard input as a whole, into a lent buffer: for the programs that answer only once their input has
// ended.
#![tactic(auto)]

ghost use Rattle.std.specs.Prelude.{IfOk};
ghost use Rattle.io.specs.Counts.{IsPrefixLen};

use std::io::{self, Read};

// Reads until the buffer is full, the input ends or a read fails, however few bytes each read brings, and
// tells how many bytes there are. (`read_to_end` would need a heap.)
// Laws: it is what its callers need to lend on the bytes that were read.
// Ruled out: of a buffer of two bytes: 3; of an empty buffer: 1.
pub fn read_all<R: Read>(reader: &mut R, bytes: &mut [u8]) -> io::Result<usize>
    ensures { IfOk result (λ n. IsPrefixLen n bytes.new) }
{
    let mut n = 0;
    while n < bytes.len() {
        match reader.read(&mut bytes[n..])? {
            0 => break,
            count => n += count,
        }
    }
    Ok(n)
}
