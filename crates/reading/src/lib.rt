// Reads a whole input, and tells its end from a failure: the bytes before a read that failed are no
// input.
#![tactic(auto)]

ghost use Rattle.std.specs.Prelude.{◌≡◌, ◌<◌, IfOk, IfSome, length, take};
ghost use Rattle.std.specs.Io.KnownBytes.{Consumes, IsAtEnd};
ghost use Rattle.reading.specs.Counts.{IsPrefixLen, count_of};

use std::error::Error;
use std::fmt;
use std::io::Read;

// A read failed, after so many bytes.
#[derive(Clone, Copy, Debug, PartialEq, Eq)]
pub struct ReadFailed {
    pub count: usize,
}

impl fmt::Display for ReadFailed {
    fn fmt<W: fmt::Write>(&self, f: &mut fmt::Formatter<W>) -> fmt::Result {
        write!(f, "a read failed after {} bytes", self.count)
    }
}

impl Error for ReadFailed {}

// Reads until buf is full, the input ends or a read fails, and says how many bytes were read; they
// stand at the start of buf, after a failure too. A read fails also where it would have to wait, on a
// descriptor that does not block, and where a signal ends it. Where the reader's bytes are known, those
// that were read are its first, and without a failure they are as many of them as buf has room for: all,
// where room is left.
pub fn read_whole<R: Read>(reader: &mut R, buf: &mut [u8]) -> Result<usize, ReadFailed>
    ensures within { IsPrefixLen (count_of result) buf.new }
    ensures bytes { Consumes (R.remaining reader.old) (R.remaining reader.new) (take (count_of result) buf.new) }
    ensures whole { IfOk result (λ n. IfSome (R.remaining reader.old) (λ xs. take n buf.new ≡ take (length buf.new) xs)) }
    ensures end { IfOk result (λ n. n < length buf.new → IsAtEnd (R.remaining reader.new)) }
{
    let mut count = 0;
    // No `for`: each turn goes on by as many bytes as the read gave.
    while count < buf.len() {
        let Ok(more) = reader.read(&mut buf[count..]) else {
            return Err(ReadFailed { count });
        };
        if more == 0 {
            break;
        }
        count += more;
    }
    Ok(count)
}
