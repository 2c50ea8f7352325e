// Bytes of a reader, put into a buffer that is lent: until the buffer is full or the reader is at its end. Std's read_to_end takes memory for
// them, and its read_exact refuses a reader that ends before the buffer is full.
#![tactic(auto)]

ghost use Rattle.std.specs.Prelude.{◌<◌, IfOk, length, take};
ghost use Rattle.std.specs.Io.{ReadsAtMost};
ghost use Rattle.std.specs.Io.KnownBytes.{Consumes, IsAtEnd};

use std::io;
use std::io::{Error, ErrorKind, Read};

// Reads again where a signal interrupts a read. Counted, since a reader may be interrupted without end and each loop is proved to end; one that may not
// would ask a handle `Wait`, which this project has not. So it gives up after 2^64 - 1 reads.
// Ruled out: an input cut short while the buffer has room; a byte left out between two reads.
pub fn read_full<R: Read>(from: &mut R, buf: &mut [u8]) -> io::Result<usize>
    ensures bound { ReadsAtMost result buf.new }
    ensures bytes { IfOk result (λ n. Consumes (R.remaining from.old) (R.remaining from.new) (take n buf.new)) }
    ensures end { IfOk result (λ n. n < length buf.new → IsAtEnd (R.remaining from.new)) }
{
    let mut at = 0;
    for _ in 0..u64::MAX {
        if at >= buf.len() {
            return Ok(at);
        }
        match from.read(&mut buf[at..]) {
            Ok(0) => return Ok(at),
            Ok(n) => at += n,
            Err(e) if e.kind() == ErrorKind::Interrupted => {}
            Err(e) => return Err(e),
        }
    }
    Err(Error::from(ErrorKind::TimedOut))
}
