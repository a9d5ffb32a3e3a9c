ghost use Rattle.std.specs.Io.{ReadsAtMost, WritesAtMost};
ghost use Rattle.std.specs.Io.KnownBytes.{ReadConsumes, WriteAppends};

use std::io;
use std::io::{Error, ErrorKind, Read, Write};

/// How often a call that a signal interrupts is tried.
const TRIES: u64 = u64::MAX;

/// One read, tried again where a signal interrupts it.
pub fn read_once<I: Read>(input: &mut I, buffer: &mut [u8]) -> io::Result<usize>
    ensures bound { ReadsAtMost result buffer.new }
    ensures bytes { ReadConsumes (I.remaining input.old) (I.remaining input.new) result buffer.new }
{
    for _try in 0..TRIES {
        match input.read(buffer) {
            Ok(count) => return Ok(count),
            Err(error) if error.kind() == ErrorKind::Interrupted => {}
            Err(error) => return Err(error),
        }
    }
    Err(Error::from(ErrorKind::TimedOut))
}

/// One write, tried again where a signal interrupts it.
pub fn write_once<O: Write>(output: &mut O, bytes: &[u8]) -> io::Result<usize>
    ensures bound { WritesAtMost result bytes.now }
    ensures bytes { WriteAppends (O.contents output.old) (O.contents output.new) result bytes.now }
{
    for _try in 0..TRIES {
        match output.write(bytes) {
            Ok(count) => return Ok(count),
            Err(error) if error.kind() == ErrorKind::Interrupted => {}
            Err(error) => return Err(error),
        }
    }
    Err(Error::from(ErrorKind::TimedOut))
}
