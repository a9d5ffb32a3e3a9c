//! What a sink over standard output writes.
use sig_base::{Sink, SinkFault, StdSink};
use std::cell::Cell;
use std::fmt::Display;
use std::io;
use std::io::{Error, ErrorKind, Print};

/// An output that takes a byte at a time, as far as it has room. Every second call is interrupted.
#[derive(Drop)]
struct Output {
    room: Cell<u32>,
    was_interrupted: Cell<bool>,
    /// The bytes as the digits of a number.
    written: Cell<u64>,
}

impl Print for Output {
    fn print<D: Display + Drop>(&self, _value: D) -> io::Result<()> {
        Err(Error::from(ErrorKind::Unsupported))
    }

    fn println<D: Display + Drop>(&self, _value: D) -> io::Result<()> {
        Err(Error::from(ErrorKind::Unsupported))
    }

    fn write_all(&self, _bytes: &[u8]) -> io::Result<()> {
        Err(Error::from(ErrorKind::Unsupported))
    }

    fn write_some(&self, bytes: &[u8]) -> io::Result<usize> {
        let interrupts = !self.was_interrupted.get();
        self.was_interrupted.set(interrupts);
        if interrupts {
            return Err(Error::from(ErrorKind::Interrupted));
        }
        let room = self.room.get();
        let Some(byte) = bytes.first() else {
            return Ok(0);
        };
        if room == 0 {
            return Ok(0);
        }
        self.room.set(room - 1);
        let written = self.written.get().wrapping_mul(256);
        self.written.set(written.wrapping_add(u64::from(*byte)));
        Ok(1)
    }
}

/// How many bytes an output takes, what a push of `text` answers, and what is written.
const PUSHES: [(u32, Result<(), SinkFault>, [u8; 8]); 3] = [
    (5, Ok(()), *b"\0\0\0\0text"),
    (4, Ok(()), *b"\0\0\0\0text"),
    (3, Err(SinkFault::Failed), *b"\0\0\0\0\0tex"),
];

#[test]
fn a_push_on_an_output_with_little_room(rt: HostRuntime) {
    for (room, want, written) in PUSHES {
        let output = Output {
            room: Cell::new(room),
            was_interrupted: Cell::new(false),
            written: Cell::new(0),
        };
        assert_eq!(rt;
            StdSink::new(&output).push(b"text"),
            want,
            "room for {room}"
        );
        assert_eq!(rt;
            output.written.get().to_be_bytes(),
            written,
            "room for {room}"
        );
    }
}

#[test]
fn standard_output(rt: HostRuntime) {
    assert_eq!(rt; StdSink::new(&rt).push(b"text\n"), Ok(()));
}
