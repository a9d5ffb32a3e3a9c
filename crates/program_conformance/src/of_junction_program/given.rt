//! What the program does with what getting its words gave.
use crate::words::words_of;
use junction_program::{Status, given_words};
use std::io::{Error, ErrorKind};
use std::test::Fail;

#[test]
fn words_given(rt: HostRuntime) -> Result<(), Fail> {
    let words = given_words(Ok(words_of(rt.alloc(), "check|J|C")?));
    assert_eq!(&rt; words.map(|words| words.len()), Ok(3));
    let wants = [
        (ErrorKind::OutOfMemory, Status::Memory),
        (ErrorKind::InvalidData, Status::BadWords),
        (ErrorKind::Other, Status::BadWords),
    ];
    for (kind, status) in wants {
        let words = given_words(Err(Error::from(kind)));
        assert_eq!(&rt; words.err(), Some(status));
    }
    Ok(())
}
