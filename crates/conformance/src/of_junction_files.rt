mod documents;
mod faults;
mod hostile;
mod links;
mod maxima;
mod printing;
mod values;

use junction_files::{JunctionFault, fault_line, read};
use samples::texts::changed;
use std::alloc::Global;
use std::process::Abort;
use std::test::Fail;

/// Changes of a text, each of the first place of an old one to a new one, and the answer without the
/// words `bad junction`.
type Row<'a> = (&'a [(&'a str, &'a str)], &'a str);

/// What the bytes are read as: the line of the first fault, or `a junction`.
fn answer(alloc: Global, bytes: &[u8]) -> Result<String, Fail> {
    let line = match read(alloc, bytes) {
        Ok(_) => b"a junction\n".to_vec(alloc)?,
        Err(JunctionFault::Refused(kind, place)) => fault_line(alloc, kind, place)?,
        Err(JunctionFault::Memory) => Err("no memory")?,
    };
    Ok(String::from_utf8(line)?)
}

/// Reads the base with the changes of each row, made one after another.
fn check(rt: &impl Abort, alloc: Global, base: &str, rows: &[Row]) -> Result<(), Fail> {
    for (changes, want) in rows {
        let mut text = base.to_string(alloc)?;
        for (old, new) in *changes {
            text = changed(alloc, text.as_str(), old, new)?;
        }
        let line = answer(alloc, text.as_bytes())?;
        let fault = line.as_str().trim_start_matches("bad junction ");
        assert_eq!(rt; fault.trim_end(), *want, "{changes:?}");
    }
    Ok(())
}
