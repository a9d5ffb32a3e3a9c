ghost use Rattle.std.specs.Prelude.{◌≡◌, ◌++◌, OnOk, OnErr};

use crate::no_memory::NoMemory;
use itoa::{Buffer, Integer};

/// Appends these bytes to a text. After want of memory the text is as before; so where a text is put
/// together in pieces, the pieces before the one that failed stay.
pub fn put_bytes(text: &mut Vec<u8>, bytes: &[u8]) -> Result<(), NoMemory>
    ensures ok { OnOk result (text.new.items ≡ text.old.items ++ bytes.now) }
    ensures kept { OnErr result (text.new.items ≡ text.old.items) }
{
    text.extend_from_slice(bytes)?;
    Ok(())
}

/// Appends the bytes of these words to a text. After want of memory the text is as before.
pub fn put(text: &mut Vec<u8>, words: &str) -> Result<(), NoMemory>
    ensures ok { OnOk result (text.new.items ≡ text.old.items ++ words.now) }
    ensures kept { OnErr result (text.new.items ≡ text.old.items) }
{
    put_bytes(text, words.as_bytes())
}

/// Appends a number to a text: its decimal digits, after a minus sign where it is below 0. After want
/// of memory the text is as before.
pub fn put_number<N: Integer>(text: &mut Vec<u8>, number: N) -> Result<(), NoMemory>
    ensures ok { OnOk result (text.new.items ≡ text.old.items ++ N.text number) }
    ensures kept { OnErr result (text.new.items ≡ text.old.items) }
{
    let mut buffer = Buffer::new();
    put(text, buffer.format(number))
}
