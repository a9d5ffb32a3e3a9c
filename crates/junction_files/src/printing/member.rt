ghost use Rattle.std.specs.Prelude.{◌≡◌, map, IsUtf8, OnOk};
ghost use Rattle.toml.specs.View.{view, table_view};
ghost use Rattle.junction_files.specs.Printing.{with_value, with_text, with_number, with_tables, with_some_tables};

use crate::document::word;
use crate::faults::Key;
use sig_base::NoMemory;
use std::alloc::Global;
use toml::{Table, Value};

/// Puts a value at a key of a table.
fn put(alloc: Global, table: &mut Table, key: Key, value: Value) -> Result<(), NoMemory>
    ensures { OnOk result (table_view table.new
        ≡ with_value key (view value) (table_view table.old)) }
{
    let word = String::from_str(alloc, word(key))?;
    table.insert(word, value)?;
    Ok(())
}

pub fn put_text(alloc: Global, table: &mut Table, key: Key, text: &[u8]) -> Result<(), NoMemory>
    requires { IsUtf8 text.now }
    ensures { OnOk result (table_view table.new ≡ with_text key text.now (table_view table.old)) }
{
    let Ok(text) = str::from_utf8(text) else {
        unreachable!()
    };
    put(alloc, table, key, Value::string(alloc, text)?)
}

pub fn put_number(alloc: Global, table: &mut Table, key: Key, number: u32) -> Result<(), NoMemory>
    ensures { OnOk result (table_view table.new ≡ with_number key number (table_view table.old)) }
{
    put(alloc, table, key, Value::Integer(i64::from(number)))
}

pub fn put_tables(
    alloc: Global,
    table: &mut Table,
    key: Key,
    tables: Vec<Value>,
) -> Result<(), NoMemory>
    ensures { OnOk result (table_view table.new
        ≡ with_tables key (map view tables.items) (table_view table.old)) }
{
    put(alloc, table, key, Value::Array(tables))
}

/// Puts a list of tables at a key of a table, unless it is empty.
pub fn put_some_tables(
    alloc: Global,
    table: &mut Table,
    key: Key,
    tables: Vec<Value>,
) -> Result<(), NoMemory>
    ensures { OnOk result (table_view table.new
        ≡ with_some_tables key (map view tables.items) (table_view table.old)) }
{
    if tables.is_empty() {
        return Ok(());
    }
    put_tables(alloc, table, key, tables)
}
