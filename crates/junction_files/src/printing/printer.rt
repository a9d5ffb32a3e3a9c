ghost use Rattle.std.specs.Prelude.{◌≡◌, IfOk};
ghost use Rattle.toml.specs.View.{table_view};
ghost use Rattle.junction_model.specs.Rules.{IsJunction};
ghost use Rattle.junction_files.specs.Printing.{head_members, list_members, file_members, printed_version};
ghost use Rattle.junction_files.specs.Reads.{IsDocument, Spells};

use crate::document::Version;
use crate::faults::Key;
use crate::printing::member::{put_number, put_some_tables, put_tables, put_text};
use crate::printing::tables::{conflict_tables, group_tables, lane_tables, link_tables};
use crate::printing::version::{printed_version, version_number};
use junction_model::Junction;
use sig_base::NoMemory;
use std::alloc::Global;
use toml::Table;
use toml::ser::Error;

/// The document of a junction without its lists.
fn head_table(alloc: Global, version: Version, junction: &Junction) -> Result<Table, NoMemory>
    ensures { IfOk result (λ t. table_view t ≡ head_members version junction.now) }
{
    let mut table = Table::new(alloc);
    put_number(alloc, &mut table, Key::Version, version_number(version))?;
    put_text(alloc, &mut table, Key::Name, junction.title().bytes())?;
    put_number(alloc, &mut table, Key::LeastCycle, junction.least_cycle())?;
    put_number(
        alloc,
        &mut table,
        Key::GreatestCycle,
        junction.greatest_cycle(),
    )?;
    Ok(table)
}

/// The document of a junction without its links.
fn list_table(alloc: Global, version: Version, junction: &Junction) -> Result<Table, NoMemory>
    ensures { IfOk result (λ t. table_view t ≡ list_members version junction.now) }
{
    junction.rules();
    let groups = junction.groups();
    let mut table = head_table(alloc, version, junction)?;
    put_tables(
        alloc,
        &mut table,
        Key::Group,
        group_tables(alloc, version, groups)?,
    )?;
    put_tables(
        alloc,
        &mut table,
        Key::Lane,
        lane_tables(alloc, groups, junction.lanes())?,
    )?;
    let conflicts = conflict_tables(alloc, groups, junction.conflicts())?;
    put_tables(alloc, &mut table, Key::Conflict, conflicts)?;
    Ok(table)
}

/// The document of a junction.
fn file_table(alloc: Global, junction: &Junction) -> Result<Table, NoMemory>
    ensures value { IfOk result (λ t. table_view t ≡ file_members junction.now) }
    ensures rules { IsJunction junction.now }
{
    junction.rules();
    let mut table = list_table(alloc, printed_version(junction), junction)?;
    let links = link_tables(alloc, junction.groups(), junction.conflicts().links())?;
    put_some_tables(alloc, &mut table, Key::Link, links)?;
    Ok(table)
}

/// The text of a junction's file, a TOML document: of the second version where some maximum green is
/// below the longest one or there is a link, and else of the first. It gives every lane its limit, in the
/// second version every group its maximum, and the conflicts by the number of their pair with the lower
/// group as `a`; `read` gives the same junction back.
pub fn print(alloc: Global, junction: &Junction) -> Result<Vec<u8>, NoMemory>
    ensures junction { IfOk result (λ text. Spells text.items junction.now) }
    ensures document { IfOk result (λ text. IsDocument text.items (file_members junction.now)) }
{
    let file = file_table(alloc, junction)?;
    match toml::table_to_string(alloc, &file) {
        Ok(text) => Ok(text.into_bytes()),
        Err(Error::DateInvalid) => unreachable!(),
        Err(Error::OutOfMemory) => Err(NoMemory),
    }
}
