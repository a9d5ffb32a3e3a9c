ghost use Rattle.std.specs.Prelude.{◌≡◌, ◌++◌, decimal, OnOk, IfOk};
ghost use Rattle.junction_files.specs.FaultOrder.{kind_number};
ghost use Rattle.junction_files.specs.Line.{kind_word, part_word, kind_text, place_text, fault_line_of};

use crate::document::word;
use crate::faults::{Kind, Part, Place};
use sig_base::{NoMemory, put, put_number};
use std::alloc::Global;

fn kind_number(kind: Kind) -> u32
    ensures { result ≡ kind_number kind }
{
    match kind {
        Kind::NotToml => 1,
        Kind::Version => 2,
        Kind::Shape => 3,
        Kind::Count => 4,
        Kind::Range => 5,
        Kind::Name => 6,
        Kind::Unknown => 7,
        Kind::SelfConflict => 8,
        Kind::Twice => 9,
        Kind::Lonely => 10,
        Kind::ShortIntergreen => 11,
        Kind::EndGain => 12,
        Kind::NoEffective => 13,
        Kind::NoFlow => 14,
        Kind::MaxGreen => 15,
        Kind::SelfLink => 16,
        Kind::LinkTwice => 17,
    }
}

fn kind_word(kind: Kind) -> &'static str
    ensures { result.now ≡ kind_word kind }
{
    match kind {
        Kind::NotToml => "not_toml",
        Kind::Version => "version",
        Kind::Shape => "shape",
        Kind::Count => "count",
        Kind::Range => "range",
        Kind::Name => "name",
        Kind::Unknown => "unknown",
        Kind::SelfConflict => "self_conflict",
        Kind::Twice => "twice",
        Kind::Lonely => "lonely",
        Kind::ShortIntergreen => "short_intergreen",
        Kind::EndGain => "end_gain",
        Kind::NoEffective => "no_effective",
        Kind::NoFlow => "no_flow",
        Kind::MaxGreen => "max_green",
        Kind::SelfLink => "self_link",
        Kind::LinkTwice => "link_twice",
    }
}

fn part_word(part: Part) -> &'static str
    ensures { result.now ≡ part_word part }
{
    match part {
        Part::Top => "top",
        Part::Group => "group",
        Part::Lane => "lane",
        Part::Conflict => "conflict",
        Part::Link => "link",
    }
}

fn put_kind(text: &mut Vec<u8>, kind: Kind) -> Result<(), NoMemory>
    ensures { OnOk result (text.new.items ≡ text.old.items ++ kind_text kind) }
{
    put_number(text, kind_number(kind))?;
    put(text, " ")?;
    put(text, kind_word(kind))
}

fn put_place(text: &mut Vec<u8>, place: Place) -> Result<(), NoMemory>
    ensures { OnOk result (text.new.items ≡ text.old.items ++ place_text place) }
{
    put(text, part_word(place.part))?;
    put(text, " ")?;
    put_number(text, place.index)?;
    put(text, " ")?;
    put(text, word(place.key))
}

/// The line that is printed for a refused file: `bad junction`, the number and the word of the kind,
/// the part, the index and the key.
pub fn fault_line(alloc: Global, kind: Kind, place: Place) -> Result<Vec<u8>, NoMemory>
    ensures { IfOk result (λ line. line.items ≡ fault_line_of kind place) }
{
    let mut line = Vec::new(alloc);
    put(&mut line, "bad junction ")?;
    put_kind(&mut line, kind)?;
    put(&mut line, " ")?;
    put_place(&mut line, place)?;
    put(&mut line, "\n")?;
    Ok(line)
}
