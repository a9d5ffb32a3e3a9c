ghost use Rattle.std.specs.Prelude.{◌≡◌, map, IfOk};
ghost use Rattle.aspect_player.specs.Lines.{word_of, line_of, header_line, row_line};
ghost use Rattle.aspect_player.specs.Written.{Writes};

use crate::aspect::Aspect;
use crate::fault::PlayFault;
use csv::WriterBuilder;
use junction_model::Junction;
use sig_base::{NoMemory, Sink, SinkFault, put_number};
use std::alloc::Global;

fn word(aspect: Aspect) -> &'static [u8]
    ensures { result.now ≡ word_of aspect }
{
    match aspect {
        Aspect::Red => b"red",
        Aspect::RedAmber => b"red_amber",
        Aspect::Green => b"green",
        Aspect::Amber => b"amber",
    }
}

/// One line of these fields.
fn line(alloc: Global, fields: &[&[u8]]) -> Result<Vec<u8>, NoMemory>
    ensures { IfOk result (λ text. text.items ≡ line_of (map (λ f. f.now) fields.now)) }
{
    let mut writer = WriterBuilder::new().from_writer(Vec::new(alloc));
    let Ok(()) = writer.write_fields(fields) else {
        return Err(NoMemory);
    };
    match writer.into_inner() {
        Ok(text) => Ok(text),
        Err(_) => Err(NoMemory),
    }
}

fn header(alloc: Global, junction: &Junction) -> Result<Vec<u8>, NoMemory>
    ensures { IfOk result (λ text. text.items ≡ header_line junction.now) }
{
    let mut fields: Vec<&[u8]> = Vec::new(alloc);
    fields.push(b"second")?;
    for group in junction.groups() {
        fields.push(group.label.bytes())?;
    }
    line(alloc, &fields)
}

fn row(alloc: Global, second: u64, aspects: &[Aspect]) -> Result<Vec<u8>, NoMemory>
    ensures { IfOk result (λ text. text.items ≡ row_line second aspects.now) }
{
    let mut digits = Vec::new(alloc);
    put_number(&mut digits, second)?;
    let mut fields: Vec<&[u8]> = Vec::new(alloc);
    fields.push(&digits)?;
    for aspect in aspects {
        fields.push(word(*aspect))?;
    }
    line(alloc, &fields)
}

fn push<K: Sink>(sink: &mut K, text: &[u8]) -> Result<(), PlayFault>
    ensures { Writes (K.written sink.old) (K.written sink.new) text.now
        (K.faults sink.old) (K.faults sink.new) result }
{
    match sink.push(text) {
        Ok(()) => Ok(()),
        Err(SinkFault::Failed) => Err(PlayFault::Sink),
        Err(SinkFault::Memory) => Err(PlayFault::Memory),
    }
}

/// Pushes the header, in one push: `second` and the names of the groups.
pub fn push_header<K: Sink>(
    alloc: Global,
    junction: &Junction,
    sink: &mut K,
) -> Result<(), PlayFault>
    ensures { Writes (K.written sink.old) (K.written sink.new) (header_line junction.now)
        (K.faults sink.old) (K.faults sink.new) result }
{
    match header(alloc, junction) {
        Ok(text) => push(sink, &text),
        Err(NoMemory) => Err(PlayFault::Memory),
    }
}

/// Pushes the row of a second, in one push: its number and the aspect of each group.
pub fn push_row<K: Sink>(
    alloc: Global,
    second: u64,
    aspects: &[Aspect],
    sink: &mut K,
) -> Result<(), PlayFault>
    ensures { Writes (K.written sink.old) (K.written sink.new) (row_line second aspects.now)
        (K.faults sink.old) (K.faults sink.new) result }
{
    match row(alloc, second, aspects) {
        Ok(text) => push(sink, &text),
        Err(NoMemory) => Err(PlayFault::Memory),
    }
}
