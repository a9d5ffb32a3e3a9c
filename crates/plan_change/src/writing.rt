ghost use Rattle.std.specs.Prelude.{◌≡◌, ◌<◌, ◌≤◌, ◌+◌, ◌^◌, [], take, All, OnOk, OnErr, IfOk};
ghost use Rattle.aspect_player.specs.Written.{Writes, EndsInRow};
ghost use Rattle.plan_change.specs.Changer.{junction_in, first_in, requests_in, second_in};
ghost use Rattle.plan_change.specs.Changer.{row_in, line_in};
ghost use Rattle.plan_change.specs.Planned.{requests_planned, AreRising, ArePlannedFor, IsDueFrom};
ghost use Rattle.plan_change.specs.Planned.{AreMade, changed_text};
ghost use Rattle.plan_change.specs.Changes.{change_display};

use crate::change_list::{ChangeList, PlannedChange};
use crate::changer::Changer;
use aspect_player::{Aspect, PlayFault, push_header, push_row};
use plan_model::FittedPlan;
use sig_base::{NoMemory, Sink};
use std::alloc::Global;

/// What each group shows at the changer's second.
fn aspects(alloc: Global, changer: &Changer) -> Result<Vec<Aspect>, NoMemory>
    ensures { IfOk result (λ row. row.items ≡ row_in changer.now) }
{
    let mut row = Vec::new(alloc);
    for group in 0..changer.junction().groups().len() {
        row.push(changer.aspect(group))?;
    }
    Ok(row)
}

/// Pushes the row of the changer's second.
fn push_second<K: Sink>(alloc: Global, changer: &Changer, sink: &mut K) -> Result<(), PlayFault>
    ensures { Writes (K.written sink.old) (K.written sink.new) (line_in changer.now)
        (K.faults sink.old) (K.faults sink.new) result }
{
    match aspects(alloc, changer) {
        Ok(row) => push_row(alloc, changer.second(), &row, sink),
        Err(NoMemory) => Err(PlayFault::Memory),
    }
}

/// Makes the change of the changer's second, if there is one, and answers how many are made.
fn make_due<'j>(
    changer: &mut Changer<'j>,
    changes: &[PlannedChange],
    made: usize,
) -> Result<usize, NoMemory>
    requires second { second_in changer.old ≤ 2 ^ 63 }
    requires fit { ArePlannedFor (junction_in changer.old) changes.now }
    requires rising { AreRising changes.now }
    requires due { IsDueFrom changes.now made (second_in changer.old) }
    requires made { requests_in changer.old ≡ requests_planned (take made changes.now) }
    ensures due { IfOk result (λ n. IsDueFrom changes.now n (second_in changer.old + 1)) }
    ensures made { IfOk result (λ n. requests_in changer.new
        ≡ requests_planned (take n changes.now)) }
    ensures kept { OnErr result (requests_in changer.new ≡ requests_in changer.old) }
    ensures junction { junction_in changer.new ≡ junction_in changer.old }
    ensures first { first_in changer.new ≡ first_in changer.old }
    ensures second { second_in changer.new ≡ second_in changer.old }
{
    if made < changes.len() && u64::from(changes[made].at) == changer.second() {
        let plan = FittedPlan::by_law(changer.junction(), changes[made].plan);
        changer.change(&plan)?;
        Ok(made + 1)
    } else {
        Ok(made)
    }
}

/// Pushes the header and one row for each of so many seconds, each in a push of its own, and makes
/// each change at its second after that row. After a fault a part of the text from its beginning is
/// written, and the changer stands at the second within whose row it ends; the changes before that
/// second are made, and no others.
pub fn write_changes<'j, K: Sink>(
    alloc: Global,
    changer: &mut Changer<'j>,
    changes: &ChangeList,
    seconds: u32,
    sink: &mut K,
) -> Result<(), PlayFault>
    requires start { second_in changer.old ≡ 0 }
    requires new { requests_in changer.old ≡ [] }
    requires few { seconds ≤ 604800 }
    requires within { All (λ change. change.at < seconds) changes.now }
    requires fit { ArePlannedFor (junction_in changer.old) changes.now }
    ensures written { Writes (K.written sink.old) (K.written sink.new)
        (changed_text (junction_in changer.old) (first_in changer.old)
        (requests_planned changes.now) seconds)
        (K.faults sink.old) (K.faults sink.new) result }
    ensures junction { junction_in changer.new ≡ junction_in changer.old }
    ensures first { first_in changer.new ≡ first_in changer.old }
    ensures made { AreMade changes.now (requests_in changer.new) (second_in changer.new) }
    ensures requests { OnOk result (requests_in changer.new ≡ requests_planned changes.now) }
    ensures end { OnOk result (second_in changer.new ≡ seconds) }
    ensures within { second_in changer.new ≤ seconds }
    ensures own_row { EndsInRow (K.written sink.old) (K.written sink.new) (junction_in changer.old)
        (change_display (junction_in changer.old) (first_in changer.old)
        (requests_planned changes.now)) (second_in changer.new) }
{
    changer.junction().rules();
    let planned = changes.items();
    match push_header(alloc, changer.junction(), sink) {
        Ok(()) => {}
        Err(fault) => return Err(fault),
    }
    let mut made = 0usize;
    for _second in 0..seconds {
        match push_second(alloc, changer, sink) {
            Ok(()) => {}
            Err(fault) => return Err(fault),
        }
        match make_due(changer, planned, made) {
            Ok(count) => made = count,
            Err(NoMemory) => return Err(PlayFault::Memory),
        }
        changer.tick();
    }
    Ok(())
}
