ghost use Rattle.std.specs.Prelude.{◌≡◌, ◌<◌, ◌≤◌, ◌+◌, ◌-◌, ◌^◌, IfOk, OnOk, OnErr};
ghost use Rattle.aspect_player.specs.Aspect.{aspect_at};
ghost use Rattle.aspect_player.specs.Lines.{own_line, played_text};
ghost use Rattle.aspect_player.specs.Player.{junction_in, plan_in, second_of, row_of};
ghost use Rattle.aspect_player.specs.Written.{Writes, EndsInRow};

use crate::aspect::Aspect;
use crate::fault::PlayFault;
use crate::lines::{push_header, push_row};
use crate::player::Player;
use sig_base::{NoMemory, Sink};
use std::alloc::Global;

/// What each group shows at the player's second.
fn aspects(alloc: Global, player: &Player) -> Result<Vec<Aspect>, NoMemory>
    ensures { IfOk result (λ row. row.items ≡ row_of player.now) }
{
    let mut row = Vec::new(alloc);
    for group in 0..player.plan().junction().groups().len() {
        row.push(player.aspect(group))?;
    }
    Ok(row)
}

/// Pushes the row of the second at which the player stands, and goes one second on.
fn push_second<K: Sink>(alloc: Global, player: &mut Player, sink: &mut K) -> Result<(), PlayFault>
    requires { second_of player.old < 2 ^ 64 - 1 }
    ensures written { Writes (K.written sink.old) (K.written sink.new)
        (own_line (junction_in player.old) (plan_in player.old) (second_of player.old))
        (K.faults sink.old) (K.faults sink.new) result }
    ensures junction { junction_in player.new ≡ junction_in player.old }
    ensures plan { plan_in player.new ≡ plan_in player.old }
    ensures on { OnOk result (second_of player.new ≡ second_of player.old + 1) }
    ensures stays { OnErr result (second_of player.new ≡ second_of player.old) }
{
    let Ok(row) = aspects(alloc, player) else {
        return Err(PlayFault::Memory);
    };
    match push_row(alloc, player.second(), &row, sink) {
        Ok(()) => {
            player.tick();
            Ok(())
        }
        Err(fault) => Err(fault),
    }
}

/// Pushes the header and one row for each of so many seconds, each in a push of its own. After a
/// fault the player stands at the second within whose row the text ends.
pub fn write_rows<K: Sink>(
    alloc: Global,
    player: &mut Player,
    seconds: u32,
    sink: &mut K,
) -> Result<(), PlayFault>
    requires start { second_of player.old ≡ 0 }
    requires few { seconds ≤ 604800 }
    ensures written { Writes (K.written sink.old) (K.written sink.new)
        (played_text (junction_in player.old) (plan_in player.old) seconds)
        (K.faults sink.old) (K.faults sink.new) result }
    ensures junction { junction_in player.new ≡ junction_in player.old }
    ensures plan { plan_in player.new ≡ plan_in player.old }
    ensures end { OnOk result (second_of player.new ≡ seconds) }
    ensures within { second_of player.new ≤ seconds }
    ensures own_row { EndsInRow (K.written sink.old) (K.written sink.new)
        (junction_in player.old) (aspect_at (plan_in player.old)) (second_of player.new) }
{
    match push_header(alloc, player.plan().junction(), sink) {
        Ok(()) => {}
        Err(fault) => return Err(fault),
    }
    for _second in 0..seconds {
        match push_second(alloc, player, sink) {
            Ok(()) => {}
            Err(fault) => return Err(fault),
        }
    }
    Ok(())
}
