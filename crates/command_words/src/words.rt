ghost use Rattle.std.specs.Prelude.{◌≡◌, option_map, IfSome};
ghost use Rattle.command_words.specs.Words.{texts, command_of};
ghost use Rattle.command_words.specs.CommandOf.{command_view};
ghost use Rattle.command_words.specs.InRange.{IsCommandInRange};

use crate::command::Command;
use crate::forms::{read_check, read_play, read_sample, read_search};

/// The command that the words spell, which are those after the program's own name; `None` exactly
/// where they have no form of the command line.
pub fn read_words(words: &[String]) -> Option<Command<'_>>
    ensures spelled { option_map command_view result ≡ command_of (texts words.now) }
    ensures in_range { IfSome result (λ command. IsCommandInRange (command_view command)) }
{
    let [verb, words @ ..] = words else {
        return None;
    };
    match verb.as_str() {
        "capacity" => {
            let s = read_search(words)?;
            Some(Command::Capacity(s.junction, s.certificate, s.least, s.budget))
        }
        "cycle" => {
            let s = read_search(words)?;
            Some(Command::Cycle(s.junction, s.certificate, s.least, s.budget))
        }
        "check" => read_check(words),
        "play" => read_play(words),
        "sample" => read_sample(words),
        _ => None,
    }
}
