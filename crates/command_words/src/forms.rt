ghost use Rattle.std.specs.Prelude.{◌≡◌, option_map, IfSome};
ghost use Rattle.sig_base.specs.Ratio.{fraction_of};
ghost use Rattle.command_words.specs.Words.{texts, check_in, play_in, sample_in};
ghost use Rattle.command_words.specs.CommandOf.{command_view};
ghost use Rattle.command_words.specs.SearchOf.{IsSearchIn};
ghost use Rattle.command_words.specs.InRange.{AreOptions, IsCommandInRange};

use crate::command::Command;
use crate::names::are_names;
use crate::number::read_number;
use crate::options::read_options;
use sig_base::Ratio;

/// The parts of a command that searches.
#[derive(Clone, Copy)]
pub struct Search<'w> {
    pub junction: &'w str,
    pub certificate: &'w str,
    pub least: Ratio,
    pub budget: u64,
}

/// `JUNCTION CERT [--least N/D] [--budget N]`; `None` where the words have another form.
pub fn read_search(words: &[String]) -> Option<Search<'_>>
    ensures value { IsSearchIn (texts words.now) result }
    ensures in_range { IfSome result (λ s. AreOptions (fraction_of s.least) s.budget) }
{
    let [junction, certificate, options @ ..] = words else {
        return None;
    };
    if !are_names(junction.as_str(), certificate.as_str()) {
        return None;
    }
    let options = read_options(options)?;
    Some(Search {
        junction: junction.as_str(),
        certificate: certificate.as_str(),
        least: options.least,
        budget: options.budget,
    })
}

/// `JUNCTION CERT`; `None` where the words have another form.
pub fn read_check(words: &[String]) -> Option<Command<'_>>
    ensures { option_map command_view result ≡ check_in (texts words.now) }
{
    let [junction, certificate] = words else {
        return None;
    };
    if !are_names(junction.as_str(), certificate.as_str()) {
        return None;
    }
    Some(Command::Check(junction.as_str(), certificate.as_str()))
}

/// The most seconds that are played: a week.
const MOST_SECONDS: u64 = 604_800;

/// `JUNCTION CERT SECONDS`; `None` where the words have another form.
pub fn read_play(words: &[String]) -> Option<Command<'_>>
    ensures value { option_map command_view result ≡ play_in (texts words.now) }
    ensures in_range { IfSome result (λ command. IsCommandInRange (command_view command)) }
{
    let [junction, certificate, seconds, ..] = words else {
        return None;
    };
    if words.len() > 3 {
        return None;
    }
    if !are_names(junction.as_str(), certificate.as_str()) {
        return None;
    }
    let seconds = read_number(seconds.as_str(), 0, MOST_SECONDS)?;
    Some(Command::Play(junction.as_str(), certificate.as_str(), seconds as u32))
}

/// The greatest number of a sample.
const GREATEST_NUMBER: u64 = 4_294_967_295;

/// `NUMBER JUNCTION CERT`; `None` where the words have another form.
pub fn read_sample(words: &[String]) -> Option<Command<'_>>
    ensures value { option_map command_view result ≡ sample_in (texts words.now) }
    ensures in_range { IfSome result (λ command. IsCommandInRange (command_view command)) }
{
    let [number, junction, certificate, ..] = words else {
        return None;
    };
    if words.len() > 3 {
        return None;
    }
    if !are_names(junction.as_str(), certificate.as_str()) {
        return None;
    }
    let number = read_number(number.as_str(), 0, GREATEST_NUMBER)?;
    Some(Command::Sample(number as u32, junction.as_str(), certificate.as_str()))
}
