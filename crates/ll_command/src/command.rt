//! Parses the program's words as a command.
ghost use Rattle.std.specs.Prelude.{◌≡◌, MatchOption, MatchResult, None, Some, Ok, Err, option_map};
ghost use Rattle.ll_command.specs.Commands as spec;
ghost use Rattle.ll_command.specs.Commands.{call_of, command_of};

use crate::fault::Fault;
use crate::plan::Plan;
use crate::topic::Topic;
use ll_attr::Text;
use ll_format::number;
use ll_settings::is_name;

/// The command that the program was called with.
#[derive(Clone, Copy)]
pub enum Command<'a> {
    /// `replay`: runs the script on standard input.
    Replay,
    /// `apply`: applies a delta update to a playlist.
    Apply {
        /// The name of the earlier playlist's file.
        base: &'a Text,
        /// The name of the delta update's file.
        delta: &'a Text,
    },
    /// `check`: checks the record in the file of this name.
    Check(&'a Text),
    /// `upgrade`: writes the record in the file of this name in format 2.
    Upgrade(&'a Text),
    /// `explain` with a file alone: summarizes the record in the file of this name.
    Summarize(&'a Text),
    /// `explain` with a number: explains one entry of a record.
    Explain {
        /// The name of the record's file.
        record: &'a Text,
        /// The number of the entry.
        entry: u64,
    },
    /// `serve`: serves the channels of the settings file of this name.
    Serve(&'a Text),
    /// `multivariant`: writes the Multivariant Playlist of a channel.
    Multivariant {
        /// The name of the record's file.
        record: &'a Text,
        /// The names of renditions and of the files of their Media Initialization Sections, joined by `=`: one or more.
        sources: &'a [Text],
    },
    /// `version`, `--version`: writes the version.
    Version,
    /// `help`, `-h`, `--help`, `help` with a command's name, or that name with `--help`: writes how the program or the command is used.
    Help(Topic),
    /// `push`: publishes what an encoder writes to standard input.
    Push {
        /// The addresses at which the origins listen for publishers, one or more with commas between them.
        address: &'a Text,
        /// The name of a channel.
        channel: &'a Text,
        /// The name of one of its renditions.
        rendition: &'a Text,
        /// How the encoder's output is published.
        plan: Plan,
        /// The name of the file with the channel's secret, if there is one.
        secret: Option<&'a str>,
    },
}

impl<'a> Command<'a> {
    /// Parses the program's words, the first of which names the program. Other words are `Usage`.
    pub fn of(words: &'a [Text]) -> Result<Command<'a>, Fault>
        ensures { MatchResult result (λ c. command_of words.now ≡ Ok (call_of c)) (λ f. command_of words.now ≡ Err f) }
    {
        match after_multivariant(words) {
            Some(more) => Command::multivariant(more),
            None => Command::other(words),
        }
    }

    /// Returns the command that writes the Multivariant Playlist of a record with one or more renditions, or the help on it.
    fn multivariant(words: &'a [Text]) -> Result<Command<'a>, Fault>
        ensures { MatchResult result (λ c. spec.multivariant words.now ≡ Ok (call_of c)) (λ f. spec.multivariant words.now ≡ Err f) }
    {
        match words {
            [word] if word.as_str() == "--help" => Ok(Command::Help(Topic::Multivariant)),
            [record, sources @ ..] if !sources.is_empty() => Ok(Command::Multivariant {
                record,
                sources,
            }),
            _ => Err(Fault::Usage),
        }
    }

    /// Returns any other command.
    fn other(words: &'a [Text]) -> Result<Command<'a>, Fault>
        ensures { MatchResult result (λ c. spec.other_command words.now ≡ Ok (call_of c)) (λ f. spec.other_command words.now ≡ Err f) }
    {
        match words {
            [_program, name] => Command::alone(name),
            [_program, name, file] => Command::with_file(name, file),
            [_program, name, file, other] => Command::with_two(name, file, other),
            [
                _program,
                name,
                address,
                channel,
                rendition,
                part,
                segment,
                words @ ..,
            ] => {
                let plan = Plan::of(part, segment, words);
                Command::with_plan(name, address, channel, rendition, plan)
            }
            _ => Err(Fault::Usage),
        }
    }

    /// Returns the command `name` with an address, a channel, a rendition and a plan: `push`.
    fn with_plan(
        name: &Text,
        address: &'a Text,
        channel: &'a Text,
        rendition: &'a Text,
        plan: Option<(Plan, Option<&'a str>)>,
    ) -> Result<Command<'a>, Fault>
        ensures { MatchResult result (λ c. spec.with_plan name.now address.now channel.now rendition.now (option_map (λ p. (p.0, option_map (λ s. s.now) p.1)) plan.entry) ≡ Ok (call_of c)) (λ f. spec.with_plan name.now address.now channel.now rendition.now (option_map (λ p. (p.0, option_map (λ s. s.now) p.1)) plan.entry) ≡ Err f) }
    {
        if name.as_str() == "push" {
            Command::push(address, channel, rendition, plan)
        } else {
            Err(Fault::Usage)
        }
    }

    /// Returns the command that publishes at `address`, if `channel` and `rendition` are names and there is a plan.
    fn push(
        address: &'a Text,
        channel: &'a Text,
        rendition: &'a Text,
        plan: Option<(Plan, Option<&'a str>)>,
    ) -> Result<Command<'a>, Fault>
        ensures { MatchResult result (λ c. spec.push address.now channel.now rendition.now (option_map (λ p. (p.0, option_map (λ s. s.now) p.1)) plan.entry) ≡ Ok (call_of c)) (λ f. spec.push address.now channel.now rendition.now (option_map (λ p. (p.0, option_map (λ s. s.now) p.1)) plan.entry) ≡ Err f) }
    {
        if !is_name(channel.as_str()) || !is_name(rendition.as_str()) {
            return Err(Fault::Usage);
        }
        match plan {
            Some((plan, secret)) => Ok(Command::Push {
                address,
                channel,
                rendition,
                plan,
                secret,
            }),
            None => Err(Fault::Usage),
        }
    }

    /// Returns the command `name` without a file.
    fn alone(name: &Text) -> Result<Command<'a>, Fault>
        ensures { MatchResult result (λ c. spec.alone name.now ≡ Ok (call_of c)) (λ f. spec.alone name.now ≡ Err f) }
    {
        match name.as_str() {
            "replay" => Ok(Command::Replay),
            "version" | "--version" => Ok(Command::Version),
            "help" | "--help" | "-h" => Ok(Command::Help(Topic::Program)),
            _ => Err(Fault::Usage),
        }
    }

    /// Returns the help on the command `name`.
    fn help(name: &Text) -> Result<Command<'a>, Fault>
        ensures { MatchResult result (λ c. spec.help name.now ≡ Ok (call_of c)) (λ f. spec.help name.now ≡ Err f) }
    {
        match Topic::named(name.as_str()) {
            Some(topic) => Ok(Command::Help(topic)),
            None => Err(Fault::Usage),
        }
    }

    /// Returns the command `name` with one word more, which is `--help` or a file; or the help on the command of that word.
    fn with_file(name: &Text, file: &'a Text) -> Result<Command<'a>, Fault>
        ensures { MatchResult result (λ c. spec.with_file name.now file.now ≡ Ok (call_of c)) (λ f. spec.with_file name.now file.now ≡ Err f) }
    {
        if file.as_str() == "--help" {
            Command::help(name)
        } else if name.as_str() == "help" {
            Command::help(file)
        } else {
            Command::with_only_file(name, file)
        }
    }

    /// Returns the command `name` with one file.
    fn with_only_file(name: &Text, file: &'a Text) -> Result<Command<'a>, Fault>
        ensures { MatchResult result (λ c. spec.with_only_file name.now file.now ≡ Ok (call_of c)) (λ f. spec.with_only_file name.now file.now ≡ Err f) }
    {
        if name.as_str() == "check" {
            Ok(Command::Check(file))
        } else if name.as_str() == "upgrade" {
            Ok(Command::Upgrade(file))
        } else if name.as_str() == "explain" {
            Ok(Command::Summarize(file))
        } else if name.as_str() == "serve" {
            Ok(Command::Serve(file))
        } else {
            Err(Fault::Usage)
        }
    }

    /// Returns the command `name` with two files, or with a file and the number of an entry.
    fn with_two(name: &Text, file: &'a Text, other: &'a Text) -> Result<Command<'a>, Fault>
        ensures { MatchResult result (λ c. spec.with_two name.now file.now other.now ≡ Ok (call_of c)) (λ f. spec.with_two name.now file.now other.now ≡ Err f) }
    {
        if name.as_str() == "apply" {
            return Ok(Command::Apply {
                base: file,
                delta: other,
            });
        }
        if name.as_str() != "explain" {
            return Err(Fault::Usage);
        }
        match number(other.as_str(), u64::MAX) {
            Some(0) => Err(Fault::Usage),
            Some(entry) => Ok(Command::Explain {
                record: file,
                entry,
            }),
            None => Err(Fault::Usage),
        }
    }
}

/// Returns what follows `multivariant`, if this is the word after the program's name.
fn after_multivariant(words: &[Text]) -> Option<&[Text]>
    ensures { MatchOption result (spec.after_multivariant words.now ≡ None) (λ more. spec.after_multivariant words.now ≡ Some more.now) }
{
    match words {
        [_program, name, more @ ..] => {
            if name.as_str() == "multivariant" {
                Some(more)
            } else {
                None
            }
        }
        _ => None,
    }
}
