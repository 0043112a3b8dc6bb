//! Why a line of a settings file isn't allowed in its place.
use crate::channel_line::ChannelReason;
use crate::keyword::Keyword;
use ll_settings::{Settings, SettingsFault};
use std::alloc::Global;
use std::{fmt, str};

/// Why a line of a settings file isn't allowed in its place.
#[derive(Clone, Copy)]
pub enum SettingsReason<'a> {
    /// The file ends where a line with this keyword has to be.
    Ends(Keyword),
    /// The byte in this place of the line, counted from 1, isn't UTF-8.
    NotUtf8(usize),
    /// The line begins with a byte order mark.
    Mark,
    /// The line is empty.
    Blank,
    /// The line is a comment.
    Comment,
    /// The line ends with a space.
    Space,
    /// The line has to be that of the keyword, and begins with this word.
    Instead(Keyword, &'a str),
    /// The line begins with this word, which is no keyword.
    Unknown(&'a str),
    /// Something else than a space follows `secret`, so what the line shows may be the secret.
    Unspaced,
    /// An earlier line has the same keyword.
    Twice(Keyword),
    /// The line of the first keyword stands after one of the second, which has to follow it.
    Late(Keyword, Keyword),
    /// What follows the keyword isn't what it needs.
    Value(Keyword, &'a str),
    /// The line's channel isn't right by itself.
    Channel(ChannelReason<'a>),
    /// An earlier channel has this one's name.
    Taken(&'a str),
    /// There are 1,024 channels already.
    Many,
    /// A secret before any channel.
    Early,
    /// A channel's second secret.
    Secret,
    /// Out of memory.
    Memory,
}

impl<'a> SettingsReason<'a> {
    /// Returns why the line `number` of the settings file `file`, counted from 1, isn't allowed in its place, if those before it are.
    pub fn of(alloc: Global, file: &'a [u8], number: u64) -> SettingsReason<'a> {
        let text = readable(file);
        let place = usize::try_from(number.saturating_sub(1)).unwrap_or(usize::MAX);
        let line = text.lines().nth(place);
        if text.len() < file.len() && text.lines().count() <= place.saturating_add(1) {
            let good = line.unwrap_or("").len();
            return SettingsReason::NotUtf8(good.saturating_add(1));
        }
        let Some(line) = line else {
            return SettingsReason::Ends(Keyword::required(number).unwrap_or(Keyword::Channel));
        };
        match (Keyword::required(number), Keyword::of(line)) {
            (_, None) => unknown(line),
            (Some(required), Some(keyword)) if keyword != required => {
                SettingsReason::Instead(required, first_word(line))
            }
            (_, Some(keyword)) if line.ends_with(' ') && keyword.has_fixed_form() => {
                SettingsReason::Space
            }
            (Some(_), Some(keyword)) => SettingsReason::Value(keyword, value_of(line)),
            (None, Some(keyword)) => Before { text, place }.reason(alloc, line, keyword),
        }
    }
}

/// Returns why the line `line` isn't allowed, which no keyword begins.
fn unknown(line: &str) -> SettingsReason<'_> {
    if line.is_empty() {
        SettingsReason::Blank
    } else if line.starts_with('#') {
        SettingsReason::Comment
    } else if line.starts_with('\u{feff}') {
        SettingsReason::Mark
    } else if line.starts_with("secret") {
        SettingsReason::Unspaced
    } else {
        SettingsReason::Unknown(first_word(line))
    }
}

/// The first lines of a text, of which there are three or more.
#[derive(Clone, Copy)]
struct Before<'a> {
    text: &'a str,
    /// How many they are.
    place: usize,
}

impl<'a> Before<'a> {
    /// Returns why the line `line`, which `keyword` begins, isn't allowed after these.
    fn reason(self, alloc: Global, line: &'a str, keyword: Keyword) -> SettingsReason<'a> {
        match keyword {
            Keyword::Channel => self.channel(alloc, line),
            Keyword::Secret => self.secret(line),
            _ if self.has(keyword) => SettingsReason::Twice(keyword),
            _ => match self.last() {
                Some(last) if last.rank() > keyword.rank() => SettingsReason::Late(keyword, last),
                _ => SettingsReason::Value(keyword, value_of(line)),
            },
        }
    }

    /// Returns why the channel of `line` isn't allowed.
    fn channel(self, alloc: Global, line: &'a str) -> SettingsReason<'a> {
        let name = first_word(value_of(line));
        match Settings::read(alloc, line) {
            Ok(_) if self.has_channel(name) => SettingsReason::Taken(name),
            Ok(_) => SettingsReason::Many,
            Err(SettingsFault::Memory) => SettingsReason::Memory,
            Err(fault) => SettingsReason::Channel(ChannelReason::of(line, fault)),
        }
    }

    /// Returns why the secret of `line` isn't allowed.
    fn secret(self, line: &'a str) -> SettingsReason<'a> {
        match self.last() {
            Some(Keyword::Channel) => SettingsReason::Value(Keyword::Secret, value_of(line)),
            Some(Keyword::Secret) => SettingsReason::Secret,
            _ => SettingsReason::Early,
        }
    }

    /// Returns the keyword of the last of them.
    fn last(self) -> Option<Keyword> {
        Keyword::of(self.text.lines().nth(self.place.checked_sub(1)?)?)
    }

    /// Returns whether `keyword` begins one of them.
    fn has(self, keyword: Keyword) -> bool {
        self.text
            .lines()
            .take(self.place)
            .any(|line| Keyword::of(line) == Some(keyword))
    }

    /// Returns whether one of them is that of a channel called `name`.
    fn has_channel(self, name: &str) -> bool {
        self.text.lines().take(self.place).any(|line| {
            Keyword::of(line) == Some(Keyword::Channel) && first_word(value_of(line)) == name
        })
    }
}

/// Returns the front of `file` that is UTF-8.
fn readable(file: &[u8]) -> &str {
    match str::from_utf8(file) {
        Ok(text) => text,
        Err(error) => match file.get(..error.valid_up_to()) {
            Some(front) => str::from_utf8(front).unwrap_or(""),
            None => "",
        },
    }
}

/// Returns what stands before the first space of `line`.
fn first_word(line: &str) -> &str {
    match line.split_once(' ') {
        Some((word, _)) => word,
        None => line,
    }
}

/// Returns what stands after the first space of `line`.
fn value_of(line: &str) -> &str {
    match line.split_once(' ') {
        Some((_, value)) => value,
        None => "",
    }
}

impl fmt::Display for SettingsReason<'_> {
    fn fmt<W: fmt::Write>(&self, f: &mut fmt::Formatter<W>) -> fmt::Result {
        match self {
            SettingsReason::Ends(keyword) => write!(
                f,
                "the file ends here, and this line has to be `{}` and {}",
                keyword.name(),
                keyword.value()
            ),
            SettingsReason::NotUtf8(place) => {
                write!(
                    f,
                    "byte {place} of the line isn't UTF-8: save the file as UTF-8"
                )
            }
            SettingsReason::Instead(keyword, word) => write!(
                f,
                "the line begins with `{word}`, and has to be `{}` and {}",
                keyword.name(),
                keyword.value()
            ),
            SettingsReason::Unknown(word) => write!(
                f,
                "`{word}` is no word of a settings file, whose lines begin with {ORDER}"
            ),
            SettingsReason::Twice(keyword) => {
                write!(f, "`{}` stands in an earlier line too", keyword.name())
            }
            SettingsReason::Late(keyword, last) => write!(
                f,
                "`{}` stands after `{}`: the lines begin, in this order, with {ORDER}",
                keyword.name(),
                last.name()
            ),
            SettingsReason::Value(keyword, value) => write!(f, "{}", Misfit(*keyword, value)),
            SettingsReason::Channel(reason) => write!(f, "{reason}"),
            SettingsReason::Taken(name) => write!(f, "an earlier channel is called `{name}` too"),
            other => f.write_str(other.words()),
        }
    }
}

/// The words with which the lines of a settings file begin.
const ORDER: &str =
    "listen, publish, workers, record, log, spool, status, idle, channel and secret";

impl SettingsReason<'_> {
    /// Returns what is said of a reason that names no word.
    fn words(&self) -> &'static str {
        match self {
            SettingsReason::Mark => {
                "the file begins with a byte order mark: save it as UTF-8 without one"
            }
            SettingsReason::Blank => "the line is empty: a settings file has no empty lines",
            SettingsReason::Comment => "the line is a comment: a settings file has none",
            SettingsReason::Unspaced => "one space has to follow `secret`",
            SettingsReason::Space => "a space stands at the end of the line",
            SettingsReason::Many => "1024 channels stand before this one, and a file has no more",
            SettingsReason::Early => {
                "`secret` stands before any channel: it has to follow the line of its channel"
            }
            SettingsReason::Secret => "the channel before this line has a `secret` already",
            _ => "out of memory for this channel",
        }
    }
}

/// A keyword, and what follows it, which isn't what it needs. What follows `secret` isn't shown.
#[derive(Clone, Copy)]
struct Misfit<'a>(Keyword, &'a str);

impl fmt::Display for Misfit<'_> {
    fn fmt<W: fmt::Write>(&self, f: &mut fmt::Formatter<W>) -> fmt::Result {
        let Misfit(keyword, value) = *self;
        let (name, wanted) = (keyword.name(), keyword.value());
        if value.is_empty() {
            write!(f, "nothing stands after `{name}`, which needs {wanted}")
        } else if keyword == Keyword::Secret {
            // What follows may be the secret itself.
            write!(f, "{name}: what follows isn't {wanted}")
        } else if value == "unix:" {
            write!(f, "{name}: no path stands after `unix:`")
        } else if keyword.has_port() && !value.contains(':') {
            write!(f, "{name}: `{value}` has no port; it needs {wanted}")
        } else {
            write!(f, "{name}: `{value}` isn't {wanted}")
        }
    }
}
