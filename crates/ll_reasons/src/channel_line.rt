//! Why a channel's settings line isn't allowed, by its words, values and limits.
use ll_attr::{after, parse_number};
use ll_settings::{SettingsFault, is_name};
use std::fmt;

/// The words after the channel's name, by what each begins with.
const KEYS: [&str; 7] = [
    "target=",
    "part=",
    "skip=",
    "window=",
    "renditions=",
    "first=",
    "start=",
];

/// The values of a settings line.
#[derive(Clone, Copy)]
pub struct Values<'a> {
    target: u64,
    part: u64,
    skip: u64,
    window: u64,
    renditions: &'a str,
    first: u64,
    start: u64,
}

/// Why a channel's settings line isn't allowed.
#[derive(Clone, Copy)]
pub enum ChannelReason<'a> {
    /// The line's last word stands before the one that begins with this.
    Missing(&'static str),
    /// A word that begins with the first of these is expected where the second stands.
    Instead(&'static str, &'a str),
    /// What follows the first of these is no number of 1 to 20 digits, in this word.
    NoNumber(&'static str, &'a str),
    /// This is no name.
    NoName(&'a str),
    /// This word stands after the last one.
    Further(&'a str),
    /// A limit is broken by these values.
    Limit(SettingsFault, Values<'a>),
}

impl<'a> ChannelReason<'a> {
    /// Returns why `line` isn't allowed, a settings line that is refused with `fault`.
    pub(crate) fn of(line: &'a str, fault: SettingsFault) -> ChannelReason<'a> {
        match values_in(line) {
            Ok(values) => ChannelReason::Limit(fault, values),
            Err(reason) => reason,
        }
    }
}

/// Parses the values of `line`, or returns why it doesn't have the form of a settings line.
fn values_in(line: &str) -> Result<Values<'_>, ChannelReason<'_>> {
    let mut words = line.split(' ');
    let _ = words.next();
    let name = words.next().unwrap_or("");
    if !is_name(name) {
        return Err(ChannelReason::NoName(name));
    }
    let mut values = Values {
        target: 0,
        part: 0,
        skip: 0,
        window: 0,
        renditions: "",
        first: 0,
        start: 0,
    };
    for key in KEYS {
        let Some(word) = words.next() else {
            return Err(ChannelReason::Missing(key));
        };
        values.set(key, word)?;
    }
    match words.next() {
        Some(word) => Err(ChannelReason::Further(word)),
        None => Ok(values),
    }
}

impl<'a> Values<'a> {
    /// Sets the value of `key` to what follows it in `word`.
    fn set(&mut self, key: &'static str, word: &'a str) -> Result<(), ChannelReason<'a>> {
        let Some(text) = after(word, key) else {
            return Err(ChannelReason::Instead(key, word));
        };
        if key == "renditions=" {
            self.renditions = text;
            return Ok(());
        }
        let Some(number) = parse_number(text, 20) else {
            return Err(ChannelReason::NoNumber(key, word));
        };
        match key {
            "target=" => self.target = number,
            "part=" => self.part = number,
            "skip=" => self.skip = number,
            "window=" => self.window = number,
            "first=" => self.first = number,
            _ => self.start = number,
        }
        Ok(())
    }

    /// Returns the seconds of `count` target durations.
    fn targets(&self, count: u64) -> u64 {
        self.target.saturating_mul(count)
    }

    /// Returns the first of the renditions' names that is none.
    fn wrong_name(&self) -> Option<&'a str> {
        self.renditions.split(',').find(|name| !is_name(name))
    }

    /// Returns the first of the renditions' names that stands a second time.
    fn second_name(&self) -> &'a str {
        for (place, name) in self.renditions.split(',').enumerate() {
            if self
                .renditions
                .split(',')
                .take(place)
                .any(|other| other == name)
            {
                return name;
            }
        }
        ""
    }
}

impl fmt::Display for ChannelReason<'_> {
    fn fmt<W: fmt::Write>(&self, f: &mut fmt::Formatter<W>) -> fmt::Result {
        match self {
            ChannelReason::Missing(key) => {
                write!(f, "the line ends before `{key}` and {}", form_of(key))
            }
            ChannelReason::Instead(key, "") => write!(
                f,
                "a second space stands where `{key}` has to be: one space separates two words"
            ),
            ChannelReason::Instead(key, word) => write!(
                f,
                "`{word}` stands where `{key}` and {} have to be",
                form_of(key)
            ),
            ChannelReason::NoNumber(key, word) => write!(
                f,
                "`{word}`: after `{key}` comes {}, in digits alone",
                form_of(key)
            ),
            ChannelReason::NoName(name) => write!(
                f,
                "`{name}` is no channel's name, which has {NAME}"
            ),
            ChannelReason::Further("") => f.write_str("a space stands at the end of the line"),
            ChannelReason::Further(word) => {
                write!(
                    f,
                    "`{word}` is a word too many: a channel's line ends with `start=`"
                )
            }
            ChannelReason::Limit(fault, values) => write!(f, "{}", Limit(*fault, *values)),
        }
    }
}

/// What a name has.
const NAME: &str = "1 to 32 of the characters a-z, 0-9, - and _";

/// Returns what comes after `key`.
fn form_of(key: &str) -> &'static str {
    match key {
        "target=" | "skip=" | "window=" => "a whole number of seconds",
        "part=" => "a whole number of microseconds",
        "renditions=" => "names with commas between them",
        "first=" => "the Media Sequence Number of the first segment",
        _ => "the milliseconds since 1970 of the first part",
    }
}

/// A limit that values break.
#[derive(Clone, Copy)]
struct Limit<'a>(SettingsFault, Values<'a>);

impl fmt::Display for Limit<'_> {
    fn fmt<W: fmt::Write>(&self, f: &mut fmt::Formatter<W>) -> fmt::Result {
        let Limit(fault, v) = *self;
        let (target, skip, window) = (v.target, v.skip, v.window);
        match fault {
            SettingsFault::BadTarget => write!(
                f,
                "BadTarget: target={target} is outside 1 to 60, in seconds"
            ),
            SettingsFault::BadPartTarget => write!(
                f,
                "BadPartTarget: part={} is outside 10000 to {}, in microseconds: the longest part is the target duration of {target} s",
                v.part,
                v.targets(1_000_000)
            ),
            SettingsFault::SkipTooSmall => write!(
                f,
                "SkipTooSmall: skip={skip} is below {}, six target durations of {target} s",
                v.targets(6)
            ),
            SettingsFault::WindowTooSmall if window > 86_400 => {
                write!(f, "window={window} is above 86400, a day in seconds")
            }
            SettingsFault::WindowTooSmall => write!(
                f,
                "WindowTooSmall: window={window} is below {}, which skip={skip} and three target durations of {target} s need",
                skip.saturating_add(v.targets(3))
            ),
            SettingsFault::BadName => match v.wrong_name() {
                Some(name) => write!(
                    f,
                    "BadName: `{name}` in renditions= is no rendition's name, which has {NAME}"
                ),
                None => write!(
                    f,
                    "BadName: `{}` stands twice in renditions=",
                    v.second_name()
                ),
            },
            SettingsFault::NoRendition => write!(
                f,
                "renditions= has {} names, and a channel has 1 to 8 renditions",
                v.renditions.split(',').count()
            ),
            SettingsFault::BadStart if v.first > 1 << 60 => {
                write!(f, "first={} is above 1152921504606846976, 2^60", v.first)
            }
            SettingsFault::BadStart => write!(
                f,
                "BadStart: start={} is above 253402300799999, the end of the year 9999 in milliseconds since 1970",
                v.start
            ),
            SettingsFault::BadLine | SettingsFault::Memory => Ok(()),
        }
    }
}
