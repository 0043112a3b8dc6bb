//! The settings of a channel and their limits.
ghost use Rattle.std.specs.Prelude.{◌≡◌, ◌≢◌, ◌≤◌, ◌*◌, ◌&&◌, ℕ, List, IfErr, IfOk, length, None, true};
ghost use Rattle.ll_settings.specs.Configured.{configured};
ghost use Rattle.ll_settings.specs.Settings.{rendition_named, settings_of, limit_broken, number_end};
ghost use Rattle.ll_attr.specs.YearEnd.{last_milli};
ghost use Rattle.ll_settings.specs.Names.{is_name, are_names};
ghost use Rattle.ll_settings.specs.Same.{same_settings};
ghost use Rattle.std.proofs.Common.{rules};
ghost use Rattle.std.specs.Bool.{Decides};
ghost use Rattle.std.specs.Cmp.Rules.{comparing};

use crate::name;
use ll_attr::Text;
use std::alloc::{AllocError, Global};
use std::marker::Model;

/// Why settings are refused. If several apply, the first in this order counts, except that `BadLine` comes before all others.
#[derive(Clone, Copy, Debug)]
pub enum SettingsFault {
    /// The target duration is outside 1 to 60 seconds.
    BadTarget,
    /// The part target duration is outside 10,000 microseconds to the target duration.
    BadPartTarget,
    /// The Skip Boundary is less than six target durations.
    SkipTooSmall,
    /// The window is less than the Skip Boundary and three target durations together, or more than 86,400 seconds.
    WindowTooSmall,
    /// The channel's or a rendition's name is no name, or a rendition is there twice.
    BadName,
    /// There is no rendition, or there are more than 8.
    NoRendition,
    /// The first Media Sequence Number is above 2^60, or the start is after the year 9999.
    BadStart,
    /// The line doesn't have the form of a settings line.
    BadLine,
    /// Out of memory.
    Memory,
}

impl From<AllocError> for SettingsFault {
    ghost use Rattle.ll_settings.specs.declared.settings.SettingsFault.TheVariants.{Memory};

    ghost from_gives = { λ error fault. fault ≡ Memory };

    fn from(_error: AllocError) -> SettingsFault {
        SettingsFault::Memory
    }
}

/// The settings of one channel, within the limits.
pub struct Settings {
    channel: Text,
    numbers: Numbers,
    renditions: Vec<Text>,
}

impl Drop for Settings {
    fn drop(self) {
        let Settings {
            channel: _channel,
            numbers: _,
            renditions: _renditions,
        } = self;
    }
}

impl PartialEq for Settings {
    ghost use Rattle.ll_settings.specs.Same.{lists_of, same_settings};
    ghost use Rattle.std.specs.Prelude.{bytes_eq};
    ghost use Rattle.std.specs.Cmp.{on_per};
    ghost use Rattle.std.specs.Cmp.Lexicographic.{lists_per};

    ghost eq = { same_settings };

    ghost laws = { on_per lists_of (lists_per {E = bytes_eq} (Prim.search (comparing, rules))) };

    /// Returns whether the settings are equal.
    #[tactic(auto, using(crate::proofs::SameLemmas::settings_decided))]
    fn eq(&self, other: &Settings) -> bool
        ensures value { result ≡ same_settings self.now other.now }
        ensures equal { Decides result (self.now ≡ other.now) }
    {
        is_same(self, other)
    }
}

/// Returns whether `a` and `b` are the same, number by number and name by name.
fn is_same(a: &Settings, b: &Settings) -> bool
    ensures { result ≡ same_settings a.now b.now }
{
    a.channel == b.channel && a.numbers == b.numbers && a.renditions == b.renditions
}

/// The numbers among the settings.
#[derive(Clone, Copy, PartialEq, Eq)]
pub(crate) struct Numbers {
    pub(crate) target: u64,
    pub(crate) part_target: u64,
    pub(crate) skip: u64,
    pub(crate) window: u64,
    pub(crate) first: u64,
    pub(crate) start: u64,
}

impl Model for Settings {
    ghost use Rattle.std.specs.Prelude.{◌≡◌, None};
    ghost use Rattle.ll_settings.specs.Settings.{Configuration, limit_broken};

    ghost Value = { Configuration };

    ghost use Rattle.ll_settings.specs.Configured.{configured};

    ghost view = { λ s. configured s.numbers s.channel s.renditions.items };

    ghost invariant = { λ s. limit_broken (configured s.numbers s.channel s.renditions.items) ≡ None };
}

/// Returns the first limit that settings with the numbers `n` and `count` renditions break; `named` says whether their names break none.
pub(crate) fn first_fault(n: &Numbers, named: bool, count: usize) -> Option<SettingsFault>
    ensures { (channel : List ℕ) (renditions : List (List ℕ)) → named ≡ (is_name channel && are_names renditions)
        → count ≡ length renditions → result ≡ limit_broken (configured n.now channel renditions) }
{
    if n.target < 1 || 60 < n.target {
        Some(SettingsFault::BadTarget)
    } else if n.part_target < 10_000 || n.target * 1_000_000 < n.part_target {
        Some(SettingsFault::BadPartTarget)
    } else if n.skip < 6 * n.target {
        Some(SettingsFault::SkipTooSmall)
    } else if 86_400 < n.window || n.window < 3 * n.target || n.window - 3 * n.target < n.skip {
        Some(SettingsFault::WindowTooSmall)
    } else if !named {
        Some(SettingsFault::BadName)
    } else if count == 0 || 8 < count {
        Some(SettingsFault::NoRendition)
    } else if 1 << 60 < n.first || LAST_MILLI < n.start {
        Some(SettingsFault::BadStart)
    } else {
        None
    }
}

/// The last millisecond of the year 9999, counted from 1970-01-01T00:00:00Z.
const LAST_MILLI: u64 = 253_402_300_799_999;

impl Settings {
    /// Makes the settings of a channel: its name `channel`, the target duration `target` in seconds, the part target duration `part_target` in
    /// microseconds, the Skip Boundary `skip` and the least duration `window` of the window in seconds, the names `renditions`, the Media Sequence
    /// Number `first` of the first segment, and the time `start` of the first part in milliseconds since 1970-01-01T00:00:00Z.
    ///
    /// # Errors
    ///
    /// The first limit that they break; never `BadLine` or `Memory`.
    pub fn new(
        channel: Text,
        target: u64,
        part_target: u64,
        skip: u64,
        window: u64,
        renditions: Vec<Text>,
        first: u64,
        start: u64,
    ) -> Result<Settings, SettingsFault>
        ensures { result ≡ settings_of (record {
          channel = channel;
          target = target;
          part_target = part_target;
          skip = skip;
          window = window;
          renditions = renditions.items;
          first = first;
          start = start;
        }) }
    {
        let numbers = Numbers {
            target,
            part_target,
            skip,
            window,
            first,
            start,
        };
        let named = name::is_name(channel.as_str()) && name::are_names(&renditions);
        match first_fault(&numbers, named, renditions.len()) {
            Some(fault) => Err(fault),
            None => Ok(Settings {
                channel,
                numbers,
                renditions,
            }),
        }
    }

    /// Makes settings of parts that are within the limits.
    pub(crate) fn of(channel: Text, numbers: Numbers, renditions: Vec<Text>) -> Settings
        requires { limit_broken (configured numbers channel renditions.items) ≡ None }
        ensures { result ≡ configured numbers channel renditions.items }
    {
        Settings {
            channel,
            numbers,
            renditions,
        }
    }

    /// Copies the settings.
    pub fn copy(&self, alloc: Global) -> Result<Settings, AllocError>
        ensures { IfOk result (λ s. s ≡ self.now) }
    {
        let renditions = copies(alloc, &self.renditions)?;
        Ok(Settings {
            channel: self.channel.copy()?,
            numbers: self.numbers,
            renditions,
        })
    }

    /// States for a caller's proof that the settings are within the limits. It does nothing when it runs.
    pub fn within_limits(&self)
        ensures { limit_broken self.now ≡ None }
    {
        // Serves the proof alone.
        let _target = self.numbers.target;
    }

    /// Returns the channel's name.
    pub fn channel(&self) -> &str
        ensures value { result.now ≡ self.now.channel }
        ensures named { is_name result.now ≡ true }
    {
        self.channel.as_str()
    }

    /// Returns the target duration in seconds (EXT-X-TARGETDURATION, section 4.4.3.1).
    pub fn target(&self) -> u64
        ensures value { result ≡ self.now.target }
        ensures low { 1 ≤ result }
        ensures high { result ≤ 60 }
    {
        self.numbers.target
    }

    /// Returns the part target duration in microseconds (EXT-X-PART-INF, section 4.4.3.7).
    pub fn part_target(&self) -> u64
        ensures value { result ≡ self.now.part_target }
        ensures low { 10000 ≤ result }
        ensures high { result ≤ self.now.target * 1000000 }
        ensures minute { result ≤ 60000000 }
    {
        self.numbers.part_target
    }

    /// Returns the Skip Boundary in seconds (CAN-SKIP-UNTIL, section 4.4.3.8).
    pub fn skip(&self) -> u64
        ensures value { result ≡ self.now.skip }
        ensures high { result ≤ 86400 }
    {
        self.numbers.skip
    }

    /// Returns how long the segments of the window last together at least, in seconds (section 6.2.2).
    pub fn window(&self) -> u64
        ensures value { result ≡ self.now.window }
        ensures high { result ≤ 86400 }
    {
        self.numbers.window
    }

    /// Returns the names of the renditions, in their order.
    pub fn renditions(&self) -> &[Text]
        ensures value { result.now ≡ self.now.renditions }
        ensures low { 1 ≤ length result.now }
        ensures high { length result.now ≤ 8 }
    {
        self.renditions.as_slice()
    }

    /// Returns the index of the rendition called `name`.
    pub fn rendition(&self, name: &str) -> Option<usize>
        ensures { result ≡ rendition_named self.now name.now }
    {
        self.renditions.iter().position(|r| r.as_str() == name)
    }

    /// Returns the Media Sequence Number of the first segment (EXT-X-MEDIA-SEQUENCE, section 4.4.3.2).
    pub fn first(&self) -> u64
        ensures value { result ≡ self.now.first }
        ensures high { result ≤ number_end }
    {
        self.numbers.first
    }

    /// Returns the time of the first part, in milliseconds since 1970-01-01T00:00:00Z (EXT-X-PROGRAM-DATE-TIME, section 4.4.4.6).
    pub fn start(&self) -> u64
        ensures value { result ≡ self.now.start }
        ensures high { result ≤ last_milli }
    {
        self.numbers.start
    }
}

/// Copies `names`.
fn copies(alloc: Global, names: &[Text]) -> Result<Vec<Text>, AllocError>
    ensures { IfOk result (λ copies. copies.items ≡ names.now) }
{
    let mut copies = Vec::with_capacity(alloc, names.len())?;
    for name in names {
        copies.push(name.copy()?)?;
    }
    Ok(copies)
}
