//! The channels of a server, and who may publish to them.
ghost use Rattle.std.specs.Prelude.{◌≡◌, ◌&&◌, IfOk, IsSome, None, OnErr, Some, if◌then◌else◌, length, nat_lt, not, option_and_then};
ghost use Rattle.std.specs.Result.{result_ok};
ghost use Rattle.ll_door.specs.Doors.{digest_in};
ghost use Rattle.ll_settings.specs.Settings.{settings_in};
ghost use Rattle.ll_config.specs.Config as spec;
ghost use Rattle.ll_config.specs.Config.{nobody, with_channel, with_line, with_secret};

use ll_attr::after;
use ll_door::Digest;
use ll_settings::{Settings, SettingsFault};
use std::alloc::{AllocError, Global};
use std::marker::Model;

/// The most channels of a server.
pub const CHANNELS: usize = 1_024;

/// Channels with distinct names, 1,024 at most, and the digest of each one's secret, if it has one, in the same order.
#[derive(Drop)]
pub struct Hosted {
    channels: Vec<Settings>,
    secrets: Vec<Option<Digest>>,
}

impl Model for Hosted {
    ghost use Rattle.std.specs.Prelude.{◌≡◌, ◌≤◌, length};
    ghost use Rattle.ll_config.specs.Config as spec;

    ghost Value = { spec.Hosted };

    ghost view = { λ h. record { channels = h.channels.items; secrets = h.secrets.items } };

    ghost invariant = { λ h. record { few : length h.channels.items ≤ 1024; alike : length h.secrets.items ≡ length h.channels.items } };
}

impl Hosted {
    /// Returns no channel.
    pub(crate) fn new(alloc: Global) -> Hosted
        ensures { result ≡ nobody }
    {
        Hosted {
            channels: Vec::new(alloc),
            secrets: Vec::new(alloc),
        }
    }

    /// Returns the channels.
    pub fn channels(&self) -> &[Settings]
        ensures { result.now ≡ self.now.channels }
    {
        &self.channels
    }

    /// Returns the digest of each channel's secret, if it has one, in the order of the channels.
    pub fn secrets(&self) -> &[Option<Digest>]
        ensures { result.now ≡ self.now.secrets }
    {
        &self.secrets
    }

    /// Returns the channels, and the digests of their secrets, in the same order.
    pub fn into_parts(self) -> (Vec<Settings>, Vec<Option<Digest>>)
        ensures channels { result.0.items ≡ self.channels }
        ensures secrets { result.1.items ≡ self.secrets }
    {
        (self.channels, self.secrets)
    }

    /// Adds the channel of the settings line `line`, or, if it is `secret` and 64 hexadecimal digits, the secret of the last channel. Returns
    /// whether the line is allowed after those before. If out of memory, it would be allowed as the first.
    pub(crate) fn add_line(&mut self, alloc: Global, line: &str) -> Result<bool, AllocError>
        ensures added { IfOk result (λ done. with_line self.old line.now ≡ (if done then Some self.new else None)) }
        ensures memory { OnErr result (IsSome (with_line nobody line.now)) }
    {
        match after(line, "secret ") {
            Some(digits) => Ok(self.add_secret(digits)),
            None => self.add_channel(alloc, line),
        }
    }

    /// Adds the channel of the settings line `line`, which gets no secret yet. Returns whether it is allowed after those before.
    fn add_channel(&mut self, alloc: Global, line: &str) -> Result<bool, AllocError>
        ensures added { IfOk result (λ done. option_and_then (with_channel self.old) (result_ok (settings_in line.now)) ≡ (if done then Some self.new else None)) }
        ensures memory { OnErr result (IsSome (option_and_then (with_channel nobody) (result_ok (settings_in line.now)))) }
    {
        let settings = match Settings::read(alloc, line) {
            Ok(settings) => settings,
            Err(SettingsFault::Memory) => return Err(AllocError),
            Err(_) => return Ok(false),
        };
        if !self.takes(settings.channel()) {
            return Ok(false);
        }
        self.channels.reserve(1)?;
        self.secrets.push(None)?;
        self.channels.push_reserved(settings);
        Ok(true)
    }

    /// Returns whether a further channel named `name` is allowed.
    fn takes(&self, name: &str) -> bool
        ensures { result ≡ nat_lt (length self.now.channels) 1024 && not (spec.has_name self.now.channels name.now) }
    {
        self.channels.len() < CHANNELS && !has_name(&self.channels, name)
    }

    /// Gives the last channel the secret whose digest `digits` spells, if it has none yet. Returns whether it does.
    fn add_secret(&mut self, digits: &str) -> bool
        ensures { option_and_then (with_secret self.old) (digest_in digits.now) ≡ (if result then Some self.new else None) }
    {
        let Some(digest) = Digest::read(digits) else {
            return false;
        };
        let count = self.secrets.len();
        if count == 0 || self.secrets[count - 1].is_some() {
            return false;
        }
        self.secrets[count - 1] = Some(digest);
        true
    }
}

/// Returns whether one of the channels `all` has the name `name`.
fn has_name(all: &[Settings], name: &str) -> bool
    ensures { result ≡ spec.has_name all.now name.now }
{
    all.iter().any(|settings| settings.channel() == name)
}
