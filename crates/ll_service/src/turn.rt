//! A publisher's turn in a channel: what it publishes there is kept before anybody else publishes there.
ghost use Rattle.std.specs.Prelude.{◌≡◌, ◌<◌, ◌≤◌, Err, IfErr, IfOk, IsErr, IsOk, List, MatchOption, None, OnOk, false, length, true, ℕ};
ghost use Rattle.std.specs.Bool.{Decides};
ghost use Rattle.std.specs.Io.KnownBytes.{Appends};
ghost use Rattle.ll_item.specs.Items.{media_of as bytes_of};
ghost use Rattle.ll_service.specs.Faults.{IsOwn};
ghost use Rattle.ll_service.specs.Turns.{OfSpool};
ghost use Rattle.ll_spool.specs.Files.{AreHeld};
ghost use Rattle.ll_spool.specs.Kept.{HasFailed, IsRefused};
ghost use Rattle.ll_spool.specs.Spooled.{spooled_line};
ghost use Rattle.ll_spool.specs.declared.fault.KeepFault.TheVariants.{Earlier};

use crate::fault::LinkFault;
use ll_item::Item;
use ll_settings::Settings;
use ll_spool::{Disk, NotKept, Spool};
use std::marker::Model;
use std::sync::{Mutex, MutexGuard, Wait};

/// The locks of the channels' spools, in the channels' order; none if no items are kept. In contracts it is their number. They are taken by
/// [`Service::turn`](crate::Service::turn) alone.
#[derive(Drop)]
pub struct SpoolLocks<'a, D> {
    locks: &'a [Mutex<Spool<D>>],
}

impl<'a, D> Model for SpoolLocks<'a, D> {
    ghost use Rattle.std.specs.Prelude.{ℕ, length};

    ghost Value = { ℕ };

    ghost view = { λ s. length s.locks.now };
}

impl<'a, D> SpoolLocks<'a, D> {
    /// Returns the locks `locks`.
    pub fn new(locks: &'a [Mutex<Spool<D>>]) -> SpoolLocks<'a, D>
        ensures { result ≡ length locks.now }
    {
        SpoolLocks { locks }
    }

    /// Returns the same locks.
    pub fn again(&self) -> SpoolLocks<'a, D>
        ensures { result ≡ self.now }
    {
        SpoolLocks { locks: self.locks }
    }
}

impl<'a, D: Disk> SpoolLocks<'a, D> {
    /// Takes the turn in the channel at place `channel`, whose settings are `settings`, as [`Service::turn`](crate::Service::turn) does.
    pub(crate) fn turn<'t, R: Wait>(
        &'t self,
        rt: &R,
        channel: usize,
        settings: &'t Settings,
    ) -> Result<Turn<'t, D>, LinkFault>
        ensures own { IsOwn result }
        ensures spools { IfOk result (λ turn. turn.spools ≡ self.now) }
        ensures place { IfOk result (λ turn. turn.place ≡ channel) }
        ensures settings { IfOk result (λ turn. turn.settings ≡ settings.now) }
        ensures spool { IfOk result (λ turn. MatchOption turn.spool (self.now ≤ channel) (λ spool. spool.settings ≡ settings.now)) }
        ensures unmatched { IsErr result → channel < self.now }
    {
        let spools = self.locks.len();
        let Some(lock) = self.locks.get(channel) else {
            return Ok(Turn {
                spools,
                channel,
                settings,
                spool: None,
            });
        };
        let spool = lock.lock(rt);
        if !is_same(spool.settings(), settings) {
            return Err(LinkFault::Hub);
        }
        Ok(Turn {
            spools,
            channel,
            settings,
            spool: Some(spool),
        })
    }
}

/// Returns whether two settings are equal.
#[tactic(auto, using(ll_settings::proofs::SameLemmas::settings_decided))]
fn is_same(a: &Settings, b: &Settings) -> bool
    ensures { Decides result (a.now ≡ b.now) }
{
    a == b
}

/// A publisher's turn in a channel. As long as one publisher has it, no other has, if the channel has a spool. Who has it takes the channel's
/// lock after it, so items are kept in the order in which they are accepted; players never take it.
#[derive(Drop)]
pub struct Turn<'a, D> {
    /// The number of channels that have a spool.
    spools: usize,
    channel: usize,
    settings: &'a Settings,
    spool: Option<MutexGuard<'a, Spool<D>>>,
}

impl<'a, D> Model for Turn<'a, D> {
    ghost use Rattle.std.specs.Prelude.{option_map};
    ghost use Rattle.std.specs.Sync.Mutex.{mutex_guard_value};
    ghost use Rattle.ll_service.specs.Turns.{TurnValue};

    ghost Value = { TurnValue D };

    ghost view = { λ t. record { spools = t.spools; place = t.channel; settings = t.settings.now; spool = option_map mutex_guard_value t.spool } };
}

/// A token: the item of the number `count` of the channel at place `channel` was kept, or that channel has no spool, in a server that has the
/// spools of `spools` channels. Only [`Turn::keep`] makes one.
#[derive(Drop)]
pub struct Settled {
    spools: usize,
    channel: usize,
    count: u64,
}

impl Model for Settled {
    ghost use Rattle.ll_service.specs.Turns.{SettledValue};

    ghost Value = { SettledValue };

    ghost view = { λ s. record { spools = s.spools; place = s.channel; count = s.count } };
}

impl<'a, D> Turn<'a, D> {
    /// Returns the place of its channel.
    pub fn channel(&self) -> usize
        ensures { result ≡ self.now.place }
    {
        self.channel
    }

    /// Returns the settings of its channel.
    pub fn settings(&self) -> &'a Settings
        ensures { result.now ≡ self.now.settings }
    {
        self.settings
    }
}

impl<'a, D: Disk> Turn<'a, D> {
    /// Keeps `item`, which the channel has accepted as its item of the number `count`, in the channel's spool, if it has one. It fails as
    /// [`Spool::keep`] does, and never without a spool.
    pub fn keep(&mut self, count: u64, item: &Item) -> Result<Settled, NotKept>
        ensures token { IfOk result (λ settled. settled ≡ record { spools = self.old.spools; place = self.old.place; count = count }) }
        ensures same { self.new ≡ record self.old { spool = self.new.spool } }
        ensures free { self.old.spool ≡ None → IsOk result }
        ensures kept { OnOk result (OfSpool (λ old new. Appends (D.lines old.disk) (D.lines new.disk) (spooled_line old.settings count item.now)) self.old.spool self.new.spool) }
        ensures held { OnOk result (OfSpool (λ old new. (of : ℕ → List ℕ) → AreHeld of old.layouts.items (D.files old.disk) → of count ≡ bytes_of item.now
            → AreHeld of new.layouts.items (D.files new.disk)) self.old.spool self.new.spool) }
        ensures settings { OfSpool (λ old new. new.settings ≡ old.settings) self.old.spool self.new.spool }
        ensures steady { OnOk result (OfSpool (λ old new. D.failures new.disk ≡ D.failures old.disk) self.old.spool self.new.spool) }
        ensures fault { OfSpool (λ old new. old.failed ≡ false → IfErr result (HasFailed (IsRefused old.layouts.items item.now) (D.failures old.disk) (D.failures new.disk)))
            self.old.spool self.new.spool }
        ensures ended { OfSpool (λ old new. old.failed ≡ true → (result ≡ Err Earlier) × (new ≡ old)) self.old.spool self.new.spool }
    {
        let Some(spool) = &mut self.spool else {
            return Ok(Settled {
                spools: self.spools,
                channel: self.channel,
                count,
            });
        };
        let _kept = spool.keep(count, item)?;
        Ok(Settled {
            spools: self.spools,
            channel: self.channel,
            count,
        })
    }
}
