//! What connections are served with, the hand-out of a full record, and the turn of a publisher.
ghost use Rattle.std.specs.Prelude.{◌≡◌, ◌<◌, ◌≤◌, IfOk, IsErr, MatchOption, OnOk};
ghost use Rattle.ll_hub.specs.Calls.{HasSeen};
ghost use Rattle.ll_service.specs.Faults.{IsOwn};
ghost use Rattle.ll_service.specs.HandOuts.{IsHandedOver};

use crate::fault::LinkFault;
use crate::turn::{SpoolLocks, Turn};
use ll_counts::Gate;
use ll_door::Digest;
use ll_hub::{Hub, Ledgers, Pass, Sink};
use ll_settings::Settings;
use ll_spool::Disk;
use std::alloc::Global;
use std::marker::Model;
use std::sync::Wait;

/// What connections are served with. All connections of a hub share it.
#[derive(Drop)]
pub struct Service<'a, L: Ledgers, C, G, K, D, B, R> {
    /// The runtime.
    pub rt: &'a R,
    /// The allocator of what connections keep.
    pub alloc: Global,
    /// The clock that requests read.
    pub clock: &'a C,
    /// The gate that each answer passes, which also learns what connections get.
    pub gate: &'a G,
    /// Where full records go.
    pub sink: &'a K,
    /// Who learns that replies became ready.
    pub bell: &'a B,
    /// The channels.
    pub hub: &'a Hub<L>,
    /// The locks of the channels' spools, in the channels' order, or none if no items are kept.
    pub spools: SpoolLocks<'a, D>,
    /// The digests of the channels' secrets, in their order; further channels have none.
    pub secrets: &'a [Option<Digest>],
}

/// A token: the record of the channel at place `channel` was handed to the sink. Only [`Service::hand_out`] makes one.
#[derive(Drop)]
pub struct HandedOut {
    channel: usize,
}

impl Model for HandedOut {
    ghost use Rattle.std.specs.Prelude.{ℕ};

    ghost Value = { ℕ };

    ghost view = { λ h. h.channel };
}

impl<L: Ledgers, C, G: Gate, K: Sink, D, B, R: Wait> Service<'_, L, C, G, K, D, B, R> {
    /// Hands the full record of the channel at place `channel` to the sink. Its caller, with `pass`, has then seen that.
    #[tactic(auto, using(crate::proofs::HandOutLemmas::handed_over))]
    pub fn hand_out(&self, pass: &mut Pass<L>, channel: usize) -> Result<HandedOut, LinkFault>
        ensures own { IsOwn result }
        ensures place { IfOk result (λ handed. handed ≡ channel) }
        ensures handed { OnOk result (IsHandedOver K.taken self.now.hub.now channel pass.old.history pass.new.history self.now.sink.now) }
        ensures seen { HasSeen pass.old pass.new }
    {
        self.gate.filled(channel);
        let (mut sink, mut past) = (*self.sink, pass.past());
        let handed = self.hub.rotate_to(self.rt, &mut past, channel, &mut sink);
        pass.learn(&past);
        match handed {
            Ok(()) => Ok(HandedOut { channel }),
            Err(_) => Err(LinkFault::Hub),
        }
    }
}

impl<L: Ledgers, C, G, K, D: Disk, B, R: Wait> Service<'_, L, C, G, K, D, B, R> {
    /// Takes the turn to publish in the channel at place `channel`, whose settings are `settings`: the lock of its spool, unless it has none.
    ///
    /// # Errors
    ///
    /// Hub, if the spool at that place is of other settings. That is never so: no proof sees what lies under a lock, so this is checked.
    pub fn turn<'t>(
        &'t self,
        channel: usize,
        settings: &'t Settings,
    ) -> Result<Turn<'t, D>, LinkFault>
        ensures own { IsOwn result }
        ensures spools { IfOk result (λ turn. turn.spools ≡ self.now.spools) }
        ensures place { IfOk result (λ turn. turn.place ≡ channel) }
        ensures settings { IfOk result (λ turn. turn.settings ≡ settings.now) }
        ensures spool { IfOk result (λ turn. MatchOption turn.spool (self.now.spools ≤ channel) (λ spool. spool.settings ≡ settings.now)) }
        ensures unmatched { IsErr result → channel < self.now.spools }
    {
        self.spools.turn(self.rt, channel, settings)
    }
}
