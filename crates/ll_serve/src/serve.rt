//! A connection of either role, served to its end.
ghost use Rattle.std.specs.Prelude.{◌≡◌, ◌^◌, IsErrOf, OnErr, OnOk, min, true};
ghost use Rattle.ll_player.specs.Playing.{IsCutShort, IsPlayed};
ghost use Rattle.ll_publisher.specs.Doors.{origin};
ghost use Rattle.ll_service.specs.Faults.{IsTrue};
ghost use Rattle.ll_publisher.specs.Publishing.{IsCutOff, IsServed};
ghost use Rattle.ll_service.specs.Reads.{IsReadThrough, IsReadWithin};

use ll_device::{Link, Role};
use ll_hub::{Bell, Clock, Ledgers, Pass, Sink};
use ll_service::{Gate, LinkFault, Service};
use ll_spool::Disk;
use std::sync::Wait;
use std::time;

/// The most reads of one connection.
const READS: u64 = 1 << 32;

/// Serves one connection to its end, and returns how many answers it got, or why it was ended. Each line of a publisher is answered by one
/// line, in their order. A player that hangs up while its request is held has ended its connection; the request is closed. If the record of
/// a channel is full, it goes to the sink, and the call that found it full is made once more.
pub fn serve_link<
    L: Ledgers,
    P: Link,
    C: Clock,
    G: Gate,
    K: Sink,
    D: Disk,
    B: Bell,
    R: Wait + time::Clock,
>(
    service: &Service<'_, L, C, G, K, D, B, R>,
    role: Role,
    link: &mut P,
    pass: &mut Pass<L>,
) -> Result<u64, LinkFault>
    ensures faults { IsTrue result (P.failures link.old) (P.failures link.new) }
    ensures few { IsReadWithin (P.inward link.old) (P.inward link.new) (2 ^ 32) }
    ensures endless { IsErrOf result LinkFault.Endless → IsReadThrough (P.inward link.old) (P.inward link.new) (2 ^ 32) }
    ensures served { role ≡ Role.Publisher → OnOk result (IsServed (origin service.now.hub.now service.now.secrets.now) pass.old pass.new (P.inward link.old) (P.inward link.new) (P.written link.old) (P.written link.new)) }
    ensures cut_off { role ≡ Role.Publisher → OnErr result (IsCutOff (origin service.now.hub.now service.now.secrets.now) pass.old pass.new (P.inward link.old) (P.inward link.new) (P.written link.old) (P.written link.new)) }
    ensures played { role ≡ Role.Player → OnOk result (IsPlayed (C.shows service.now.clock.now) service.now.hub.now pass.old pass.new (P.inward link.old) (P.inward link.new) (P.written link.old) (P.written link.new)) }
    ensures cut_short { role ≡ Role.Player → OnErr result (IsCutShort (C.shows service.now.clock.now) service.now.hub.now true
        (record { pass = pass.old; inward = P.inward link.old; written = P.written link.old }) (P.inward link.new) (P.written link.new) pass.new) }
{
    serve_link_within(service, role, link, pass, READS)
}

/// Serves one connection as [`serve_link`] does, but fails with Endless after `reads` reads, of which more than 2^32 count as 2^32.
pub fn serve_link_within<
    L: Ledgers,
    P: Link,
    C: Clock,
    G: Gate,
    K: Sink,
    D: Disk,
    B: Bell,
    R: Wait + time::Clock,
>(
    service: &Service<'_, L, C, G, K, D, B, R>,
    role: Role,
    link: &mut P,
    pass: &mut Pass<L>,
    reads: u64,
) -> Result<u64, LinkFault>
    ensures faults { IsTrue result (P.failures link.old) (P.failures link.new) }
    ensures few { IsReadWithin (P.inward link.old) (P.inward link.new) (min reads (2 ^ 32)) }
    ensures endless { IsErrOf result LinkFault.Endless → IsReadThrough (P.inward link.old) (P.inward link.new) (min reads (2 ^ 32)) }
    ensures served { role ≡ Role.Publisher → OnOk result (IsServed (origin service.now.hub.now service.now.secrets.now) pass.old pass.new (P.inward link.old) (P.inward link.new) (P.written link.old) (P.written link.new)) }
    ensures cut_off { role ≡ Role.Publisher → OnErr result (IsCutOff (origin service.now.hub.now service.now.secrets.now) pass.old pass.new (P.inward link.old) (P.inward link.new) (P.written link.old) (P.written link.new)) }
    ensures played { role ≡ Role.Player → OnOk result (IsPlayed (C.shows service.now.clock.now) service.now.hub.now pass.old pass.new (P.inward link.old) (P.inward link.new) (P.written link.old) (P.written link.new)) }
    ensures cut_short { role ≡ Role.Player → OnErr result (IsCutShort (C.shows service.now.clock.now) service.now.hub.now true
        (record { pass = pass.old; inward = P.inward link.old; written = P.written link.old }) (P.inward link.new) (P.written link.new) pass.new) }
{
    let most = reads.min(READS);
    match role {
        Role::Player => ll_player::serve(service, link, pass, most),
        Role::Publisher => {
            service.gate.joined();
            let served = ll_publisher::serve(service, link, pass, most);
            service.gate.left();
            served
        }
    }
}
