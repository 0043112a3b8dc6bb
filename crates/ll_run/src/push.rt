//! Publishes what an encoder writes to standard input.
ghost use Rattle.std.specs.Prelude.{◌≡◌};

use crate::calendar::SystemCalendar;
use crate::input::Input;
use ll_command::Fault;
use ll_device::CountedReader;
use ll_origins::{Job, Meter, publish_at_all};
use ll_push::{Ending, PushFault, Target, push};
use ll_reasons::{Beginning, Failure};
use ll_socket::{Address, Connector};
use std::alloc::Global;
use std::io::{self, Error, ErrorKind, IsTerminal};
use std::net::{Net, TcpListener, TcpStream};
use std::sync::Wait;
use std::sync::ledger::{Blank, Ledger};
use std::thread::Threads;
use std::time::{Clock, Duration};

/// What is said of an origin that accepted connections, and nothing on them.
const LOST: &str = "connections were made, and each was lost before anything was accepted";

/// What is said if all of several origins are left.
const ALL_LEFT: &str =
    "none of the servers takes what comes; any lines above say why each was left";

/// What is said of an origin that answers otherwise than one does.
const STRANGE: &str = "the answer is not that of a server's port for publishers";

/// Makes the C library keep freed memory for later parts: once it has freed a block of this size, it keeps up to twice as much. Before that it
/// returns the memory of almost every part to the system, which clears it anew for the next one.
fn keep_freed_memory(alloc: Global) {
    let _ = Vec::<u8>::with_capacity(alloc, 16_777_216);
}

/// Publishes what an encoder writes to standard input, at `address` according to `job`. Each blank has two parts, one for each count.
pub(crate) fn publish<L: Ledger, M: Ledger>(
    rt: &HostRuntime,
    address: &Address,
    job: &Job,
    reads: Blank,
    times: Blank,
) -> Result<Ending, Failure>
    requires name { reads.name ≡ L.name }
    requires parts { reads.parts ≡ L.parts }
    requires two { reads.parts ≡ 2 }
    requires times_name { times.name ≡ M.name }
    requires times_parts { times.parts ≡ M.parts }
    requires times_two { times.parts ≡ 2 }
{
    let counted: CountedReader<io::Stdin, L> = CountedReader::new(rt.stdin(), reads);
    let mut source = Input::new(counted);
    let mut clock: SystemCalendar<'_, HostRuntime, M> = SystemCalendar::new(rt, times);
    let plan = job.plan;
    let retry = Duration::from_secs(plan.retry);
    let mut origin = Connector::new(rt, address, job.greeting(), retry);
    let mut meter = Meter::new(rt, rt.stderr().is_terminal());
    let target = Target {
        names: job.names(),
        lengths: plan.lengths,
        ends: plan.ends,
    };
    // Each further connection takes at least half a second, so as many idle ones in a row as this take about `retry` seconds or more.
    let tries = plan.retry.saturating_mul(2);
    keep_freed_memory(rt.alloc());
    let done = push(
        rt.alloc(),
        &target,
        tries,
        &mut source,
        &mut clock,
        &mut origin,
        &mut meter,
    );
    meter.end_line();
    match done {
        Ok(ending) => Ok(ending),
        Err(fault) => {
            let alloc = rt.alloc();
            Err(match refused_input(alloc, fault, source.beginning()) {
                Some(failure) => failure,
                None => failure_at(alloc, fault, address, origin.failure()),
            })
        }
    }
}

/// Returns the failure of publishing that ends with `fault`, if that is because of the input: one that is `begun` so has no box there.
fn refused_input(alloc: Global, fault: PushFault, begun: Option<Beginning>) -> Option<Failure> {
    let PushFault::Input(_) = fault else {
        return None;
    };
    Some(match begun {
        Some(beginning) => Failure::new(alloc, Fault::NotMp4, beginning),
        None => Failure::from(Fault::Push(fault)),
    })
}

/// Returns the failure of publishing at `address` that ends with `fault`, if the last attempt to connect failed so.
fn failure_at(
    alloc: Global,
    fault: PushFault,
    address: &Address,
    failed: Option<Error>,
) -> Failure {
    let why = match (fault, failed) {
        (PushFault::Connect, Some(error)) => error,
        (PushFault::Connect, None) => Error::new(ErrorKind::ConnectionAborted, LOST),
        (PushFault::BadAnswer, _) => Error::new(ErrorKind::InvalidData, STRANGE),
        _ => return Failure::from(Fault::Push(fault)),
    };
    let fault = Fault::Push(fault);
    Failure::new(alloc, fault, format_args!("{address}: {why}"))
}

/// Publishes what an encoder writes to `input`, its bytes and whether standard error is a terminal, at the origins of `job`. Each blank has
/// two parts, one for each count.
pub fn publish_job<
    L: Ledger,
    M: Ledger,
    R: Net<Listener = TcpListener, Stream = TcpStream> + Eprint + Clock + Threads + Wait + Sync,
>(
    rt: &R,
    alloc: Global,
    input: (io::Stdin, bool),
    job: &Job,
    reads: Blank,
    times: Blank,
) -> Result<Ending, Failure>
    requires name { reads.name ≡ L.name }
    requires parts { reads.parts ≡ L.parts }
    requires two { reads.parts ≡ 2 }
    requires times_name { times.name ≡ M.name }
    requires times_parts { times.parts ≡ M.parts }
    requires times_two { times.parts ≡ 2 }
{
    let counted: CountedReader<io::Stdin, L> = CountedReader::new(input.0, reads);
    let mut source = Input::new(counted);
    let mut clock: SystemCalendar<'_, R, M> = SystemCalendar::new(rt, times);
    keep_freed_memory(alloc);
    match publish_at_all(rt, alloc, job, &mut source, &mut clock, input.1) {
        Ok(ending) => Ok(ending),
        Err(Fault::Push(fault)) => Err(match refused_input(alloc, fault, source.beginning()) {
            Some(failure) => failure,
            None => Failure::new(alloc, Fault::Push(fault), ALL_LEFT),
        }),
        Err(fault) => Err(Failure::from(fault)),
    }
}
