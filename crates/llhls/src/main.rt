//! `llhls`, an origin for Low-Latency HLS: it serves players and publishers, publishes what an encoder writes, and runs, checks and explains
//! what was published and asked. `llhls help` lists its commands.
#![tactic(auto)]

use ll_attr::Text;
use ll_command::Fault;
use ll_opening::Stop;
use ll_push::Ending;
use ll_reasons::{Failure, RefusalAdvice, SettingsReason};
use ll_run::{Exit, called, publish_job};
use ll_server::serve;
use std::io::IsTerminal;
use std::marker::Brand;
use std::process::ExitCode;
use std::sync::ledger::Blank;

/// The exit status if a record isn't right.
const BAD_RECORD: u8 = 3;

/// The exit status if an origin refuses what is published.
const REFUSED: u8 = 3;

fn main(rt: HostRuntime) -> ExitCode {
    let done = match called(&rt) {
        Ok(Exit::Done) => Ok(ExitCode::SUCCESS),
        Ok(Exit::BadRecord) => Ok(ExitCode::from(BAD_RECORD)),
        Ok(Exit::EmptyRecord) => Ok(empty_record(&rt)),
        Ok(Exit::Refused(answer)) => Ok(refused(&rt, &answer)),
        Ok(Exit::Serve { path, settings }) => match serve(&rt, rt.alloc(), &settings) {
            Ok(()) => Ok(ExitCode::SUCCESS),
            Err(stop) => stopped(&rt, stop, &path, &settings),
        },
        Ok(Exit::Push(job)) => {
            let input = (rt.stdin(), rt.stderr().is_terminal());
            match publish_job::<Brand, Brand, HostRuntime>(
                &rt,
                rt.alloc(),
                input,
                &job,
                Blank::new(2),
                Blank::new(2),
            ) {
                Ok(Ending::Whole) => Ok(ExitCode::SUCCESS),
                Ok(Ending::Refused(answer)) => Ok(refused(&rt, &answer)),
                Err(failure) => Err(failure),
            }
        }
        Err(failure) => Err(failure),
    };
    match done {
        Ok(status) => status,
        Err(failure) => {
            let _ = eprint!(rt; "{failure}");
            ExitCode::from(failure.fault().status())
        }
    }
}

/// Returns the exit status of a server with the settings file `path`, whose bytes are `settings`, that stopped so; or the failure that is yet
/// to be said.
fn stopped(
    rt: &HostRuntime,
    stop: Stop,
    path: &Text,
    settings: &[u8],
) -> Result<ExitCode, Failure> {
    match stop {
        Stop::BadLine(line) => {
            let reason = SettingsReason::of(rt.alloc(), settings, line);
            let fault = Fault::BadLine(line);
            let cause = format_args!("{reason}\nin {path}, line {line}");
            Err(Failure::new(rt.alloc(), fault, cause))
        }
        Stop::Clock => Err(Failure::from(Fault::Clock)),
        Stop::Listen(why) => Err(Failure::new(rt.alloc(), Fault::Listen, why)),
        Stop::Memory => Err(Failure::from(Fault::Memory)),
        Stop::Spool(status) => Ok(ExitCode::from(status)),
    }
}

/// Says that a record is empty, and returns the exit status.
fn empty_record<R: Eprint>(rt: &R) -> ExitCode {
    let _ = eprintln!(rt;
        "  The record is empty: nothing was written to it yet. A server writes its records every 10 seconds."
    );
    ExitCode::from(BAD_RECORD)
}

/// Says that an origin refused what was published with this `answer`, and returns the exit status.
fn refused<R: Eprint>(rt: &R, answer: &Text) -> ExitCode {
    let _ = eprint!(rt; "llhls: {answer}\n{}", RefusalAdvice(answer.as_str()));
    ExitCode::from(REFUSED)
}
