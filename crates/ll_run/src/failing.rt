//! What is said of a command that fails, beside its fault.
use ll_attr::Text;
use ll_command::{Fault, Topic, fault_of};
use ll_reasons::{Failure, PushReason, WordsReason};
use std::alloc::Global;
use std::fmt::Display;
use std::io;

/// Returns wrong usage for this reason, `why`, with how `topic` is used.
pub(crate) fn wrong_usage<D: Display + Drop>(alloc: Global, why: D, topic: Topic) -> Failure {
    let usage = topic.usage();
    Failure::new(alloc, Fault::Usage, format_args!("{why}\n{usage}"))
}

/// Returns the failure with `fault`, with which `words` are no command.
pub(crate) fn misused(alloc: Global, fault: Fault, words: &[Text]) -> Failure {
    let [_program, name, rest @ ..] = words else {
        return Failure::new(alloc, fault, Topic::Program.usage());
    };
    match Topic::named(name.as_str()) {
        Some(Topic::Push) => wrong_usage(alloc, PushReason::of(rest), Topic::Push),
        Some(topic) => wrong_usage(alloc, WordsReason::of(topic, rest), topic),
        None => wrong_usage(
            alloc,
            format_args!("`{name}` is no command"),
            Topic::Program,
        ),
    }
}

/// Returns the failure of a file `path` that `error` kept from being read.
pub(crate) fn unread(alloc: Global, path: &str, error: io::Error) -> Failure {
    let fault = fault_of(error.kind(), Fault::Read);
    Failure::new(alloc, fault, format_args!("{path}: {error}"))
}

/// Returns the failure of a command on the record in the file `path` that ends with `fault`.
pub(crate) fn unfinished(alloc: Global, path: &Text, fault: Fault) -> Failure {
    match fault {
        Fault::Read => Failure::new(alloc, fault, format_args!("{path}: a read failed")),
        Fault::Endless | Fault::Changed | Fault::NoEntry => Failure::new(alloc, fault, path),
        _ => Failure::from(fault),
    }
}
