//! Does what the program is called to do, but for what needs threads.
ghost use Rattle.std.specs.Prelude.{◌≡◌, IfErr};
ghost use Rattle.ll_replay.specs.declared.outcome.RunFault.{RunFault};

use crate::failing::{misused, unfinished, unread, wrong_usage};
use crate::multivariant::multivariant;
use crate::push::publish;
use crate::words::words;
use ll_attr::Text;
use ll_command::{
    Command, Fault, Plan, Topic, run_script, secret_line, write_applied, write_checked,
    write_explained, write_help, write_summary, write_upgraded, write_version,
};
use ll_device::{CountedReader, CountedWriter, Writer};
use ll_origins::Job;
use ll_push::Ending;
use ll_reasons::Failure;
use ll_socket::Address;
use std::alloc::{AllocError, Global};
use std::fs::File;
use std::marker::Brand;
use std::sync::ledger::{Blank, Ledger};
use std::{fs, io};

/// The most origins at which a stream is published.
const ORIGINS: usize = 4;

/// How a command ended, or what is left of it for `main` to do.
pub enum Exit {
    Done,
    /// A record isn't right: how is written to standard output.
    BadRecord,
    /// A record isn't right, since nothing was written to its file yet.
    EmptyRecord,
    /// An origin refused what was published, with this answer.
    Refused(Text),
    /// A server is to run with a settings file: only `main` has the handle that starts threads.
    Serve {
        /// The file's name.
        path: Text,
        /// Its bytes.
        settings: Vec<u8>,
    },
    /// What an encoder writes is to be published at several origins: only `main` has the handle that starts threads.
    Push(Job),
}

/// Does what the program was called to do.
pub fn called(rt: &HostRuntime) -> Result<Exit, Failure> {
    let words = words(rt)?;
    match Command::of(&words) {
        Ok(command) => run_writing::<Brand>(rt, command, Blank::new(2)),
        Err(fault) => Err(misused(rt.alloc(), fault, &words)),
    }
}

/// Does what `command` says, and writes to standard output.
fn run_writing<L: Ledger>(
    rt: &HostRuntime,
    command: Command<'_>,
    writes: Blank,
) -> Result<Exit, Failure>
    requires name { writes.name ≡ L.name }
    requires parts { writes.parts ≡ L.parts }
    requires two { writes.parts ≡ 2 }
{
    let mut out: CountedWriter<io::Stdout, L> = CountedWriter::new(rt.stdout(), writes);
    run(rt, command, &mut out)
}

/// Does what `command` says, and writes to `out`.
fn run<W: Writer>(rt: &HostRuntime, command: Command<'_>, out: &mut W) -> Result<Exit, Failure> {
    match command {
        Command::Replay => {
            replay::<Brand, W>(rt, Blank::new(2), out)?;
            Ok(Exit::Done)
        }
        Command::Apply { base, delta } => apply(rt, base.as_str(), delta.as_str(), out),
        Command::Multivariant { record, sources } => {
            let right = multivariant(rt, record.as_str(), sources, out)?;
            Ok(exit_of(rt, record, right))
        }
        Command::Version => {
            write_version(out)?;
            Ok(Exit::Done)
        }
        Command::Help(topic) => {
            write_help(topic, out)?;
            Ok(Exit::Done)
        }
        Command::Serve(path) => Ok(Exit::Serve {
            settings: read_file(rt, path.as_str())?,
            path: path.copy()?,
        }),
        Command::Push {
            address,
            channel,
            rendition,
            plan,
            secret,
        } => publish_input(rt, job_of(rt, address, channel, rendition, plan, secret)?),
        command => run_on_record(rt, command, out),
    }
}

/// Does what `command` says if it is one on a record alone.
fn run_on_record<W: Writer>(
    rt: &HostRuntime,
    command: Command<'_>,
    out: &mut W,
) -> Result<Exit, Failure> {
    match command {
        Command::Check(record) => check::<Brand, W>(rt, record, Blank::new(2), out),
        Command::Upgrade(record) => {
            upgrade::<Brand, Brand, W>(rt, record, Blank::new(2), Blank::new(2), out)
        }
        Command::Summarize(record) => summarize::<Brand, W>(rt, record, Blank::new(2), out),
        Command::Explain { record, entry } => {
            explain::<Brand, W>(rt, record, entry, Blank::new(2), out)
        }
        _ => Err(Failure::from(Fault::Usage)),
    }
}

/// Writes the playlist that results from applying the delta update in the file `delta` to the one in the file `base`.
fn apply<W: Writer>(
    rt: &HostRuntime,
    base: &str,
    delta: &str,
    out: &mut W,
) -> Result<Exit, Failure> {
    let base = read_file(rt, base)?;
    let delta = read_file(rt, delta)?;
    write_applied(rt.alloc(), &base, &delta, out)?;
    Ok(Exit::Done)
}

/// Writes how many entries the record in a file has, or how it isn't right.
fn check<L: Ledger, W: Writer>(
    rt: &HostRuntime,
    path: &Text,
    reads: Blank,
    out: &mut W,
) -> Result<Exit, Failure>
    requires name { reads.name ≡ L.name }
    requires parts { reads.parts ≡ L.parts }
    requires two { reads.parts ≡ 2 }
{
    let mut record = open::<L>(rt, path, reads)?;
    match write_checked(rt.alloc(), &mut record, out) {
        Ok(right) => Ok(exit_of(rt, path, right)),
        Err(fault) => Err(unfinished(rt.alloc(), path, fault)),
    }
}

/// Writes the record in a file in format 2, or how it isn't right. It reads the file twice.
fn upgrade<L: Ledger, M: Ledger, W: Writer>(
    rt: &HostRuntime,
    path: &Text,
    reads: Blank,
    further: Blank,
    out: &mut W,
) -> Result<Exit, Failure>
    requires name { reads.name ≡ L.name }
    requires parts { reads.parts ≡ L.parts }
    requires two { reads.parts ≡ 2 }
    requires further_name { further.name ≡ M.name }
    requires further_parts { further.parts ≡ M.parts }
    requires further_two { further.parts ≡ 2 }
{
    let mut record = open::<L>(rt, path, reads)?;
    let mut again = open::<M>(rt, path, further)?;
    match write_upgraded(rt.alloc(), &mut record, &mut again, out) {
        Ok(right) => Ok(exit_of(rt, path, right)),
        Err(fault) => Err(unfinished(rt.alloc(), path, fault)),
    }
}

/// Writes a summary of the record in a file, or how it isn't right.
fn summarize<L: Ledger, W: Writer>(
    rt: &HostRuntime,
    path: &Text,
    reads: Blank,
    out: &mut W,
) -> Result<Exit, Failure>
    requires name { reads.name ≡ L.name }
    requires parts { reads.parts ≡ L.parts }
    requires two { reads.parts ≡ 2 }
{
    let mut record = open::<L>(rt, path, reads)?;
    match write_summary(rt.alloc(), &mut record, out) {
        Ok(right) => Ok(exit_of(rt, path, right)),
        Err(fault) => Err(unfinished(rt.alloc(), path, fault)),
    }
}

/// Writes what happened at an entry of the record in a file, or how the record isn't right.
fn explain<L: Ledger, W: Writer>(
    rt: &HostRuntime,
    path: &Text,
    entry: u64,
    reads: Blank,
    out: &mut W,
) -> Result<Exit, Failure>
    requires name { reads.name ≡ L.name }
    requires parts { reads.parts ≡ L.parts }
    requires two { reads.parts ≡ 2 }
{
    let mut record = open::<L>(rt, path, reads)?;
    match write_explained(rt.alloc(), &mut record, entry, out) {
        Ok(right) => Ok(exit_of(rt, path, right)),
        Err(fault) => Err(unfinished(rt.alloc(), path, fault)),
    }
}

/// Opens a file to read it in pieces.
fn open<L: Ledger>(
    rt: &HostRuntime,
    path: &Text,
    reads: Blank,
) -> Result<CountedReader<File, L>, Failure>
    requires name { reads.name ≡ L.name }
    requires parts { reads.parts ≡ L.parts }
    requires two { reads.parts ≡ 2 }
{
    match File::open(rt, path.as_str()) {
        Ok(file) => Ok(CountedReader::new(file, reads)),
        Err(error) => Err(unread(rt.alloc(), path.as_str(), error)),
    }
}

/// Returns the ending for the record in the file `path`, which is `right`, or isn't.
fn exit_of(rt: &HostRuntime, path: &Text, right: bool) -> Exit {
    if right {
        return Exit::Done;
    }
    match fs::metadata(rt, path.as_str()) {
        Ok(found) if found.is_file() && found.len() == 0 => Exit::EmptyRecord,
        _ => Exit::BadRecord,
    }
}

/// Returns what is published, and where, according to the words of a push.
fn job_of(
    rt: &HostRuntime,
    addresses: &Text,
    channel: &Text,
    rendition: &Text,
    plan: Plan,
    secret: Option<&str>,
) -> Result<Job, Failure> {
    let addresses = addresses_in(rt.alloc(), addresses.as_str())?;
    let greeting = match secret {
        Some(path) => Some(greeting_of(rt, channel.as_str(), path)?),
        None => None,
    };
    Ok(Job {
        addresses,
        channel: channel.copy()?,
        rendition: rendition.copy()?,
        plan,
        greeting,
    })
}

/// Returns the line by which a publisher of `channel` shows the secret in the file `path`.
fn greeting_of(rt: &HostRuntime, channel: &str, path: &str) -> Result<Vec<u8>, Failure> {
    let file = read_file(rt, path)?;
    match secret_line(rt.alloc(), channel, &file) {
        Ok(line) => Ok(line),
        Err(Fault::Usage) => Err(Failure::new(
            rt.alloc(),
            Fault::Usage,
            format_args!(
                "{path} holds no secret: one line of 1 to 256 visible ASCII characters, without spaces"
            ),
        )),
        Err(fault) => Err(Failure::from(fault)),
    }
}

/// Publishes what an encoder writes to standard input, or leaves that to `main` if there are several addresses.
fn publish_input(rt: &HostRuntime, job: Job) -> Result<Exit, Failure> {
    if job.addresses.len() > 1 {
        return Ok(Exit::Push(job));
    }
    let Some(address) = job.addresses.first() else {
        return Err(Failure::from(Fault::Usage));
    };
    match publish::<Brand, Brand>(rt, address, &job, Blank::new(2), Blank::new(2))? {
        Ending::Whole => Ok(Exit::Done),
        Ending::Refused(answer) => Ok(Exit::Refused(answer)),
    }
}

/// Parses one or more addresses with commas between them, at most four, none twice. Others are wrong usage.
fn addresses_in(alloc: Global, text: &str) -> Result<Vec<Address>, Failure> {
    let mut addresses = Vec::new(alloc);
    for word in text.split(',') {
        let address = address_in(alloc, word)?;
        if addresses.contains(&address) {
            return Err(wrong_usage(alloc, format_args!("`{word}` stands twice"), Topic::Push));
        }
        if addresses.len() == ORIGINS {
            return Err(wrong_usage(alloc, "there are more than four addresses", Topic::Push));
        }
        if addresses.push(address).is_err() {
            return Err(Failure::from(Fault::Memory));
        }
    }
    Ok(addresses)
}

/// Parses an address. Another text is wrong usage.
fn address_in(alloc: Global, word: &str) -> Result<Address, Failure> {
    match Address::parse(alloc, word) {
        Ok(Some(address)) => Ok(address),
        Ok(None) => Err(wrong_usage(
            alloc,
            format_args!(
                "`{word}` is no address with a port: HOST:PORT, as 127.0.0.1:8081, or unix:PATH"
            ),
            Topic::Push,
        )),
        Err(AllocError) => Err(Failure::from(Fault::Memory)),
    }
}

/// Runs the script on standard input, and writes its answers to `out`.
fn replay<L: Ledger, W: Writer>(rt: &HostRuntime, reads: Blank, out: &mut W) -> Result<(), Fault>
    requires name { reads.name ≡ L.name }
    requires parts { reads.parts ≡ L.parts }
    requires two { reads.parts ≡ 2 }
    ensures { IfErr result (λ f. (fault : RunFault) × (f ≡ Fault.Replay fault)) }
{
    let mut source: CountedReader<io::Stdin, L> = CountedReader::new(rt.stdin(), reads);
    run_script(rt.alloc(), &mut source, out)
}

/// Returns all bytes of a file.
pub(crate) fn read_file(rt: &HostRuntime, path: &str) -> Result<Vec<u8>, Failure> {
    match fs::read(rt, path) {
        Ok(bytes) => Ok(bytes),
        Err(error) => Err(unread(rt.alloc(), path, error)),
    }
}
