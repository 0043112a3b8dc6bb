//! Reads a server's settings file, which has one setting per line.
ghost use Rattle.std.specs.Prelude.{◌≡◌, ◌≤◌, ◌<◌, ◌+◌, [], IfErr, IfOk, IfSome, IsErrOf, OnOk, Ok, length, option_map, ℕ};
ghost use Rattle.ll_config.specs.Config.{address_line, config_in, count_line, door_line, files_from, hosted_from, next, next_idle, next_path, next_status, nobody, path_line, workers_line};
ghost use Rattle.ll_config.specs.Doors.{door_of};
ghost use Rattle.ll_config.specs.Faults.{IsFault, IsRightPast, IsRightTo, LeadsPast};

use crate::door::{Door, DoorText, address_in, door_in};
use crate::fault::ConfigFault;
use crate::hosted::Hosted;
use crate::lines::Lines;
use ll_attr::{Text, after, parse_number};
use std::alloc::{AllocError, Global};
use std::net::SocketAddr;

/// The most workers.
const WORKERS: u64 = 4_096;

/// The longest silence of a publisher, in seconds.
const IDLE: u64 = 86_400;

/// The settings of a server: the lines of its settings file, in this order.
#[derive(Drop)]
pub struct Config {
    /// `listen ADDRESS:PORT`: where players connect.
    pub players: SocketAddr,
    /// `publish ADDRESS:PORT` or `publish unix:PATH`: where publishers connect.
    pub publishers: Door,
    /// `workers N`: how many connections of publishers are served at once, and how many threads serve players at most.
    pub workers: Workers,
    /// What the server writes.
    pub files: Files,
    /// `status ADDRESS:PORT`, which is optional: where those connect who watch the server.
    pub status: Option<SocketAddr>,
    /// `idle N`, which is optional: after how many seconds without a byte a publisher is ended, 1 to 86,400.
    pub idle: Option<u64>,
    /// The settings lines of 1 to 1,024 channels with distinct names, each perhaps with a line `secret DIGEST` after it.
    pub hosted: Hosted,
    ghost some_channel: { 1 ≤ length hosted.channels },
    ghost few_channels: { length hosted.channels ≤ 1024 },
}

/// The paths of what a server writes.
pub struct Files {
    /// `record PATH`, which is optional: the path that the names of the records' files begin with.
    pub records: Option<Text>,
    /// `log PATH`, which is optional: the file that each channel's numbers go to.
    pub log: Option<Text>,
    /// `spool DIRECTORY`, which is optional: the directory of the channels' spools.
    pub spool: Option<Text>,
}

impl Drop for Files {
    fn drop(self) {
        let Files {
            records: _records,
            log: _log,
            spool: _spool,
        } = self;
    }
}

/// How many connections of publishers are served at once, and how many threads serve players at most.
#[derive(Clone, Copy, Drop)]
pub struct Workers {
    /// The number of either.
    pub count: usize,
    ghost some: { 1 ≤ count },
    ghost few: { count ≤ 4096 },
}

impl Config {
    /// Reads the settings file `bytes`.
    ///
    /// # Errors
    ///
    /// `BadLine` with the number of the first line that isn't allowed in its place, counted from 1; `Memory` if out of memory for a path or
    /// a channel, and the lines before it are right.
    pub fn read(alloc: Global, bytes: &[u8]) -> Result<Config, ConfigFault>
        ensures value { IfOk result (λ c. config_in bytes.now ≡ Ok (record {
          players = c.players;
          publishers = c.publishers;
          workers = c.workers.count;
          files = c.files;
          status = c.status;
          idle = c.idle;
          hosted = c.hosted;
        })) }
        ensures refused { (line : ℕ) → IsErrOf result (ConfigFault.BadLine line) → config_in bytes.now ≡ Err line }
        ensures memory { IsErrOf result ConfigFault.Memory → IfErr (config_in bytes.now) (λ line. 4 < line) }
    {
        let mut lines = Lines::of(bytes);
        let players = read_address(&mut lines, "listen ")?;
        let door = read_door(&mut lines)?;
        let workers = read_workers(&mut lines)?;
        let files = read_files(alloc, &mut lines)?;
        let status = read_status(&mut lines)?;
        let idle = read_idle(&mut lines)?;
        let hosted = read_hosted(alloc, &mut lines)?;
        let publishers = door.door(alloc)?;
        Ok(Config {
            players,
            publishers,
            workers,
            files,
            status,
            idle,
            hosted,
        })
    }
}

/// Reads the address in the next line, after `keyword`.
fn read_address(lines: &mut Lines<'_>, keyword: &str) -> Result<SocketAddr, ConfigFault>
    ensures value { IfOk result (λ a. next (address_line keyword.now) lines.old ≡ Ok (a, lines.new)) }
    ensures number { OnOk result (lines.new.number ≡ lines.old.number + 1) }
    ensures bad { IfErr result (λ fault. IsFault fault (next (address_line keyword.now) lines.old) ⊥) }
{
    let line = lines.text()?;
    match address_after(line, keyword) {
        Some(address) => Ok(address),
        None => Err(lines.bad()),
    }
}

/// Parses the address in `line`, after `keyword`.
fn address_after(line: &str, keyword: &str) -> Option<SocketAddr>
    ensures { result ≡ address_line keyword.now line.now }
{
    address_in(after(line, keyword)?)
}

/// Reads where publishers connect in the next line.
fn read_door<'a>(lines: &mut Lines<'a>) -> Result<DoorText<'a>, ConfigFault>
    ensures value { IfOk result (λ door. next door_line lines.old ≡ Ok (door_of door, lines.new)) }
    ensures number { OnOk result (lines.new.number ≡ lines.old.number + 1) }
    ensures bad { IfErr result (λ fault. IsFault fault (next door_line lines.old) ⊥) }
{
    let line = lines.text()?;
    match door_after(line) {
        Some(door) => Ok(door),
        None => Err(lines.bad()),
    }
}

/// Parses where publishers connect in `line`.
fn door_after(line: &str) -> Option<DoorText<'_>>
    ensures { option_map door_of result ≡ door_line line.now }
{
    door_in(after(line, "publish ")?)
}

/// Reads the number of workers in the next line.
fn read_workers(lines: &mut Lines<'_>) -> Result<Workers, ConfigFault>
    ensures value { IfOk result (λ w. next workers_line lines.old ≡ Ok (w.count, lines.new)) }
    ensures number { OnOk result (lines.new.number ≡ lines.old.number + 1) }
    ensures bad { IfErr result (λ fault. IsFault fault (next workers_line lines.old) ⊥) }
{
    let count = read_count(lines, "workers ", WORKERS)?;
    Ok(Workers {
        count: count as usize,
    })
}

/// Reads the number in the next line, after `keyword`: 1 to `most`.
fn read_count(lines: &mut Lines<'_>, keyword: &str, most: u64) -> Result<u64, ConfigFault>
    ensures value { IfOk result (λ n. next (count_line keyword.now most) lines.old ≡ Ok (n, lines.new)) }
    ensures some { IfOk result (λ n. (1 ≤ n) × (n ≤ most)) }
    ensures number { OnOk result (lines.new.number ≡ lines.old.number + 1) }
    ensures bad { IfErr result (λ fault. IsFault fault (next (count_line keyword.now most) lines.old) ⊥) }
{
    let line = lines.text()?;
    match count_after(line, keyword, most) {
        Some(count) => Ok(count),
        None => Err(lines.bad()),
    }
}

/// Parses the number in `line`, after `keyword`: 1 to `most`.
fn count_after(line: &str, keyword: &str, most: u64) -> Option<u64>
    ensures value { result ≡ count_line keyword.now most line.now }
    ensures some { IfSome result (λ n. (1 ≤ n) × (n ≤ most)) }
{
    let count = parse_number(after(line, keyword)?, 20)?;
    if 1 <= count && count <= most {
        Some(count)
    } else {
        None
    }
}

/// Reads the paths of files in the next lines.
fn read_files(alloc: Global, lines: &mut Lines<'_>) -> Result<Files, ConfigFault>
    ensures value { IfOk result (λ f. files_from lines.old ≡ Ok (f, lines.new)) }
    ensures number { OnOk result (lines.old.number ≤ lines.new.number) }
    ensures bad { IfErr result (λ fault. IsFault fault (files_from lines.old) (IsRightPast lines.old.number (files_from lines.old))) }
{
    let records = read_path(alloc, lines, "record ")?;
    let log = read_path(alloc, lines, "log ")?;
    let spool = read_path(alloc, lines, "spool ")?;
    Ok(Files {
        records,
        log,
        spool,
    })
}

/// Reads the path in the next line, if that begins with `keyword`. Any other line is left for later.
#[tactic(auto, using(crate::proofs::ConfigLemmas::begun_value, crate::proofs::ConfigLemmas::begun_bad, crate::proofs::ConfigLemmas::begun_past))]
fn read_path(
    alloc: Global,
    lines: &mut Lines<'_>,
    keyword: &str,
) -> Result<Option<Text>, ConfigFault>
    ensures value { IfOk result (λ p. next_path keyword.now lines.old ≡ Ok (p, lines.new)) }
    ensures number { OnOk result (lines.old.number ≤ lines.new.number) }
    ensures bad { IfErr result (λ fault. IsFault fault (next_path keyword.now lines.old) (LeadsPast lines.old.number (next_path keyword.now lines.old))) }
{
    if !lines.begins(keyword) {
        return Ok(None);
    }
    let path = read_path_text(lines, keyword)?;
    match Text::from_str(alloc, path) {
        Ok(path) => Ok(Some(path)),
        Err(AllocError) => Err(ConfigFault::Memory),
    }
}

/// Reads the path in the next line, after `keyword`.
fn read_path_text<'a>(lines: &mut Lines<'a>, keyword: &str) -> Result<&'a str, ConfigFault>
    ensures value { IfOk result (λ p. next (path_line keyword.now) lines.old ≡ Ok (p.now, lines.new)) }
    ensures number { OnOk result (lines.new.number ≡ lines.old.number + 1) }
    ensures bad { IfErr result (λ fault. IsFault fault (next (path_line keyword.now) lines.old) ⊥) }
{
    let line = lines.text()?;
    match path_in(line, keyword) {
        Some(path) => Ok(path),
        None => Err(lines.bad()),
    }
}

/// Parses the path in `line`, after `keyword`: one byte or more.
fn path_in<'a>(line: &'a str, keyword: &str) -> Option<&'a str>
    ensures { option_map (λ p. p.now) result ≡ path_line keyword.now line.now }
{
    let path = after(line, keyword)?;
    if path.is_empty() { None } else { Some(path) }
}

/// Reads the address of the status port in the next line, if that begins with `status`. Any other line is left for later.
#[tactic(auto, using(crate::proofs::ConfigLemmas::begun_value, crate::proofs::ConfigLemmas::begun_bad))]
fn read_status(lines: &mut Lines<'_>) -> Result<Option<SocketAddr>, ConfigFault>
    ensures value { IfOk result (λ a. next_status lines.old ≡ Ok (a, lines.new)) }
    ensures number { OnOk result (lines.old.number ≤ lines.new.number) }
    ensures bad { IfErr result (λ fault. IsFault fault (next_status lines.old) ⊥) }
{
    if !lines.begins("status ") {
        return Ok(None);
    }
    Ok(Some(read_address(lines, "status ")?))
}

/// Reads a publisher's longest silence in the next line, if that begins with `idle`. Any other line is left for later.
#[tactic(auto, using(crate::proofs::ConfigLemmas::begun_value, crate::proofs::ConfigLemmas::begun_bad))]
fn read_idle(lines: &mut Lines<'_>) -> Result<Option<u64>, ConfigFault>
    ensures value { IfOk result (λ n. next_idle lines.old ≡ Ok (n, lines.new)) }
    ensures number { OnOk result (lines.old.number ≤ lines.new.number) }
    ensures bad { IfErr result (λ fault. IsFault fault (next_idle lines.old) ⊥) }
{
    if !lines.begins("idle ") {
        return Ok(None);
    }
    Ok(Some(read_count(lines, "idle ", IDLE)?))
}

/// Reads the channels of all lines that are left. Without a line the next one is bad.
fn read_hosted(alloc: Global, lines: &mut Lines<'_>) -> Result<Hosted, ConfigFault>
    ensures value { IfOk result (λ all. hosted_from nobody lines.old.lines lines.old.number ≡ Ok all) }
    ensures bad { IfErr result (λ fault. IsFault fault (hosted_from nobody lines.old.lines lines.old.number) (IsRightTo lines.old.number (hosted_from nobody lines.old.lines lines.old.number))) }
    ensures some { IfOk result (λ all. 1 ≤ length all.channels) }
    ensures few { IfOk result (λ all. length all.channels ≤ 1024) }
{
    let mut all = Hosted::new(alloc);
    add_lines(alloc, &mut all, lines)?;
    if all.channels().is_empty() {
        return Err(lines.missing());
    }
    Ok(all)
}

/// Adds to `all`, which has no channel yet, the channels of all lines that are left.
#[tactic(auto, using(crate::proofs::HostedLemmas::reads_over))]
fn add_lines(alloc: Global, all: &mut Hosted, lines: &mut Lines<'_>) -> Result<(), ConfigFault>
    requires { all.old ≡ nobody }
    ensures value { OnOk result (hosted_from nobody lines.old.lines lines.old.number ≡ hosted_from all.new [] lines.new.number) }
    ensures bad { IfErr result (λ fault. IsFault fault (hosted_from nobody lines.old.lines lines.old.number) (IsRightTo lines.old.number (hosted_from nobody lines.old.lines lines.old.number))) }
{
    while !lines.is_over() {
        let line = lines.text()?;
        match all.add_line(alloc, line) {
            Ok(true) => {}
            Ok(false) => return Err(lines.bad()),
            Err(AllocError) => return Err(ConfigFault::Memory),
        }
    }
    Ok(())
}
