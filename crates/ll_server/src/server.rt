//! Runs the server: opens its files and ports, and starts its threads.
ghost use denote.Param.Send.{IsSend};
ghost use Rattle.std.specs.Prelude.{◌≡◌, ◌≤◌, length};

use crate::watch::Watch;
use ll_config::{Config, Workers};
use ll_counts::Numbers;
use ll_files::{Log, NewFiles, Records, SpoolFiles, Unusable};
use ll_hub::{Blanks, Hub, HubFault, Ledgers, Pass};
use ll_notes::Notes;
use ll_opening::{Doors, IDLE, Listeners, Spools, Stop, restore_all, serve_status};
use ll_serve::{Bells, HubBell, Role, Service, SpoolLocks, serve_links, serve_players};
use ll_settings::Settings;
use ll_socket::Listener;
use ll_status::StatusPort;
use std::alloc::{AllocError, Global};
use std::fs::File;
use std::marker::Brand;
use std::net::{Net, TcpListener, TcpStream};
use std::rt::Files;
use std::sync::Wait;
use std::sync::atomic::{AtomicBool, Ordering};
use std::thread::Threads;
use std::time::Instant;
use std::{thread, time};

/// A server without its channels.
#[derive(Drop)]
pub(crate) struct Server<'a, R> {
    pub(crate) rt: &'a R,
    pub(crate) alloc: Global,
    pub(crate) watch: Watch<'a, R>,
    pub(crate) records: Records<'a, R>,
    pub(crate) numbers: Numbers<'a, R>,
    pub(crate) log: Log<'a, R>,
    /// What is noted for the log, if it is kept.
    pub(crate) notes: Option<Notes<'a, R>>,
    workers: Workers,
    /// Whether its ports are open.
    open: &'a AtomicBool,
}

/// What a server serves connections with: `'a` is how long it runs, `'s` how long it serves.
pub(crate) type Serving<'s, 'a, L, R> = Service<
    's,
    L,
    Watch<'a, R>,
    Numbers<'a, R>,
    &'s Records<'a, R>,
    SpoolFiles<'a, R>,
    HubBell<'s>,
    R,
>;

/// Serves players and publishers of the channels of the settings file `settings`, until it is stopped. If their items are kept, first
/// publishes those that were. If its ports can't be opened, no file is left that wasn't there before.
pub fn serve<
    R: Net<Listener = TcpListener, Stream = TcpStream>
        + Files<File = File>
        + Eprint
        + time::Clock
        + Threads
        + Wait
        + Sync,
>(rt: &R, alloc: Global, settings: &[u8]) -> Result<(), Stop> {
    let config = Config::read(alloc, settings)?;
    let (mut made, open) = (NewFiles::new(alloc), AtomicBool::new(false));
    let done = serve_from(rt, alloc, config, &mut made, &open);
    if !open.load(Ordering::SeqCst) {
        made.remove(rt);
    }
    done
}

/// Serves the channels of `config`. Notes in `made` which files it makes, and in `open` that its ports are open.
fn serve_from<
    R: Net<Listener = TcpListener, Stream = TcpStream>
        + Files<File = File>
        + Eprint
        + time::Clock
        + Threads
        + Wait
        + Sync,
>(
    rt: &R,
    alloc: Global,
    config: Config,
    made: &mut NewFiles,
    open: &AtomicBool,
) -> Result<(), Stop> {
    let files = open_spools(rt, alloc, &config, made)?;
    let server = open_server(rt, alloc, &config, made, open)?;
    let ((), done) = thread::join(
        rt,
        || server.records.write_on(),
        || serve_channels(&server, config, files),
    );
    done
}

/// Serves the channels of `config`, whose spools have the files `files`. Then ends the queue of the records.
fn serve_channels<
    R: Net<Listener = TcpListener, Stream = TcpStream>
        + Files
        + Eprint
        + time::Clock
        + Threads
        + Wait
        + Sync,
>(server: &Server<'_, R>, config: Config, files: Vec<SpoolFiles<'_, R>>) -> Result<(), Stop> {
    let (channels, secrets) = config.hosted.into_parts();
    let doors = Doors {
        players: config.players,
        publishers: config.publishers,
        idle: config.idle,
        status: config.status,
        secrets,
    };
    let done = host::<Brand, R>(server, channels, Blanks::new(), doors, files);
    server.records.end();
    done
}

/// Opens the files of the channels' spools, if items are kept.
fn open_spools<'a, R: Files<File = File> + Eprint>(
    rt: &'a R,
    alloc: Global,
    config: &Config,
    made: &mut NewFiles,
) -> Result<Vec<SpoolFiles<'a, R>>, Stop> {
    let mut files = Vec::new(alloc);
    let Some(directory) = &config.files.spool else {
        return Ok(files);
    };
    for settings in config.hosted.channels() {
        match SpoolFiles::open(rt, alloc, made, directory, settings) {
            Ok(Ok(opened)) => {
                if files.push(opened).is_err() {
                    return Err(Stop::Memory);
                }
            }
            Ok(Err(Unusable)) => return Err(Stop::Spool(4)),
            Err(AllocError) => return Err(Stop::Memory),
        }
    }
    Ok(files)
}

/// Returns a server with the settings `config`, whose files it opens. Its time starts now.
fn open_server<'a, R: Files<File = File> + Eprint + time::Clock>(
    rt: &'a R,
    alloc: Global,
    config: &Config,
    made: &mut NewFiles,
    open: &'a AtomicBool,
) -> Result<Server<'a, R>, Stop> {
    let Ok(start) = Instant::now(rt) else {
        return Err(Stop::Clock);
    };
    Ok(server_from(rt, alloc, config, made, (start, open))?)
}

/// Returns a server with the settings `config`, whose files it opens. `since` is when its time starts, and whether its ports are open.
fn server_from<'a, R: Files<File = File> + Eprint>(
    rt: &'a R,
    alloc: Global,
    config: &Config,
    made: &mut NewFiles,
    since: (Instant, &'a AtomicBool),
) -> Result<Server<'a, R>, AllocError> {
    let (start, open) = since;
    let (files, channels) = (&config.files, config.hosted.channels());
    let notes = match files.log {
        Some(_) => Some(Notes::new(rt, alloc, channels)?),
        None => None,
    };
    Ok(Server {
        rt,
        alloc,
        watch: Watch { rt, start },
        records: Records::open(rt, alloc, made, files.records.as_ref(), channels)?,
        log: Log::open(rt, alloc, made, files.log.as_ref())?,
        numbers: Numbers::new(rt, alloc, start, channels)?,
        notes,
        workers: config.workers,
        open,
    })
}

/// What a server has once its ports are open.
#[derive(Drop)]
struct Opened<'a, L: Ledgers, R> {
    spools: Spools<'a, R>,
    /// The pass with which the spools' items were published.
    pass: Pass<L>,
    listeners: Listeners<'a, R>,
}

/// Publishes the items of the spools whose files are `files`, and then opens `doors`, and says on standard error where they are.
fn open<
    'a,
    L: Ledgers,
    R: Net<Listener = TcpListener, Stream = TcpStream> + Files + Eprint + time::Clock + Wait,
>(
    server: &'a Server<'a, R>,
    hub: &'a Hub<L>,
    doors: &Doors,
    files: Vec<SpoolFiles<'a, R>>,
) -> Result<Opened<'a, L, R>, Stop> {
    let (rt, numbers) = (server.rt, &server.numbers);
    let (spools, pass) = restore_all(rt, server.alloc, hub, &server.records, numbers, files)?;
    let listeners = doors.open(rt, server.alloc)?;
    server.open.store(true, Ordering::SeqCst);
    Ok(Opened {
        spools,
        pass,
        listeners,
    })
}

/// Serves `channels` to those who connect at `doors`, once the items of the spools whose files are `files` are published.
fn host<
    L: Ledgers + Send + Sync,
    R: Net<Listener = TcpListener, Stream = TcpStream>
        + Files
        + Eprint
        + time::Clock
        + Threads
        + Wait
        + Sync,
>(
    server: &Server<'_, R>,
    channels: Vec<Settings>,
    blanks: Blanks,
    doors: Doors,
    files: Vec<SpoolFiles<'_, R>>,
) -> Result<(), Stop>
    requires some { 1 ≤ length channels.items }
    requires most { length channels.items ≤ 1024 }
    requires names { blanks ≡ L.names }
    requires channels { L.channels ≡ length channels.items }
{
    let pollers = pollers(server.rt, server.workers);
    let Ok(bells) = Bells::new(server.rt, server.alloc, pollers, channels.len()) else {
        return Err(Stop::Memory);
    };
    let Ok(hub) = Hub::<L>::new(server.alloc, channels, blanks) else {
        return Err(Stop::Memory);
    };
    match serve_at(&*server, &hub, &bells, &doors, files) {
        Ok((passes, all)) => match hub.finish(passes) {
            Ok(_) if all => Ok(()),
            _ => Err(Stop::Memory),
        },
        Err(stop) => {
            let _ = hub.finish(Vec::new(server.alloc));
            Err(stop)
        }
    }
}

/// Publishes the items of the spools whose files are `files`, opens `doors`, and serves who connects there. Returns the passes, and whether
/// they are all there.
fn serve_at<
    'a,
    L: Ledgers + Send + Sync,
    R: Net<Listener = TcpListener, Stream = TcpStream>
        + Files
        + Eprint
        + time::Clock
        + Threads
        + Wait
        + Sync,
>(
    server: &'a Server<'_, R>,
    hub: &'a Hub<L>,
    bells: &'a Bells,
    doors: &'a Doors,
    files: Vec<SpoolFiles<'a, R>>,
) -> Result<(Vec<Pass<L>>, bool), Stop> {
    let opened = open(&*server, &*hub, &*doors, files)?;
    Ok((&*server).host_on(&*hub, &*bells, &*doors, opened))
}

/// Returns how many pollers serve players: one for each processor, and no more than there are `workers`.
fn pollers<R: Threads>(rt: &R, workers: Workers) -> usize
    ensures { 1 ≤ result }
{
    let processors = match thread::available_parallelism(rt) {
        Ok(count) => count.get(),
        Err(_) => 1,
    };
    processors.min(workers.count).max(1)
}

/// Returns what the connections of `server` are served with: the channels of `hub`, whose full records go to `sink`, whose spools are `spools`,
/// and whose secrets are those of `doors`; `bell` learns of replies that became ready.
fn service_of<'s, 'a, L: Ledgers, R>(
    server: &'s Server<'a, R>,
    hub: &'s Hub<L>,
    bell: &'s HubBell<'s>,
    sink: &'s &'s Records<'a, R>,
    spools: &'s Spools<'a, R>,
    doors: &'s Doors,
) -> Serving<'s, 'a, L, R> {
    let locks = SpoolLocks::new(spools);
    Service {
        rt: server.rt,
        alloc: server.alloc,
        clock: &server.watch,
        gate: &server.numbers,
        sink,
        bell,
        hub,
        spools: locks,
        secrets: &doors.secrets,
    }
}

/// The passes with which connections were served, and the fault if they aren't all there.
type Served<L> = (Vec<Pass<L>>, Option<HubFault>);

impl<
    R: Net<Listener = TcpListener, Stream = TcpStream>
        + Eprint
        + time::Clock
        + Threads
        + Wait
        + Sync,
> Server<'_, R> {
    /// Serves who connects at `doors`, of which `opened` are the listeners. Returns the passes, and whether they are all there.
    fn host_on<'a, L: Ledgers + Send + Sync>(
        &'a self,
        hub: &'a Hub<L>,
        bells: &'a Bells,
        doors: &'a Doors,
        opened: Opened<'a, L, R>,
    ) -> (Vec<Pass<L>>, bool) {
        let Opened {
            spools,
            pass,
            listeners,
        } = opened;
        let bell = HubBell { bells };
        let records = &self.records;
        let service = service_of(self, hub, &bell, &records, &spools, doors);
        let Listeners {
            mut players,
            mut publishers,
            mut status,
        } = listeners;
        let (served, fed) = self.work(&service, &mut players, &mut publishers, &mut status, bells);
        let (mut passes, served) = served;
        let (more, fed) = fed;
        let mut all = served.is_none() && fed.is_none();
        for pass in more {
            all &= passes.push(pass).is_ok();
        }
        all &= passes.push(pass).is_ok();
        (passes, all)
    }

    /// Serves those who connect at the listeners and at the status port, and keeps the time. Returns the passes of those who serve players,
    /// and of those who serve publishers, each with the fault if they aren't all there.
    fn work<L: Ledgers + Send + Sync>(
        &self,
        service: &Serving<'_, '_, L, R>,
        players: &mut Listener<'_, R>,
        publishers: &mut Listener<'_, R>,
        status: &mut Option<StatusPort<'_, R>>,
        bells: &Bells,
    ) -> (Served<L>, Served<L>) {
        let ((), served) = thread::join(
            self.rt,
            ||
                requires { IsSend L.row }
            { self.watch_over(service, status) },
            ||
                requires { IsSend L.row }
            { self.admit(service, players, publishers, bells) },
        );
        served
    }

    /// Keeps the time and the log, and serves the status port, if there is one.
    fn watch_over<L: Ledgers + Send + Sync>(
        &self,
        service: &Serving<'_, '_, L, R>,
        status: &mut Option<StatusPort<'_, R>>,
    ) {
        let _ended = thread::join(
            self.rt,
            || serve_status(status, &self.numbers),
            || self.keep(service),
        );
    }

    /// Keeps the time and, by a thread of its own, the log: a disk that stands still doesn't stop the time.
    fn keep<L: Ledgers>(&self, service: &Serving<'_, '_, L, R>) {
        let _ended = thread::join(self.rt, || self.keep_log(), || self.keep_time(service));
    }

    /// Serves those who connect at the two listeners. Returns the passes of those who serve players, and of those who serve publishers,
    /// each with the fault if they aren't all there.
    fn admit<L: Ledgers + Send + Sync>(
        &self,
        service: &Serving<'_, '_, L, R>,
        players: &mut Listener<'_, R>,
        publishers: &mut Listener<'_, R>,
        bells: &Bells,
    ) -> (Served<L>, Served<L>) {
        thread::join(
            self.rt,
            ||
                requires { IsSend L.row }
            { self.admit_players(service, players, bells) },
            ||
                requires { IsSend L.row }
            { self.admit_publishers(service, publishers) },
        )
    }

    /// Serves the players who connect at `listener`. Returns the pollers' passes, and the fault if they aren't all there.
    fn admit_players<L: Ledgers + Send + Sync>(
        &self,
        service: &Serving<'_, '_, L, R>,
        listener: &mut Listener<'_, R>,
        bells: &Bells,
    ) -> Served<L> {
        self.report("players", serve_players(service, listener, bells, IDLE))
    }

    /// Serves the publishers who connect at `listener`. Returns the workers' passes, and the fault if they aren't all there.
    fn admit_publishers<L: Ledgers + Send + Sync>(
        &self,
        service: &Serving<'_, '_, L, R>,
        listener: &mut Listener<'_, R>,
    ) -> Served<L> {
        let (notes, workers) = (self.notes.as_ref(), self.workers.count);
        self.report(
            "publishers",
            serve_links(service, notes, Role::Publisher, listener, workers),
        )
    }

    /// Returns the passes of `served`, and its fault, which it says on standard error; `whose` connections aren't served then.
    fn report<L: Ledgers>(
        &self,
        whose: &str,
        served: Result<Vec<Pass<L>>, (Vec<Pass<L>>, HubFault)>,
    ) -> Served<L> {
        match served {
            Ok(passes) => (passes, None),
            Err((passes, fault)) => {
                let _ = eprintln!(self.rt; "llhls: {whose} are not served: {}", fault.name());
                (passes, Some(fault))
            }
        }
    }
}
