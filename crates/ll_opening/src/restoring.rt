//! The start of a server that keeps what it accepts: the items of its channels' spools are published again.
ghost use Rattle.std.specs.Prelude.{None};

use crate::stop::Stop;
use ll_counts::Numbers;
use ll_files::SpoolFiles;
use ll_hub::{Bell, Hub, HubFault, Ledgers, Pass, RoomFault, Sink};
use ll_item::Item;
use ll_spool::{Accepts, RestoreFault, Spool, restore};
use ll_verdict::PublishFault;
use std::alloc::{AllocError, Global};
use std::sync::{Mutex, Wait};
use std::time::Clock;

/// The number of items after which a channel's record is handed out: as many as it holds.
const RECORD: u64 = 65_536;

/// A bell that nobody hears: no request waits before the ports are open.
#[derive(Clone, Copy)]
struct Silent;

impl Bell for Silent {
    fn ring(&mut self, _channel: usize, _more: usize) {}
}

/// A hub, in one channel of which items are published again.
#[derive(Drop)]
struct Restored<'a, L: Ledgers, K: Drop, R> {
    rt: &'a R,
    alloc: Global,
    hub: &'a Hub<L>,
    pass: Pass<L>,
    sink: K,
    numbers: &'a Numbers<'a, R>,
    /// The channel's place in the hub.
    place: usize,
}

impl<L: Ledgers, K: Sink + Drop, R: Wait + Clock> Accepts for Restored<'_, L, K, R> {
    ghost accepted = { λ _. None };

    fn accept(&mut self, item: Item) -> Result<Option<u64>, AllocError> {
        self.numbers.restored(self.place, &item);
        let published = self
            .hub
            .publish(self.rt, &mut Silent, &mut self.pass, self.place, item);
        let count = match published {
            Ok(count) => count.into_inner(),
            Err(
                HubFault::Memory
                | HubFault::Room {
                    fault: RoomFault::Publish(PublishFault::Memory),
                    ..
                },
            ) => return Err(AllocError),
            Err(_) => return Ok(None),
        };
        if count % RECORD == 0 {
            let handed_out = self
                .hub
                .rotate_to(self.rt, &mut self.hub.past(), self.place, &mut self.sink);
            if handed_out.is_err() {
                return Err(AllocError);
            }
        }
        Ok(Some(count))
    }
}

impl<'a, L: Ledgers, K: Sink + Drop, R: Eprint + Wait + Clock> Restored<'a, L, K, R> {
    /// Publishes the items of the spools whose files are `files`, and then makes these ready for further items.
    fn restore_all(&mut self, files: Vec<SpoolFiles<'a, R>>) -> Result<Spools<'a, R>, Stop> {
        let restored = self.restore_each(files)?;
        begin_all(self.alloc, restored)
    }

    /// Publishes the items of the spools whose files are `files`, one after another.
    fn restore_each(
        &mut self,
        files: Vec<SpoolFiles<'a, R>>,
    ) -> Result<Vec<Spool<SpoolFiles<'a, R>>>, Stop> {
        let mut restored = Vec::new(self.alloc);
        for files in files {
            let spool = self.restore(files)?;
            if restored.push(spool).is_err() {
                return Err(Stop::Memory);
            }
        }
        Ok(restored)
    }

    /// Publishes the items of the spool whose files are `files`, and says on standard error how many they are, or which line can't stand.
    fn restore(&mut self, mut files: SpoolFiles<'a, R>) -> Result<Spool<SpoolFiles<'a, R>>, Stop> {
        let (rt, alloc, hub) = (self.rt, self.alloc, self.hub);
        let Some((place, settings)) = hub.find(files.channel()) else {
            return Err(Stop::Spool(4));
        };
        self.place = place;
        let channel = settings.channel();
        let Ok(text) = files.text(alloc) else {
            return Err(Stop::Spool(4));
        };
        let restored = restore(alloc, settings, &text, &mut files, self);
        drop(text);
        match restored {
            Ok(restored) => {
                let Ok(own) = settings.copy(alloc) else {
                    return Err(Stop::Memory);
                };
                let _ = eprintln!(rt; "llhls: spool: {channel}: {} items", restored.count());
                Ok(Spool::new(alloc, own, files, restored))
            }
            Err(RestoreFault::Line(line)) => {
                let _ = eprintln!(rt; "llhls: spool: {channel} {line}\n  {}", advice_on(line));
                Err(Stop::Spool(3))
            }
            Err(RestoreFault::Memory) => Err(Stop::Memory),
        }
    }
}

/// Returns what helps if the line `line` of a spool can't stand.
fn advice_on(line: u64) -> &'static str {
    if line == 1 {
        "The first line of its file `items` isn't the channel's line of the settings, which have changed; the spool is as it was. OPERATING.md, \"Keeping channels over a restart\"."
    } else {
        "This line of its file `items`, or what it names of the other files, is damaged; the spool is as it was. OPERATING.md, \"Keeping channels over a restart\"."
    }
}

/// The channels' spools, in the order of the channels.
pub type Spools<'a, R> = Vec<Mutex<Spool<SpoolFiles<'a, R>>>>;

/// Publishes the items of the spools whose files are `files`, one for each channel in order, or none, and makes these ready for further
/// items. Nothing is written unless all can stand. Returns the spools, and the pass with which their items were published.
pub fn restore_all<'a, L: Ledgers, K: Sink + Drop, R: Eprint + Wait + Clock>(
    rt: &'a R,
    alloc: Global,
    hub: &'a Hub<L>,
    sink: K,
    numbers: &'a Numbers<'a, R>,
    files: Vec<SpoolFiles<'a, R>>,
) -> Result<(Spools<'a, R>, Pass<L>), Stop> {
    let Ok(pass) = hub.seat(rt) else {
        return Err(Stop::Memory);
    };
    let mut channel = Restored {
        rt,
        alloc,
        hub,
        pass,
        sink,
        numbers,
        place: 0,
    };
    let spools = channel.restore_all(files)?;
    Ok((spools, channel.pass))
}

/// Makes the spools `restored` ready for further items.
fn begin_all<'a, R: Eprint>(
    alloc: Global,
    restored: Vec<Spool<SpoolFiles<'a, R>>>,
) -> Result<Spools<'a, R>, Stop> {
    let mut spools = Vec::new(alloc);
    for mut spool in restored {
        if spool.begin().is_err() {
            return Err(Stop::Spool(4));
        }
        if spools.push(Mutex::new(spool)).is_err() {
            return Err(Stop::Memory);
        }
    }
    Ok(spools)
}
