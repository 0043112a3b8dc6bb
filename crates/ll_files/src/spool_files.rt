//! The files of channels' spools.
ghost use Rattle.std.specs.Prelude.{◌≡◌, None, OnErr, OnOk};
ghost use Rattle.ll_spool.specs.Failures.{HasRisen};

use crate::new_files::NewFiles;
use crate::side_file::SideFile;
use ll_attr::Text;
use ll_layout::{Extent, Side};
use ll_settings::Settings;
use ll_spool::{Disk, Lost};
use std::alloc::{AllocError, Global};
use std::fmt::Display;
use std::fs::{File, OpenOptions, TryLockError};
use std::io::{Error, Read, Write};
use std::rt::Files;

/// The two files of the bytes of a rendition's items.
#[derive(Drop)]
struct Sides {
    a: SideFile,
    b: SideFile,
}

/// The files of a channel's spool, which lie in the folder of the channel's name: `items`, the text of its items, and for each rendition
/// `RENDITION.a` and `RENDITION.b`, the bytes of its items. All are opened at the start and stay open, so that none fails later because
/// players have taken all descriptors. No other server opens them meanwhile.
#[derive(Drop)]
pub struct SpoolFiles<'a, R> {
    rt: &'a R,
    /// The channel's name in messages to standard error.
    what: Text,
    items: File,
    /// The files of each rendition, in their order.
    sides: Vec<Sides>,
    /// The number of calls that failed so far, 2^64 - 1 at most.
    failures: u64,
}

/// The files of a spool can't be used; why was said on standard error.
#[derive(Clone, Copy)]
pub struct Unusable;

impl<'a, R: Files<File = File> + Eprint> SpoolFiles<'a, R> {
    /// Opens the files of the spool of the channel of `settings` in `directory`, or creates them as some of `made`. If that fails, or another
    /// server has them, says so on standard error.
    pub fn open(
        rt: &'a R,
        alloc: Global,
        made: &mut NewFiles,
        directory: &Text,
        settings: &Settings,
    ) -> Result<Result<SpoolFiles<'a, R>, Unusable>, AllocError> {
        let what = Text::from_str(alloc, settings.channel())?;
        let Ok(items) = open_locked(rt, alloc, made, directory, &what)? else {
            return Ok(Err(Unusable));
        };
        match open_all(rt, alloc, made, directory, settings)? {
            Ok(sides) => Ok(Ok(SpoolFiles {
                rt,
                what,
                items,
                sides,
                failures: 0,
            })),
            Err(error) => Ok(Err(say(rt, &what, &error))),
        }
    }
}

/// Opens and locks the file of the items of the channel called `what`, whose folder is in `directory`.
fn open_locked<R: Files<File = File> + Eprint>(
    rt: &R,
    alloc: Global,
    made: &mut NewFiles,
    directory: &Text,
    what: &Text,
) -> Result<Result<File, Unusable>, AllocError> {
    let folder = format!(in alloc; "{directory}/{what}")?;
    let path = format!(in alloc; "{folder}/items")?;
    match open_items(rt, made, folder, path) {
        Ok(items) => Ok(lock(rt, what, items)),
        Err(error) => Ok(Err(say(rt, what, &error))),
    }
}

/// Locks `items`, unless another server has it.
fn lock<R: Eprint>(rt: &R, what: &Text, items: File) -> Result<File, Unusable> {
    match items.try_lock() {
        Ok(()) => Ok(items),
        Err(TryLockError::WouldBlock) => Err(say(rt, what, &"in use")),
        Err(TryLockError::Error(error)) => Err(say(rt, what, &error)),
    }
}

/// Opens the file `items` in `folder`. Creates those of them that aren't there.
fn open_items<R: Files<File = File>>(
    rt: &R,
    made: &mut NewFiles,
    folder: String,
    items: String,
) -> Result<File, Error> {
    made.make_folder(rt, folder)?;
    let mut options = OpenOptions::new();
    options.read(true).append(true);
    made.open(rt, options, items)
}

/// Opens the files of each rendition of the channel of `settings`, whose folder is in `directory`.
fn open_all<R: Files<File = File>>(
    rt: &R,
    alloc: Global,
    made: &mut NewFiles,
    directory: &Text,
    settings: &Settings,
) -> Result<Result<Vec<Sides>, Error>, AllocError> {
    let mut sides = Vec::new(alloc);
    for name in settings.renditions() {
        match open_both(
            rt,
            alloc,
            made,
            directory,
            settings.channel(),
            name.as_str(),
        )? {
            Ok(both) => sides.push(both)?,
            Err(error) => return Ok(Err(error)),
        }
    }
    Ok(Ok(sides))
}

/// Opens the two files of the rendition called `name` of the channel `channel`, whose folder is in `directory`.
fn open_both<R: Files<File = File>>(
    rt: &R,
    alloc: Global,
    made: &mut NewFiles,
    directory: &Text,
    channel: &str,
    name: &str,
) -> Result<Result<Sides, Error>, AllocError> {
    let a = format!(in alloc; "{directory}/{channel}/{name}.a")?;
    let b = format!(in alloc; "{directory}/{channel}/{name}.b")?;
    Ok(open_sides(rt, made, a, b))
}

/// Opens the two files of a rendition.
fn open_sides<R: Files<File = File>>(
    rt: &R,
    made: &mut NewFiles,
    a: String,
    b: String,
) -> Result<Sides, Error> {
    Ok(Sides {
        a: SideFile::open(rt, made, a)?,
        b: SideFile::open(rt, made, b)?,
    })
}

/// Says on standard error why the spool of the channel called `what` can't be used.
fn say<R: Eprint, E: Display>(rt: &R, what: &Text, why: &E) -> Unusable {
    let _ = eprintln!(rt; "llhls: spool: {what}: {why}");
    Unusable
}

/// Returns the file of `side` of `rendition` among those of `sides`, if there is one.
fn side_of(sides: &mut Vec<Sides>, rendition: usize, side: Side) -> Option<&mut SideFile> {
    let sides = sides.get_mut(rendition)?;
    Some(match side {
        Side::A => &mut sides.a,
        Side::B => &mut sides.b,
    })
}

impl<R> SpoolFiles<'_, R> {
    /// Counts a call that failed.
    #[tactic(auto, unfolding(ll_spool::specs::Failures::HasRisen))]
    fn lost(&mut self) -> Lost
        ensures { HasRisen self.old.failures self.new.failures }
    {
        self.failures = self.failures.saturating_add(1);
        Lost
    }
}

impl<R: Eprint> SpoolFiles<'_, R> {
    /// Returns the name of the channel.
    pub fn channel(&self) -> &str {
        self.what.as_str()
    }

    /// Reads the text of the items. If that fails, says so on standard error.
    pub fn text(&self, alloc: Global) -> Result<Vec<u8>, Unusable> {
        let mut text = Vec::new(alloc);
        let mut items = &self.items;
        match items.read_to_end(&mut text) {
            Ok(_) => Ok(text),
            Err(error) => Err(say(self.rt, &self.what, &error)),
        }
    }

    /// Returns the outcome of a call of a file. If it has failed, counts it, and says on standard error why.
    fn told(&mut self, done: Result<(), Error>) -> Result<(), Lost>
        ensures steady { OnOk result (self.new.failures ≡ self.old.failures) }
        ensures failed { OnErr result (HasRisen self.old.failures self.new.failures) }
    {
        match done {
            Ok(()) => Ok(()),
            Err(error) => {
                say(self.rt, &self.what, &error);
                Err(self.lost())
            }
        }
    }
}

impl<R: Eprint> Disk for SpoolFiles<'_, R> {
    ghost lines = { λ _. None };

    ghost files = { λ _. None };

    ghost failures = { λ f. f.failures };

    fn append_line(&mut self, text: &[u8]) -> Result<(), Lost> {
        let done = self.items.write_all(text);
        self.told(done)
    }

    fn append(&mut self, rendition: usize, side: Side, bytes: &[u8]) -> Result<(), Lost> {
        match side_of(&mut self.sides, rendition, side) {
            Some(file) => {
                let done = file.append(bytes);
                self.told(done)
            }
            None => Err(self.lost()),
        }
    }

    fn clear(&mut self, rendition: usize, side: Side) -> Result<(), Lost> {
        match side_of(&mut self.sides, rendition, side) {
            Some(file) => {
                file.clear();
                Ok(())
            }
            None => Err(self.lost()),
        }
    }

    fn cut_text(&mut self, length: u64) -> Result<(), Lost> {
        let done = self.items.set_len(length);
        self.told(done)
    }

    fn cut(&mut self, rendition: usize, side: Side, length: u64) -> Result<(), Lost> {
        match side_of(&mut self.sides, rendition, side) {
            Some(file) => {
                let done = file.cut(length);
                self.told(done)
            }
            None => Err(self.lost()),
        }
    }

    fn read(&mut self, rendition: usize, place: Extent, bytes: &mut [u8]) -> bool {
        let read = match side_of(&mut self.sides, rendition, place.side) {
            Some(file) => file.read(place.offset, bytes),
            None => false,
        };
        if !read {
            let Lost = self.lost();
        }
        read
    }
}
