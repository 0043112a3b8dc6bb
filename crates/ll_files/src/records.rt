//! The files of channels' records.
use crate::journal::Journal;
use crate::new_files::NewFiles;
use crate::queue::{Queue, Unwritten};
use ll_attr::Text;
use ll_record::{Chunk, Sink};
use ll_settings::Settings;
use std::alloc::{AllocError, Global};
use std::fs::File;
use std::rt::Files;
use std::sync::Wait;

/// The records of a server: each chunk waits in a queue, from which one thread appends it to its channel's file, if there is one. A record
/// ends before the first chunk that finds no place in the queue, or with the first that isn't written whole: some of that chunk may be left
/// at the file's end, where `check` finds the line that is missing.
#[derive(Drop)]
pub struct Records<'a, R> {
    rt: &'a R,
    /// The record of each channel, in their order, or none if no records are kept.
    kept: Vec<Journal>,
    queue: Queue,
}

impl<'a, R: Files<File = File> + Eprint> Records<'a, R> {
    /// Opens the record of each of `channels`, or creates it as one of `made`: all of them at once, so that none fails later because connections have taken
    /// all descriptors. If a file can't be opened, says so on standard error, and its channel has no record. Without a path no records are
    /// kept.
    pub fn open(
        rt: &'a R,
        alloc: Global,
        made: &mut NewFiles,
        path: Option<&Text>,
        channels: &[Settings],
    ) -> Result<Records<'a, R>, AllocError> {
        let mut kept = Vec::new(alloc);
        if let Some(path) = path {
            for settings in channels {
                kept.push(record_of(rt, alloc, made, path, settings.channel())?)?;
            }
        }
        Ok(Records {
            rt,
            kept,
            queue: Queue::new(alloc),
        })
    }
}

impl<R> Records<'_, R> {
    /// Returns the number of records that are kept: one for each channel, or none.
    pub fn len(&self) -> usize {
        self.kept.len()
    }
}

impl<R: Eprint + Wait> Records<'_, R> {
    /// Writes the chunks of the queue to their files, in their order, until [`Records::end`] is called and the queue is empty; returns at
    /// once if no records are kept. It is for one thread alone, or the chunks of a channel could change places.
    pub fn write_on(&self) {
        if self.kept.is_empty() {
            return;
        }
        for _ in self.rt.forever() {
            let Some(first) = self.queue.take(self.rt) else {
                return;
            };
            if let Some(record) = self.kept.get(first.channel) {
                record.append(self.rt, first.chunk.bytes());
            }
        }
        unreachable!()
    }

    /// Ends the queue, after which no chunk may be taken.
    pub fn end(&self) {
        self.queue.end(self.rt);
    }
}

impl<R: Eprint + Wait> Sink for &Records<'_, R> {
    /// Puts the chunk into the queue. If there is no place for it, says so on standard error, and the channel's record has ended.
    fn take(&mut self, channel: usize, chunk: Chunk) {
        let Some(record) = self.kept.get(channel) else {
            return;
        };
        if record.has_ended() {
            return;
        }
        if let Err(fault) = self.queue.add(self.rt, Unwritten { channel, chunk }) {
            record.end(self.rt, &fault);
        }
    }
}

/// Opens the record of `channel`, in the file `<path>.<channel>`, or creates it as one of `made`.
fn record_of<R: Files<File = File> + Eprint>(
    rt: &R,
    alloc: Global,
    made: &mut NewFiles,
    path: &Text,
    channel: &str,
) -> Result<Journal, AllocError> {
    let path = format!(in alloc; "{path}.{channel}")?;
    let what = format!(in alloc; "record: {channel}")?;
    Ok(Journal::open(rt, made, path, Text::from_string(what)))
}
