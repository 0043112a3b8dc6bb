//! Files that a server appends to as it runs.
use crate::new_files::NewFiles;
use ll_attr::Text;
use std::fmt::Display;
use std::fs::{File, OpenOptions};
use std::io::Write;
use std::rt::Files;
use std::sync::atomic::{AtomicBool, Ordering};

/// A file that texts are appended to. Nothing is appended after the first text that isn't written whole.
#[derive(Drop)]
pub(crate) struct Journal {
    /// Its name in messages to standard error.
    what: Text,
    file: Option<File>,
    /// Whether no more texts are to come.
    ended: AtomicBool,
    /// Whether a write has failed.
    failed: AtomicBool,
}

impl Journal {
    /// Opens the file `path`, or creates it as one of `made`. If that fails, says so on standard error, and nothing will be written.
    pub(crate) fn open<R: Files<File = File> + Eprint>(
        rt: &R,
        made: &mut NewFiles,
        path: String,
        what: Text,
    ) -> Journal {
        let mut options = OpenOptions::new();
        options.append(true);
        let file = match made.open(rt, options, path) {
            Ok(file) => Some(file),
            Err(error) => {
                let _ = eprintln!(rt; "llhls: {what}: {error}");
                None
            }
        };
        Journal {
            what,
            ended: AtomicBool::new(file.is_none()),
            failed: AtomicBool::new(false),
            file,
        }
    }

    /// Returns whether no more texts are to come: it was ended, a write has failed, or the file couldn't be opened.
    pub(crate) fn has_ended(&self) -> bool {
        self.ended.load(Ordering::SeqCst)
    }

    /// Ends it, and says `why` on standard error, unless it has ended before. Texts that are on their way can still be appended.
    pub(crate) fn end<R: Eprint, E: Display>(&self, rt: &R, why: &E) {
        if !self.ended.swap(true, Ordering::SeqCst) {
            let what = &self.what;
            let _ = eprintln!(rt; "llhls: {what}: {why}");
        }
    }

    /// Appends `text` to the file. If that fails, ends it, and nothing more will be written.
    pub(crate) fn append<R: Eprint>(&self, rt: &R, text: &[u8]) {
        let Some(file) = &self.file else {
            return;
        };
        if self.failed.load(Ordering::SeqCst) {
            return;
        }
        let mut file = file;
        if let Err(error) = file.write_all(text) {
            self.failed.store(true, Ordering::SeqCst);
            self.end(rt, &error);
        }
    }
}
