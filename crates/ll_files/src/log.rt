//! The log: the file that the numbers of channels go to, and the lines of publishers.
use crate::journal::Journal;
use crate::new_files::NewFiles;
use ll_attr::Text;
use std::alloc::{AllocError, Global};
use std::fs::File;
use std::rt::Files;

/// The log of a server: lines are appended to its file, if there is one.
#[derive(Drop)]
pub struct Log<'a, R> {
    rt: &'a R,
    file: Option<Journal>,
}

impl<'a, R: Files<File = File> + Eprint> Log<'a, R> {
    /// Opens the file `path`, or creates it as one of `made`; without a path no lines are kept.
    pub fn open(
        rt: &'a R,
        alloc: Global,
        made: &mut NewFiles,
        path: Option<&Text>,
    ) -> Result<Log<'a, R>, AllocError> {
        let file = match path {
            Some(path) => Some(Journal::open(
                rt,
                made,
                String::from_str(alloc, path.as_str())?,
                Text::from_str(alloc, "log")?,
            )),
            None => None,
        };
        Ok(Log { rt, file })
    }
}

impl<R: Eprint> Log<'_, R> {
    /// Appends `lines`.
    pub fn add(&self, lines: &str) {
        if let Some(file) = &self.file {
            file.append(self.rt, lines.as_bytes());
        }
    }
}
