//! What a start of the server makes on the disk, so that a start that fails can remove it.
use std::alloc::Global;
use std::fs::{self, File, OpenOptions};
use std::io::{Error, ErrorKind};
use std::rt::Files;

/// A file or a folder that a start has made, by its path.
#[derive(Drop)]
enum NewPath {
    File(String),
    Folder(String),
}

/// The files and folders that a start has made, in the order in which it made them.
#[derive(Drop)]
pub struct NewFiles(Vec<NewPath>);

impl NewFiles {
    /// Returns none.
    pub fn new(alloc: Global) -> NewFiles {
        NewFiles(Vec::new(alloc))
    }

    /// Opens the file `path` as `options` say, which don't create it. If it isn't there, creates it, and notes that.
    pub(crate) fn open<R: Files<File = File>>(
        &mut self,
        rt: &R,
        mut options: OpenOptions,
        path: String,
    ) -> Result<File, Error> {
        match options.open(rt, path.as_str()) {
            Err(error) if error.kind() == ErrorKind::NotFound => {}
            done => return done,
        }
        let file = options.create(true).open(rt, path.as_str())?;
        self.note(NewPath::File(path))?;
        Ok(file)
    }

    /// Creates the folder `path` if it isn't there, and notes that.
    pub(crate) fn make_folder<R: Files>(&mut self, rt: &R, path: String) -> Result<(), Error> {
        match fs::create_dir(rt, path.as_str()) {
            Ok(()) => self.note(NewPath::Folder(path)),
            Err(error) if error.kind() == ErrorKind::AlreadyExists => Ok(()),
            Err(error) => Err(error),
        }
    }

    /// Notes `path` as the last.
    fn note(&mut self, path: NewPath) -> Result<(), Error> {
        match self.0.push(path) {
            Ok(()) => Ok(()),
            Err(_) => Err(Error::from(ErrorKind::OutOfMemory)),
        }
    }

    /// Removes them, the last one first. What the system doesn't remove stays.
    pub fn remove<R: Files>(mut self, rt: &R) {
        for _ in 0..self.0.len() {
            let _ = match self.0.pop() {
                Some(NewPath::File(path)) => fs::remove_file(rt, path.as_str()),
                Some(NewPath::Folder(path)) => fs::remove_dir(rt, path.as_str()),
                None => Ok(()),
            };
        }
    }
}
