//! One of the two files of the bytes of a rendition's items.
use crate::new_files::NewFiles;
use std::fs::{File, OpenOptions};
use std::io::Error;
use std::os::unix::fs::FileExt;
use std::rt::Files;

/// One of the two files of the bytes of a rendition's items. Once it is cleared, what comes next is written over what it had: to give the
/// room back and take it again costs the system more than to write the bytes.
#[derive(Drop)]
pub(crate) struct SideFile {
    file: File,
    /// The number of its bytes. What the file has after them is from before it was cleared.
    length: u64,
}

impl SideFile {
    /// Opens the file `path`, or creates it as one of `made`.
    pub(crate) fn open<R: Files<File = File>>(
        rt: &R,
        made: &mut NewFiles,
        path: String,
    ) -> Result<SideFile, Error> {
        let mut options = OpenOptions::new();
        options.read(true).write(true);
        let file = made.open(rt, options, path)?;
        let length = file.metadata()?.len();
        Ok(SideFile { file, length })
    }

    /// Appends `bytes`.
    pub(crate) fn append(&mut self, bytes: &[u8]) -> Result<(), Error> {
        self.file.write_all_at(bytes, self.length)?;
        self.length = self.length.saturating_add(bytes.len() as u64);
        Ok(())
    }

    /// Drops all bytes.
    pub(crate) fn clear(&mut self) {
        self.length = 0;
    }

    /// Cuts it to its first `length` bytes.
    pub(crate) fn cut(&mut self, length: u64) -> Result<(), Error> {
        self.file.set_len(length)?;
        self.length = length;
        Ok(())
    }

    /// Reads the bytes from `offset` on into `bytes`; false if the file has fewer.
    pub(crate) fn read(&self, offset: u64, bytes: &mut [u8]) -> bool {
        self.file.read_exact_at(bytes, offset).is_ok()
    }
}
