// Files by name: opening, making, renaming and removing.
//
// A name is text in UTF-8; any other is refused, with EILSEQ.
use crate::{Fd, Host};
use std::fs;
use std::fs::{File, OpenOptions};
use std::io::Error;

// The name as text.
fn text_of(path: &[u8]) -> std::io::Result<&str> {
    std::str::from_utf8(path).map_err(|_| Error::from_raw_os_error(crate::EILSEQ))
}

impl Host {
    fn opened(&self, path: &[u8]) -> std::io::Result<File> {
        File::open(&self.rt, text_of(path)?)
    }

    fn made(&self, path: &[u8]) -> std::io::Result<File> {
        OpenOptions::new()
            .write(true)
            .create_new(true)
            .open(&self.rt, text_of(path)?)
    }

    // Opens a file that is read; nothing where it cannot be had.
    pub fn open_read(&self, path: &[u8]) -> Option<Fd> {
        let file = self.kept(self.opened(path))?;
        self.keep(file, false)
    }

    // Makes a file of a name that no file has, to be written; nothing where it cannot be had.
    pub fn create(&self, path: &[u8]) -> Option<Fd> {
        let file = self.kept(self.made(path))?;
        self.keep(file, true)
    }

    fn rename_names(&self, from: &[u8], to: &[u8]) -> std::io::Result<()> {
        fs::rename(&self.rt, text_of(from)?, text_of(to)?)
    }

    // Renames a file. Answers whether that went well.
    pub fn rename(&self, from: &[u8], to: &[u8]) -> bool {
        self.kept(self.rename_names(from, to)).is_some()
    }

    fn remove(&self, path: &[u8]) -> std::io::Result<()> {
        fs::remove_file(&self.rt, text_of(path)?)
    }

    // Removes a file. Answers whether that went well.
    pub fn unlink(&self, path: &[u8]) -> bool {
        self.kept(self.remove(path)).is_some()
    }

    fn link_of(&self, path: &[u8]) -> std::io::Result<bool> {
        Ok(
            fs::symlink_metadata(&self.rt, text_of(path)?)?
                .file_type()
                .is_symlink(),
        )
    }

    // Whether a name is that of a symbolic link.
    pub fn is_link(&self, path: &[u8]) -> bool {
        self.link_of(path).unwrap_or(false)
    }

    fn found(&self, path: &[u8]) -> std::io::Result<bool> {
        fs::exists(&self.rt, text_of(path)?)
    }

    // Whether a name is that of something that can be had.
    pub fn is_there(&self, path: &[u8]) -> bool {
        self.found(path).unwrap_or(false)
    }

    fn ordinary(&self, path: &[u8]) -> std::io::Result<bool> {
        let file = OpenOptions::new()
            .read(true)
            .write(true)
            .open(&self.rt, text_of(path)?)?;
        Ok(file.metadata()?.is_file())
    }

    // Whether a name is that of an ordinary file that may be written. Nothing of it changes.
    pub fn is_ordinary(&self, path: &[u8]) -> bool {
        self.ordinary(path).unwrap_or(false)
    }
}
