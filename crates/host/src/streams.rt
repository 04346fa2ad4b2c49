// Files that are open: reading, writing, places and closing.
ghost use Rattle.std.specs.Prelude.{◌≡◌, ◌≤◌, length, IfSome};
ghost use Rattle.std.specs.Io.{ReadsAtMost, WritesAtMost};

use crate::{Fd, Host, Opened};
use std::fs::File;
use std::io::{Error, Read, Seek, SeekFrom, Write};
use std::os::unix::fs::FileExt;

pub(crate) fn closed() -> Error {
    Error::from_raw_os_error(crate::EBADF)
}

fn read_file(file: &File, buf: &mut [u8]) -> std::io::Result<usize>
    ensures { ReadsAtMost result buf.new }
{
    let mut file = file;
    file.read(buf)
}

fn write_file(file: &File, bytes: &[u8]) -> std::io::Result<usize>
    ensures { WritesAtMost result bytes.now }
{
    let mut file = file;
    file.write(bytes)
}

pub(crate) fn seek_file(file: &File, to: SeekFrom) -> std::io::Result<u64> {
    let mut file = file;
    file.seek(to)
}

impl Host {
    fn read_some(&self, fd: Fd, buf: &mut [u8]) -> std::io::Result<usize>
        ensures { ReadsAtMost result buf.new }
    {
        if let Ok(files) = self.files.try_borrow() {
            if let Some(Some(open)) = files.get(fd.number) {
                return read_file(&open.file, buf);
            }
        }
        if fd == crate::STDIN {
            return self.rt.stdin().read(buf);
        }
        Err(closed())
    }

    fn write_some(&self, fd: Fd, bytes: &[u8]) -> std::io::Result<usize>
        ensures { WritesAtMost result bytes.now }
    {
        if fd == crate::STDOUT {
            return self.rt.stdout().write(bytes);
        }
        if fd == crate::STDERR {
            return self.rt.stderr().write(bytes);
        }
        if let Ok(files) = self.files.try_borrow() {
            if let Some(Some(open)) = files.get(fd.number) {
                return write_file(&open.file, bytes);
            }
        }
        Err(closed())
    }

    fn read_some_at(&self, fd: Fd, buf: &mut [u8], byte: u64) -> std::io::Result<usize>
        ensures { ReadsAtMost result buf.new }
    {
        if let Ok(files) = self.files.try_borrow() {
            if let Some(Some(open)) = files.get(fd.number) {
                return open.file.read_at(buf, byte);
            }
        }
        Err(closed())
    }

    // Reads bytes to the buffer's start, and answers how many: 0 at the file's end, nothing where that failed.
    pub fn read(&self, fd: Fd, buf: &mut [u8]) -> Option<usize>
        ensures { IfSome result (λ n. n ≤ length buf.new) }
    {
        let got = self.read_some(fd, buf);
        self.kept(got)
    }

    // The same from a byte of a file on. The place in the file stays.
    pub fn read_at(&self, fd: Fd, buf: &mut [u8], byte: u64) -> Option<usize>
        ensures { IfSome result (λ n. n ≤ length buf.new) }
    {
        let got = self.read_some_at(fd, buf, byte);
        self.kept(got)
    }

    // Writes all bytes. Answers whether that went well.
    pub fn write_all(&self, fd: Fd, bytes: &[u8]) -> bool {
        let mut done: usize = 0;
        while done < bytes.len() {
            let got = self.write_some(fd, &bytes[done..]);
            match self.kept(got) {
                None | Some(0) => return false,
                Some(count) => done += count,
            }
        }
        true
    }

    // Writes a number's decimal digits, as `write_all` writes bytes.
    pub fn print_decimal(&self, fd: Fd, number: u64) -> bool {
        let mut digits = [0u8; 20];
        let count = io::decimal(number, &mut digits);
        self.write_all(fd, &digits[..count])
    }

    // The same of its hexadecimal digits, with zeros before them up to so many.
    pub fn print_hex(&self, fd: Fd, number: u64, width: usize) -> bool {
        let mut digits = [0u8; 16];
        let count = io::hex(number, width, &mut digits);
        self.write_all(fd, &digits[..count])
    }

    fn seek_to(&self, fd: Fd, to: SeekFrom) -> std::io::Result<u64> {
        if let Ok(files) = self.files.try_borrow() {
            if let Some(Some(open)) = files.get(fd.number) {
                return seek_file(&open.file, to);
            }
        }
        Err(closed())
    }

    fn found_place(&self, fd: Fd) -> std::io::Result<u64> {
        if (fd == crate::STDIN) | (fd == crate::STDOUT) {
            if !self.is_open(fd) {
                return self.standard_place(fd);
            }
        }
        self.seek_to(fd, SeekFrom::Current(0))
    }

    // The place from which the next byte is read or written; nothing where there are no places, as in a pipe.
    pub fn place(&self, fd: Fd) -> Option<u64> {
        self.kept(self.found_place(fd))
    }

    // Goes to a place in a file. Answers whether that went well.
    pub fn go_to(&self, fd: Fd, place: u64) -> bool {
        if (fd == crate::STDIN) & !self.is_open(fd) {
            if !self.reopen() {
                return false;
            }
        }
        self.kept(self.seek_to(fd, SeekFrom::Start(place)))
            .is_some()
    }

    // Closes a file, after what was written of it is on its device. Answers whether that went well. The standard streams stay open.
    pub fn close(&self, fd: Fd) -> bool {
        if fd == crate::STDOUT {
            return self.is_output_open();
        }
        if (fd == crate::STDIN) | (fd == crate::STDERR) {
            return true;
        }
        match self.taken(fd) {
            Some(open) => self.kept(synced(&open)).is_some(),
            None => {
                self.set(crate::EBADF);
                false
            }
        }
    }
}

// Brings what was written of a file that was made here to its device, so that an error of that is seen.
fn synced(open: &Opened) -> std::io::Result<()> {
    if open.is_made {
        return open.file.sync_data();
    }
    Ok(())
}
