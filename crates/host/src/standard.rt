// The standard streams. They stay open, and have no places of their own; where standard input is a file, it is opened once more to go back in it.
use crate::streams::seek_file;
use crate::{Fd, Host};
use std::fs;
use std::fs::File;
use std::io::{Error, IsTerminal, SeekFrom};
use std::os::fd::{AsFd, AsRawFd};
use std::os::unix::fs::FileTypeExt;

// Standard input as a file that can be opened.
const INPUT: &str = "/proc/self/fd/0";

fn no_places() -> Error {
    Error::from_raw_os_error(crate::ESPIPE)
}

// The place in the words that the system has of an open file.
fn place_in(words: &str) -> std::io::Result<u64> {
    let (line, _) = words.split_once("\n").ok_or(no_places())?;
    place_of_line(line)
}

fn place_of_line(line: &str) -> std::io::Result<u64> {
    let digits = line.strip_prefix("pos:").ok_or(no_places())?;
    digits.trim().parse::<u64>().map_err(|_| no_places())
}

// The file by a number that is none of the standard streams', which it may have where one of them is closed: what is written there is not for it.
fn apart(file: File) -> std::io::Result<File> {
    if file.as_raw_fd() < 3 {
        return file.try_clone();
    }
    Ok(file)
}

impl Host {
    // Opens standard input once more, from its first byte on, if it has places.
    fn input_again(&self) -> std::io::Result<File> {
        let kind = fs::metadata(&self.rt, INPUT)?.file_type();
        if kind.is_fifo() | kind.is_socket() {
            return Err(no_places());
        }
        let file = apart(File::open(&self.rt, INPUT)?)?;
        seek_file(&file, SeekFrom::Start(0))?;
        Ok(file)
    }

    fn input_place(&self) -> std::io::Result<u64> {
        let _file = self.input_again()?;
        let words = fs::read_to_string(&self.rt, "/proc/self/fdinfo/0")?;
        place_in(words.as_str())
    }

    fn output_place(&self) -> std::io::Result<u64> {
        if !fs::metadata(&self.rt, "/proc/self/fd/1")?.is_file() {
            return Err(no_places());
        }
        let words = fs::read_to_string(&self.rt, "/proc/self/fdinfo/1")?;
        place_in(words.as_str())
    }

    // The place in standard input or output.
    pub(crate) fn standard_place(&self, fd: Fd) -> std::io::Result<u64> {
        if fd == crate::STDIN {
            return self.input_place();
        }
        self.output_place()
    }

    // Has standard input be read from its file, opened once more. Answers whether that went well.
    pub(crate) fn reopen(&self) -> bool {
        match self.kept(self.input_again()) {
            Some(file) => self.keep_at(0, file),
            None => false,
        }
    }

    // Whether standard error is closed.
    pub fn is_mute(&self) -> bool {
        match self.rt.stderr().as_fd().try_clone_to_owned() {
            Ok(_) => false,
            Err(e) => e.raw_os_error() == Some(crate::EBADF),
        }
    }

    // Whether standard error is a terminal.
    pub fn is_watched(&self) -> bool {
        self.rt.stderr().is_terminal()
    }

    // Whether standard output is open.
    pub(crate) fn is_output_open(&self) -> bool {
        self.kept(self.rt.stdout().as_fd().try_clone_to_owned())
            .is_some()
    }
}
