// What the program has of the machine that it runs on, by the toolchain's `std` and `io`: its arguments, the clock, its files by number, and what went wrong
// last.
//
// Standard input, output and error are the first three files; a file that is opened has the next number that is free. Of what fails, why is kept until something
// else fails.
#![tactic(auto)]

mod arguments;
mod errors;
mod names;
mod standard;
mod streams;
mod table;

use std::cell::{Cell, RefCell};
pub use std::env::FillError;
use std::fs::File;
use std::time::{SystemTime, UNIX_EPOCH};

// A file that is open, by its number.
#[derive(Clone, Copy, Debug, PartialEq, Eq)]
pub struct Fd {
    number: usize,
}

// The standard streams.
pub const STDIN: Fd = Fd { number: 0 };

pub const STDOUT: Fd = Fd { number: 1 };

pub const STDERR: Fd = Fd { number: 2 };

// Errors of the system, by their numbers.
const EIO: i32 = 5;

const EBADF: i32 = 9;

const ENOMEM: i32 = 12;

const EEXIST: i32 = 17;

const ESPIPE: i32 = 29;

// No text in UTF-8.
const EILSEQ: i32 = 84;

// A file that is open, and whether it was made here.
#[derive(Drop)]
pub struct Opened {
    file: File,
    is_made: bool,
}

// The system as it is given, the files that are open, each at its number, and the number of the last error.
#[derive(Drop)]
pub struct Host {
    rt: HostRuntime,
    files: RefCell<Vec<Option<Opened>>>,
    error: Cell<i32>,
}

impl Host {
    pub fn new(rt: HostRuntime) -> Host {
        Host {
            rt,
            files: RefCell::new(Vec::new(rt.alloc())),
            error: Cell::new(0),
        }
    }

    // The second that it is, by the clock; nothing where there is none.
    pub fn time(&self) -> Option<u64> {
        let now = self.kept(SystemTime::now(&self.rt))?;
        let since = now.duration_since(UNIX_EPOCH).ok()?;
        Some(since.as_secs())
    }
}
