// Lists of counts in text: decimal numbers, in a file with blanks or line ends between them, in an option with commas; on `text` and
// `records`.
#![tactic(auto)]

ghost use Rattle.std.specs.Prelude.{◌≡◌, ◌<◌, ◌≤◌, length, IfSome};

use host::{Fd, Host};

// What is wrong with a list: a byte of a line, counted from 1, is neither a digit nor a blank; or a read failed.
#[derive(Clone, Copy, Debug, PartialEq, Eq)]
pub enum Wrong {
    Strange(u64),
    Failed,
}

// Why a list is not read on: all of it, or as much as there is room for, is read, and so many counts are stored; or something is wrong.
#[derive(Clone, Copy, Debug, PartialEq, Eq)]
enum Stop {
    Read(usize),
    Wrong(Wrong),
}

// A list so far: how many counts are stored, the value so far of one that is begun, and the line that is read, from 1.
#[derive(Clone, Copy)]
struct List {
    count: usize,
    begun: Option<u32>,
    line: u64,
}

impl List {
    // The list after a digit: a value that would be too large is the largest. One test of the value takes less time than two of its products.
    fn longer(self, digit: u8) -> List
        requires { digit < 10 }
    {
        let value = self.begun.unwrap_or(0);
        let next = if 429496728 < value {
            u32::MAX
        } else {
            value * 10 + u32::from(digit)
        };
        List {
            begun: Some(next),
            ..self
        }
    }

    // The list after a blank: a count that is begun is stored, and where there is no room for it, the list is read.
    fn stored(self, counts: &mut [u32]) -> Result<List, Stop> {
        let Some(value) = self.begun else {
            return Ok(self);
        };
        if counts.len() <= self.count {
            return Err(Stop::Read(self.count));
        }
        counts[self.count] = value;
        Ok(List {
            count: self.count + 1,
            begun: None,
            ..self
        })
    }

    // The list after a byte.
    fn after(self, byte: u8, counts: &mut [u32]) -> Result<List, Stop> {
        match byte {
            b' ' | b'\t' | b'\r' => self.stored(counts),
            b'\n' => {
                let next = self.stored(counts)?;
                Ok(List {
                    line: next.line.wrapping_add(1),
                    ..next
                })
            }
            b'0'..=b'9' => Ok(self.longer(byte - b'0')),
            _ => Err(Stop::Wrong(Wrong::Strange(self.line))),
        }
    }

    // The list after a block of text.
    fn after_block(self, block: &[u8], counts: &mut [u32]) -> Result<List, Stop> {
        let mut list = self;
        for &byte in block {
            list = list.after(byte, &mut *counts)?;
        }
        Ok(list)
    }

    // The list after the next block of a file; at the file's end it is read.
    fn turn(self, host: &Host, fd: Fd, buf: &mut [u8], counts: &mut [u32]) -> Result<List, Stop> {
        let got = records::fill(host, fd, &mut *buf);
        let next = self.after_block(&buf[..got.length], &mut *counts)?;
        match got.stop {
            None => Ok(next),
            Some(records::Stop::Failed) => Err(Stop::Wrong(Wrong::Failed)),
            Some(_) => {
                let last = next.stored(counts)?;
                Err(Stop::Read(last.count))
            }
        }
    }
}

// Reads the counts of a file into a row, as many as there is room for, and answers how many. The number of blocks has a bound that no file comes to, since a
// proved loop has to end, and nothing says that a file does.
pub fn read(host: &Host, fd: Fd, counts: &mut [u32]) -> Result<usize, Wrong> {
    let mut buf = io::large_buffer();
    let mut list = List {
        count: 0,
        begun: None,
        line: 1,
    };
    for _ in 0..u64::MAX {
        match list.turn(host, fd, &mut buf, &mut *counts) {
            Ok(next) => list = next,
            Err(Stop::Read(count)) => return Ok(count),
            Err(Stop::Wrong(wrong)) => return Err(wrong),
        }
    }
    Err(Wrong::Failed)
}

// Reads the counts of a text into a row, as many as there is room for. Answers how many; nothing where the text is no list.
pub fn from_text(text: &[u8], counts: &mut [u32]) -> Option<usize>
    ensures { IfSome result (λ count. count ≤ length counts.new) }
{
    let mut count: usize = 0;
    for part in text.split(|&byte| byte == b',') {
        let number = text::parse(part)?;
        if count < counts.len() {
            counts[count] = number;
            count += 1;
        }
    }
    Some(count)
}
