// The lines of a file, read through a lent buffer.
ghost use Rattle.std.specs.Prelude.{◌≤◌, length};

use host::{Fd, Host};

// The longest line, without its end.
const MOST: usize = 600;

// How many bytes are read ahead, at the least: a longest line, its end and some more.
const AHEAD: usize = 704;

// Why there is no next line: the file is at its end, the line is too long, or the system says why.
#[derive(Clone, Copy, Debug, PartialEq, Eq)]
pub enum Stop {
    End,
    Long,
    Failed,
}

// A line without its end, and whether that is there: the file's last line may lack it.
#[derive(Clone, Copy, Debug)]
pub struct Line<'a> {
    pub text: &'a [u8],
    pub ended: bool,
}

// What of a file is read ahead: it stands in the buffer between two places. There may be more until reading stops.
#[derive(Clone, Copy, Debug)]
pub struct Lines {
    fd: Fd,
    from: usize,
    to: usize,
    stop: Option<records::Stop>,
}

impl Lines {
    // Nothing is read of a file.
    pub fn new(fd: Fd) -> Lines {
        Lines {
            fd,
            from: 0,
            to: 0,
            stop: None,
        }
    }

    // Reads ahead where less than a longest line is there: what is left moves to the buffer's start, and the rest of the buffer is filled.
    fn fill(&mut self, host: &Host, buf: &mut [u8]) {
        if self.stop.is_some() | (AHEAD <= self.to.saturating_sub(self.from)) {
            return;
        }
        let kept = move_bytes(buf, self.from, self.to);
        let read = records::fill(host, self.fd, &mut buf[kept..]);
        self.from = 0;
        self.to = kept.wrapping_add(read.length);
        self.stop = read.stop;
    }

    // The next line.
    pub fn next<'a>(&mut self, host: &Host, buf: &'a mut [u8]) -> Result<Line<'a>, Stop> {
        self.fill(host, buf);
        if self.stop == Some(records::Stop::Failed) {
            return Err(Stop::Failed);
        }
        let ahead = buf.get(self.from..self.to).unwrap_or(&[]);
        if ahead.len() == 0 {
            return Err(Stop::End);
        }
        let line = first_line(ahead).ok_or(Stop::Long)?;
        let end = self.from.wrapping_add(line.text.len());
        self.from = end.wrapping_add(usize::from(line.ended));
        Ok(Line {
            text: line.text.strip_suffix(b"\r").unwrap_or(line.text),
            ..line
        })
    }
}

// Moves what stands between two places of a buffer to its start. Answers how much it is.
fn move_bytes(buf: &mut [u8], from: usize, to: usize) -> usize
    ensures { result ≤ length buf.new }
{
    let end = to.min(buf.len());
    if end < from {
        return 0;
    }
    buf.copy_within(from..end, 0);
    end - from
}

// The line that begins here, up to its end or that of what is read ahead; nothing where it is too long.
fn first_line(bytes: &[u8]) -> Option<Line<'_>> {
    let part = &bytes[..bytes.len().min(MOST + 1)];
    match part.iter().position(|&byte| byte == b'\n') {
        Some(end) => Some(Line {
            text: &part[..end],
            ended: true,
        }),
        None if part.len() <= MOST => Some(Line {
            text: part,
            ended: false,
        }),
        None => None,
    }
}
