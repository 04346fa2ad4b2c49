// What of a file is read ahead, in a lent buffer, so that it can be looked at before it is taken; on `records` alone.
#![tactic(auto)]

ghost use Rattle.std.specs.Prelude.{◌≤◌};

use host::{Fd, Host};
use records::Stop;

// What is read ahead stands in the buffer between two places; the first of its bytes is so many from the file's start. There may be more until reading stops.
#[derive(Clone, Copy, Debug)]
pub struct Ahead {
    pub fd: Fd,
    pub from: usize,
    pub to: usize,
    pub offset: u64,
    pub stop: Option<Stop>,
}

impl Ahead {
    // Nothing is read of a file, whose next byte is so many from its start.
    pub fn new(fd: Fd, offset: u64) -> Ahead {
        Ahead {
            fd,
            from: 0,
            to: 0,
            offset,
            stop: None,
        }
    }

    // How many bytes are read ahead.
    pub fn len(self) -> usize {
        self.to.saturating_sub(self.from)
    }

    // What is read ahead without so many first bytes, at most all.
    pub fn without(self, count: usize) -> Ahead {
        let many = count.min(self.len());
        Ahead {
            from: self.from.wrapping_add(many),
            offset: self.offset.wrapping_add(many as u64),
            ..self
        }
    }

    // The same after so many bytes that were read of the file otherwise, where nothing is read ahead.
    pub fn past(self, bytes: u64) -> Ahead {
        Ahead {
            offset: self.offset.wrapping_add(bytes),
            ..self
        }
    }

    // The same at the buffer's start, if there is no room for so many bytes from its first place on.
    fn moved(self, buf: &mut [u8], need: usize) -> Ahead {
        if need <= buf.len().saturating_sub(self.from) {
            return self;
        }
        let n = move_bytes(buf, self.from, self.to);
        Ahead {
            from: 0,
            to: n,
            ..self
        }
    }

    // Reads on to a place in the buffer, or its end.
    fn read_to(self, host: &Host, buf: &mut [u8], place: usize) -> Ahead {
        let to = place.min(buf.len());
        if to < self.to {
            return self;
        }
        let read = records::fill(host, self.fd, &mut buf[self.to..to]);
        Ahead {
            to: self.to.wrapping_add(read.length),
            stop: read.stop,
            ..self
        }
    }

    // The same with so many bytes read ahead, or as many as the file and the buffer have. No more than these are read, so that nothing is waited for that is
    // not asked for.
    pub fn filled(self, host: &Host, buf: &mut [u8], need: usize) -> Ahead {
        if self.stop.is_some() | (need <= self.len()) {
            return self;
        }
        let moved = self.moved(buf, need);
        moved.read_to(host, buf, moved.from.wrapping_add(need))
    }
}

// Moves what stands between two places of a buffer to its start, as far as the buffer has it. Answers how much it is.
fn move_bytes(buf: &mut [u8], from: usize, to: usize) -> usize {
    let end = to.min(buf.len());
    if end < from {
        return 0;
    }
    buf.copy_within(from..end, 0);
    end - from
}

// The number in the two bytes at a place of the buffer, low byte first; 0 where it has them not.
pub fn length_at(buf: &[u8], place: usize) -> usize {
    if buf.len() < 2 {
        return 0;
    }
    if buf.len() - 2 < place {
        return 0;
    }
    records::two_bytes(buf[place], buf[place + 1])
}
