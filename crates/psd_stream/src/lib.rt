// The PSD of each PDU: the same bytes in every one, or the next bytes of a file; on `records`.
//
// The bytes stand in a lent buffer.
#![tactic(auto)]

use host::{Fd, Host};
use records::{Filled, Stop};

// The most bytes that any mode has room for.
pub const MOST: u32 = 128;

// A file whose bytes run across PDUs, the place where it began, if it has places, whether it is read again from there at its end, and the most bytes in one
// PDU.
#[derive(Clone, Copy, Debug)]
pub struct Stream {
    pub fd: Fd,
    pub start: Option<u64>,
    pub repeats: bool,
    pub most: usize,
}

impl Stream {
    // The bytes of a file from its place on, at most so many for each PDU.
    pub fn new(host: &Host, fd: Fd, repeats: bool, most: usize) -> Stream {
        Stream {
            fd,
            start: host.place(fd),
            repeats,
            most,
        }
    }

    // Reads so many bytes, fewer at the file's end.
    fn read(self, host: &Host, count: usize, buf: &mut [u8]) -> Filled {
        if buf.len() < count {
            return Filled {
                length: 0,
                stop: Some(Stop::Long),
            };
        }
        records::fill(host, self.fd, &mut buf[..count])
    }

    // Goes back to where the file began. Answers whether that went well.
    fn go_back(self, host: &Host) -> bool {
        match self.start {
            Some(place) => host.go_to(self.fd, place),
            None => false,
        }
    }

    // Reads so many bytes; at the file's end from where it began, if that is asked for.
    fn read_on(self, host: &Host, count: usize, buf: &mut [u8]) -> Filled {
        let first = self.read(host, count, buf);
        if !self.repeats | (first.stop != Some(Stop::End)) {
            return first;
        }
        if !self.go_back(host) {
            return Filled {
                length: 0,
                stop: Some(Stop::Failed),
            };
        }
        self.read(host, count, buf)
    }
}

// A supply of PSD: the file whose bytes run across PDUs, none where every PDU has the same PSD; why the last reading of it was not whole; how many bytes the
// next PDU has; and how many are sent of the file.
#[derive(Clone, Copy, Debug)]
pub struct Supply {
    pub stream: Option<Stream>,
    pub stop: Option<Stop>,
    pub length: usize,
    pub sent: u64,
}

impl Supply {
    // The same bytes for every PDU, so many of the buffer.
    pub fn same(length: usize) -> Supply {
        Supply {
            stream: None,
            stop: None,
            length,
            sent: 0,
        }
    }

    // The next bytes of a file for each PDU.
    pub fn of(stream: Stream) -> Supply {
        Supply {
            stream: Some(stream),
            stop: None,
            length: 0,
            sent: 0,
        }
    }

    // Whether the file has ended.
    fn is_over(self) -> bool {
        matches!(self.stop, Some(Stop::End | Stop::Cut))
    }

    // The supply with the bytes of the next PDU, which has room for so many, in the buffer. A file that ended has none, unless it is read again.
    pub fn next(self, host: &Host, room: usize, buf: &mut [u8]) -> Supply {
        let Some(stream) = self.stream else {
            return self;
        };
        if self.is_over() & !stream.repeats {
            return Supply { length: 0, ..self };
        }
        let read = stream.read_on(host, stream.most.min(room), buf);
        Supply {
            stop: read.stop,
            length: read.length,
            ..self
        }
    }

    // The supply once its bytes are sent.
    pub fn counted(self) -> Supply {
        Supply {
            sent: self.sent.wrapping_add(self.length as u64),
            ..self
        }
    }

    // How many bytes settings are tried with, of which a PDU has room for so many: those of every PDU, or the most of a file, and one where there is no
    // room, so that the writer refuses it.
    pub fn tried(self, room: usize) -> usize {
        match self.stream {
            Some(stream) => stream.most.min(room).max(1),
            None => self.length,
        }
    }

    // Whether the file has bytes after those that are sent. Of a pipe that is not known, and not waited for.
    pub fn has_more(self, host: &Host) -> bool {
        let Some(stream) = self.stream else {
            return false;
        };
        if stream.start.is_none() | stream.repeats {
            return false;
        }
        let mut byte = [0u8; 1];
        records::fill(host, stream.fd, &mut byte).length == 1
    }
}

// The first bytes of the buffer; all of it where there are fewer.
pub fn part(buf: &[u8], length: usize) -> &[u8] {
    &buf[..buf.len().min(length)]
}
