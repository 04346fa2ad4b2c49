// Files of logs, on `records`: a record for each PDU, in it the words of the PDU's log, each in four bytes, low byte first. A frame has so many PDUs of its
// file; its log is theirs, one after another.
#![tactic(auto)]

ghost use Rattle.std.specs.Prelude.{◌≡◌, ◌+◌, ◌*◌, ◌<◌, length, IfOk};
ghost use Rattle.io.specs.Counts.{IsPrefixLen};

use host::{Fd, Host};

// Why a frame's log is not read on: what stops the reading of a record, with `End` where the file has no more; a record is no row of words; or the frame's
// log has more words than its buffer.
#[derive(Clone, Copy, Debug, PartialEq, Eq)]
pub enum Stop {
    Record(records::Stop),
    NoWords,
    TooLong,
}

impl From<records::Stop> for Stop {
    fn from(stop: records::Stop) -> Stop {
        Stop::Record(stop)
    }
}

// Room for the log of a frame.
pub fn log_buffer() -> [u32; 25000]
    ensures { 25000 ≡ length result }
{
    [0; 25000]
}

// Room for the logs of two frames.
pub fn result_buffer() -> [u32; 50000]
    ensures { 50000 ≡ length result }
{
    [0; 50000]
}

// The word of four bytes, low byte first.
pub fn word_of(a: u8, b: u8, c: u8, d: u8) -> u32
    ensures { result ≡ a + 0x100 * (b + 0x100 * (c + 0x100 * d)) }
{
    u32::from(a) + 0x100 * (u32::from(b) + 0x100 * (u32::from(c) + 0x100 * u32::from(d)))
}

// The words of a record's bytes, from the log's start on, as many as there is room for.
fn put_words(log: &mut [u32], bytes: &[u8]) {
    for (word, four) in log.iter_mut().zip(bytes.chunks_exact(4)) {
        *word = word_of(four[0], four[1], four[2], four[3]);
    }
}

// A frame so far: why its reading stopped before all its PDUs, if it did; how many words its log has, and how many PDUs were read of the file.
#[derive(Clone, Copy)]
pub struct Frame {
    pub stop: Option<Stop>,
    pub words: usize,
    pub pdus: u64,
}

impl Frame {
    // Why the frame is not read; nothing where it has all its PDUs, or as many as the file still has.
    pub fn fault(self) -> Option<Stop> {
        match self.stop {
            Some(Stop::Record(records::Stop::End)) => None,
            stop => stop,
        }
    }

    // The frame with the words of one more record.
    fn with_record(self, bytes: &[u8], log: &mut [u32]) -> Result<Frame, Stop>
        requires { IsPrefixLen self.words log.old }
        ensures { IfOk result (λ frame. IsPrefixLen frame.words log.new) }
    {
        if bytes.len() % 4 != 0 {
            return Err(Stop::NoWords);
        }
        let at = self.words;
        let many = bytes.len() / 4;
        if log.len() - at < many {
            return Err(Stop::TooLong);
        }
        put_words(&mut log[at..], bytes);
        Ok(Frame {
            words: at + many,
            pdus: self.pdus.wrapping_add(1),
            ..self
        })
    }

    // The frame with the next PDU of the file; where there is no file, it is at its end.
    fn next(
        self,
        host: &Host,
        fd: Option<Fd>,
        buf: &mut [u8],
        log: &mut [u32],
    ) -> Result<Frame, Stop>
        requires { IsPrefixLen self.words log.old }
        ensures { IfOk result (λ frame. IsPrefixLen frame.words log.new) }
    {
        let fd = fd.ok_or(records::Stop::End)?;
        let n = records::read(host, fd, buf).whole()?;
        self.with_record(&buf[..n], log)
    }
}

// Where the log of a stream comes from, if there is one, and how many PDUs a frame has.
#[derive(Clone, Copy)]
pub struct Source {
    pub fd: Option<Fd>,
    pub pdus: u32,
}

impl Source {
    // Reads a frame, to the log's start, after so many PDUs; where the file is at its end, of fewer PDUs or none.
    pub fn read(self, host: &Host, before: u64, buf: &mut [u8], log: &mut [u32]) -> Frame
        ensures { IsPrefixLen result.words log.new }
    {
        let mut frame = Frame {
            stop: None,
            words: 0,
            pdus: before,
        };
        for _ in 0..self.pdus {
            match frame.next(host, self.fd, &mut *buf, &mut *log) {
                Ok(more) => frame = more,
                Err(stop) => {
                    return Frame {
                        stop: Some(stop),
                        ..frame
                    };
                }
            }
        }
        frame
    }
}
