// Files of records, on `text` and `host`: each record is its length in two bytes, low byte first, and then its bytes. A packet file has a packet of 1 to 4,096
// bytes in each record; a PDU file has a PDU in each, and an empty record stands for a PDU that is marked lost.
#![tactic(auto)]

ghost use Rattle.std.specs.Prelude.{◌≡◌, ◌+◌, ◌*◌, ◌≤◌, ◌<◌, length, Some, None, IfOk, IfErr};
ghost use Rattle.io.specs.Counts.{IsPrefixLen};

use host::{Fd, Host};
use text::Line;

// Why a read came to no whole record: the file was at its end, it ended inside the record, the record is longer than the buffer, or the system says why.
#[derive(Clone, Copy, Debug, PartialEq, Eq)]
pub enum Stop {
    End,
    Cut,
    Long,
    Failed,
}

// The longest PDU; a longer record of a file of PDUs is none.
pub const LONGEST: usize = 20480;

// How many bytes stand in the buffer from its start on, also of a record that the file ends inside, and why they are not all.
#[derive(Clone, Copy, Debug)]
pub struct Filled {
    pub length: usize,
    pub stop: Option<Stop>,
}

impl Filled {
    // Nothing, and why.
    fn without(stop: Stop) -> Filled
        ensures { 0 ≡ result.length }
    {
        Filled {
            length: 0,
            stop: Some(stop),
        }
    }

    // The length of what is whole, or why it is not.
    pub fn whole(self) -> Result<usize, Stop>
        ensures ok { IfOk result (λ n. (n ≡ self.length) × (self.stop ≡ None)) }
        ensures err { IfErr result (λ stop. self.stop ≡ Some stop) }
    {
        match self.stop {
            None => Ok(self.length),
            Some(stop) => Err(stop),
        }
    }
}

// Why a buffer is not full after so many bytes, by what the next read came to.
fn stop_of(got: Option<usize>, done: usize) -> Stop {
    match got {
        None => Stop::Failed,
        Some(_) if done == 0 => Stop::End,
        Some(_) => Stop::Cut,
    }
}

// Fills the buffer from a file. An empty buffer is full.
pub fn fill(host: &Host, fd: Fd, buf: &mut [u8]) -> Filled
    ensures { IsPrefixLen result.length buf.new }
{
    let mut done: usize = 0;
    while done < buf.len() {
        let got = host.read(fd, &mut buf[done..]);
        let count = got.unwrap_or(0);
        if count == 0 {
            return Filled {
                length: done,
                stop: Some(stop_of(got, done)),
            };
        }
        done += count;
    }
    Filled {
        length: done,
        stop: None,
    }
}

// Reads so many bytes to the buffer's start: the part of a record after its head, so the file does not end before it.
pub fn read_bytes(host: &Host, fd: Fd, buf: &mut [u8], length: usize) -> Filled
    ensures { IsPrefixLen result.length buf.new }
{
    if buf.len() < length {
        return Filled::without(Stop::Long);
    }
    let filled = fill(host, fd, &mut buf[..length]);
    if filled.stop == Some(Stop::End) {
        return Filled::without(Stop::Cut);
    }
    filled
}

// Two bytes, low byte first.
pub fn two_bytes(low: u8, high: u8) -> usize
    ensures { result ≡ low + 256 * high }
{
    usize::from(low) + 256 * usize::from(high)
}

// Reads the next record to the buffer's start, of at most so many bytes. Where it is not whole, the file's place is not that of a record.
fn read_limited(host: &Host, fd: Fd, buf: &mut [u8], most: usize) -> Filled
    ensures { IsPrefixLen result.length buf.new }
{
    let mut head = [0u8; 2];
    if let Some(stop) = fill(host, fd, &mut head).stop {
        return Filled::without(stop);
    }
    let length = two_bytes(head[0], head[1]);
    if most < length {
        return Filled::without(Stop::Long);
    }
    read_bytes(host, fd, buf, length)
}

// Reads the next record to the buffer's start.
pub fn read(host: &Host, fd: Fd, buf: &mut [u8]) -> Filled
    ensures { IsPrefixLen result.length buf.new }
{
    read_limited(host, fd, buf, 65535)
}

// The same of a file of PDUs: too long where the record is longer than any PDU.
pub fn read_pdu(host: &Host, fd: Fd, buf: &mut [u8]) -> Filled
    ensures { IsPrefixLen result.length buf.new }
{
    read_limited(host, fd, buf, LONGEST)
}

// Writes a record of at most 65,535 bytes: in one write up to 4,096 bytes, else its length first. Answers whether all is written.
pub fn write(host: &Host, fd: Fd, bytes: &[u8]) -> bool {
    if 65535 < bytes.len() {
        return false;
    }
    let head = [(bytes.len() % 256) as u8, (bytes.len() / 256) as u8];
    if 4096 < bytes.len() {
        return host.write_all(fd, &head) && host.write_all(fd, bytes);
    }
    let mut block = Line::<4098>::new();
    block.put(&head);
    block.put(bytes);
    host.write_all(fd, block.bytes())
}
