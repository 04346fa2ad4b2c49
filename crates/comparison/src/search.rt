// The search for a packet among those that were sent. Of the packets that have its number and its checksum one is looked for that is not delivered yet, from the
// last that was found on and then from the file's start; where there is none, one that is delivered.
ghost use Rattle.io.specs.Counts.{IsPrefixLen};

use crate::{Fault, Sent};
use host::{Fd, Host};
use sent_packets::Span;

// A packet that is looked for: its number, its bytes, and their checksum.
#[derive(Clone, Copy)]
pub struct Packet<'a> {
    pub number: u64,
    pub bytes: &'a [u8],
    checksum: u64,
}

impl<'a> Packet<'a> {
    pub fn new(number: u64, bytes: &'a [u8]) -> Packet<'a> {
        Packet {
            number,
            bytes,
            checksum: sent_packets::checksum(bytes) as u64,
        }
    }
}

// A packet that is found: its index, its bytes, and the byte of the file after it.
#[derive(Clone, Copy, Debug)]
pub struct Found {
    pub index: u64,
    pub length: usize,
    pub next: u64,
}

// What came of a search: the packet is found among those that are not delivered yet, or among those that are, or nowhere.
#[derive(Clone, Copy, Debug)]
pub enum Looked {
    New(Found),
    Old(Found),
    Nowhere,
}

// A packet that was sent, by its index and the byte of the file at which it begins.
#[derive(Clone, Copy)]
struct Place {
    index: u64,
    byte: u64,
}

// Reads to the buffer's start from a byte of a file on. Answers how many bytes.
fn read(host: &Host, fd: Fd, buf: &mut [u8], byte: u64) -> usize
    ensures { IsPrefixLen result buf.new }
{
    host.read_at(fd, buf, byte % 0x4000000000000000)
        .unwrap_or(0)
}

// How many bytes the packet of a span has.
pub fn length_of(span: Span) -> usize {
    span.to.wrapping_sub(span.from)
}

// The byte after a record or frame that begins at a byte.
pub fn after(byte: u64, span: Span) -> u64 {
    byte.wrapping_add(span.to as u64)
}

// The word of a packet's checksum.
fn word_of(index: u64) -> usize {
    crate::CHECKSUMS.wrapping_add((index / 8) as usize)
}

// The word of the byte at which a packet begins, or that of the first of its 64.
fn byte_word(index: u64) -> usize {
    crate::BYTES.wrapping_add((index / 64) as usize)
}

// Keeps a packet's checksum, and its byte where it is the first of 64.
fn keep(row: &mut [u64], at: Place, checksum: u64) {
    let word = word_of(at.index);
    let others = crate::at(row, word);
    crate::set(row, word, others | (checksum << (at.index % 8 * 8)));
    if at.index % 64 == 0 {
        crate::set(row, byte_word(at.index), at.byte);
    }
}

// A known place at or before the packet with an index: the one after the last that was found, or the first of 64.
fn known_before(row: &[u64], index: u64) -> Place {
    let next = crate::at(row, crate::NEXT);
    if (next <= index) & (next / 64 == index / 64) {
        return Place {
            index: next,
            byte: crate::at(row, crate::NEXT_BYTE),
        };
    }
    Place {
        index: index / 64 * 64,
        byte: crate::at(row, byte_word(index)),
    }
}

// The checksum that is kept of the packet with an index.
fn checksum_at(row: &[u64], index: u64) -> u64 {
    (crate::at(row, word_of(index)) >> (index % 8 * 8)) % 256
}

// Whether the packet with an index has a checksum, and is delivered or not as is asked.
fn may_be(row: &[u64], index: u64, delivered: bool, checksum: u64) -> bool {
    index < crate::at(row, crate::SENT)
        && sent_packets::bitmap::at(crate::bitmap(row), index) == u64::from(delivered)
        && checksum_at(row, index) == checksum
}

// How many times the numbers begin in the file.
fn rounds_of(row: &[u64]) -> u64 {
    crate::at(row, crate::SENT) / 64 + 1
}

// The round of the first packet with a number that is not before the one after the last that was found.
fn first_round(row: &[u64], number: u64) -> u64 {
    let next = crate::at(row, crate::NEXT);
    if next <= number {
        return 0;
    }
    (next - number - 1) / 64 + 1
}

// The index of a number in a round, so many after another; after the last round comes the first.
fn index_in(first: u64, more: u64, rounds: u64, number: u64) -> u64 {
    if rounds == 0 {
        return number;
    }
    first.wrapping_add(more) % rounds % (crate::MOST / 64) * 64 + number % 64
}

impl Sent {
    // Where the packet stands whose record or frame begins at a byte of the file.
    pub fn span_at(self, host: &Host, byte: u64) -> Span {
        let mut head = [0u8; 9];
        let n = read(host, self.fd, &mut head, byte);
        sent_packets::span_of(&head[..n], self.adts)
    }

    // The byte at which the packet with an index begins; where the file has none, one at which none begins.
    fn byte_of(self, host: &Host, row: &[u64], index: u64) -> u64 {
        let known = known_before(row, index);
        let mut byte = known.byte;
        for _ in known.index..index {
            byte = after(byte, self.span_at(host, byte));
        }
        byte
    }

    // The packet with an index, if it is the one that is looked for, by its number and bytes.
    fn tried(
        self,
        host: &Host,
        row: &[u64],
        index: u64,
        packet: Packet,
    ) -> Result<Option<Found>, Fault> {
        let byte = self.byte_of(host, row, index);
        let mut bytes = [0u8; 4608];
        let n = read(host, self.fd, &mut bytes, byte);
        let span = sent_packets::span_of(&bytes[..n], self.adts);
        if span.to == 0 {
            return Err(Fault::Unread);
        }
        let one = sent_packets::packet_of(&bytes[..n], span.from, span.to);
        if !sent_packets::is_delivered(index, one, packet.number, packet.bytes) {
            return Ok(None);
        }
        Ok(Some(Found {
            index,
            length: length_of(span),
            next: after(byte, span),
        }))
    }

    // Counts a packet that is the same as the one 64 before, which has the same number.
    fn count_alike(self, host: &Host, row: &mut [u64], index: u64, packet: Packet) {
        if index < 64 {
            return;
        }
        if checksum_at(row, index - 64) != packet.checksum {
            return;
        }
        if let Ok(Some(_)) = self.tried(host, row, index - 64, packet) {
            crate::add(row, crate::ALIKE);
        }
    }

    // Keeps what a search needs of a packet that was sent. Answers where it stands.
    fn learn(self, host: &Host, row: &mut [u64], at: Place) -> Span {
        let mut bytes = [0u8; 4608];
        let n = read(host, self.fd, &mut bytes, at.byte);
        let span = sent_packets::span_of(&bytes[..n], self.adts);
        let packet = Packet::new(
            sent_packets::number_at(at.index),
            sent_packets::packet_of(&bytes[..n], span.from, span.to),
        );
        keep(row, at, packet.checksum);
        self.count_alike(host, row, at.index, packet);
        span
    }

    // Goes once through the file, if all packets are there.
    fn learn_all(self, host: &Host, row: &mut [u64]) -> Result<(), Fault> {
        let mut byte: u64 = 0;
        for index in 0..crate::at(row, crate::SENT) {
            let span = self.learn(host, row, Place { index, byte });
            if span.to == 0 {
                return Err(Fault::Unread);
            }
            byte = after(byte, span);
        }
        Ok(())
    }

    // Keeps what a search needs; the first time, goes through the file for it.
    pub fn make_ready(self, host: &Host, row: &mut [u64]) -> Result<(), Fault> {
        if crate::at(row, crate::READY) != 0 {
            return Ok(());
        }
        self.learn_all(host, row)?;
        crate::set(row, crate::READY, 1);
        if crate::at(row, crate::READY) == 0 {
            return Err(Fault::Unread);
        }
        Ok(())
    }

    // Looks for a packet among those that are delivered or not, as is asked.
    fn among(
        self,
        host: &Host,
        row: &[u64],
        delivered: bool,
        packet: Packet,
    ) -> Result<Option<Found>, Fault> {
        let rounds = rounds_of(row);
        let first = first_round(row, packet.number);
        for k in 0..rounds {
            let index = index_in(first, k, rounds, packet.number);
            if may_be(row, index, delivered, packet.checksum) {
                if let Some(found) = self.tried(host, row, index, packet)? {
                    return Ok(Some(found));
                }
            }
        }
        Ok(None)
    }

    // Looks for a packet.
    pub fn looked_for(self, host: &Host, row: &[u64], packet: Packet) -> Result<Looked, Fault> {
        if let Some(found) = self.among(host, row, false, packet)? {
            return Ok(Looked::New(found));
        }
        match self.among(host, row, true, packet)? {
            Some(found) => Ok(Looked::Old(found)),
            None => Ok(Looked::Nowhere),
        }
    }
}
