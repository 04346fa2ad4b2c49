// The packets that are read ahead: a row of their lengths, and a row of their bytes joined, in whose last part stands what is read ahead of the file.
use crate::next::{Next, Reader};
use crate::{Ending, Source};
use ahead::Ahead;
use host::Host;
use options::Command;
use records::Stop;
use text::Line;

// The longest packet.
const MOST: usize = 4096;

// Packets stand before this place of the row of bytes, and what is read ahead of the file from there on: room for two frames of any length.
const REST: usize = 49152;

// How many places at which bytes are passed over have a line each.
const LINES: u64 = 5;

// The rows.
#[derive(Drop)]
pub struct Rows {
    lengths: [u16; 256],
    bytes: [u8; 65536],
}

// Which packets wait: their lengths stand from `first` to before `end`, and their bytes from `from` to before `to`.
#[derive(Clone, Copy, Debug)]
pub struct Window {
    pub first: usize,
    pub end: usize,
    pub from: usize,
    pub to: usize,
    // Why no more are read, once that is so, and how many packets have been read.
    pub ending: Option<Ending>,
    pub read: u64,
    // Whether packets stand in ADTS frames, whether bytes at which no frame begins are passed over, and what is read ahead of the file.
    pub adts: bool,
    pub resync: bool,
    pub ahead: Ahead,
    // How many bytes were passed over since the last packet, and in all, and at how many places.
    pub skipped: u64,
    pub passed: u64,
    pub places: u64,
}

// The part of a row between two places; nothing where there is no such part.
fn part<T>(row: &[T], from: usize, to: usize) -> &[T] {
    row.get(from..to).unwrap_or(&[])
}

// Moves what stands between two places of a row to its start, as far as the row has it. Answers how much it is.
fn move_down<T: Copy>(row: &mut [T], from: usize, to: usize) -> usize {
    let end = to.min(row.len());
    if end < from {
        return 0;
    }
    row.copy_within(from..end, 0);
    end - from
}

impl Rows {
    pub fn new() -> Rows {
        Rows {
            lengths: [0; 256],
            bytes: [0; 65536],
        }
    }

    // The lengths of the packets that wait.
    pub fn offered(&self, window: Window) -> &[u16] {
        part(&self.lengths, window.first, window.end)
    }

    // Their bytes.
    pub fn joined(&self, window: Window) -> &[u8] {
        part(&self.bytes, window.from, window.to)
    }

    // Moves a packet that stands in the last part of the row of bytes to a place before it. Answers how many bytes it has.
    fn put_bytes(&mut self, to: usize, from: usize, length: usize) -> usize {
        if self.bytes.len() < to {
            return 0;
        }
        let start = REST.wrapping_add(from).wrapping_sub(to);
        move_down(&mut self.bytes[to..], start, start.wrapping_add(length))
    }

    // Puts the length of a packet into the row of lengths, if it has that place.
    fn put_length(&mut self, at: usize, size: usize) {
        if let Some(length) = self.lengths.get_mut(at) {
            *length = (size % 65536) as u16;
        }
    }
}

// The words for bytes that are passed over, after so many such places, with at signs for how many they are and for the places of the file between which they
// stand; none after some places.
fn passed_words(places: u64) -> &'static [u8] {
    if places < LINES {
        return b": passed over @ bytes, from byte @ to byte @: no frame begins there\n";
    }
    if places == LINES {
        return b": further places passed over are counted only\n";
    }
    b""
}

// Says that bytes before a place of the file are passed over, after so many such places.
fn say_passed(host: &Host, label: &[u8], bytes: u64, place: u64, places: u64) {
    if LINES < places {
        return;
    }
    let mut words = Line::<128>::new();
    words.fill(
        passed_words(places),
        &[bytes, place.wrapping_sub(bytes), place],
    );
    files::say(host, label, words.bytes());
}

impl Window {
    // No packet of a file is read yet. Where `resync` is set, bytes at which no ADTS frame begins will be passed over.
    pub fn new(source: Source, resync: bool) -> Window {
        Window {
            first: 0,
            end: 0,
            from: 0,
            to: 0,
            ending: None,
            read: 0,
            adts: source.adts,
            resync,
            ahead: Ahead::new(source.fd, 0),
            skipped: 0,
            passed: 0,
            places: 0,
        }
    }

    // Whether no packet waits.
    pub fn is_empty(self) -> bool {
        self.end <= self.first
    }

    // Whether the source ended inside a packet or at a fault.
    pub fn is_broken(self) -> bool {
        match self.ending {
            None | Some(Ending::Records(Stop::End)) => false,
            Some(_) => true,
        }
    }

    // Whether what waits fills any PDU: over 63 packets, or more bytes than a PDU of 20,480 and the part of a packet that is sent.
    fn is_enough(self) -> bool {
        if (self.end < self.first) | (self.to < self.from) {
            return true;
        }
        (63 < self.end.wrapping_sub(self.first)) | (24576 < self.to.wrapping_sub(self.from))
    }

    // The same packets at the start of both rows.
    fn moved(self, rows: &mut Rows) -> Window {
        Window {
            first: 0,
            end: move_down(&mut rows.lengths, self.first, self.end),
            from: 0,
            to: move_down(&mut rows.bytes, self.from, self.to),
            ..self
        }
    }

    // The same packets, where the bytes that were passed over before the next one are said.
    fn said(self, host: &Host, label: &[u8]) -> Window {
        if self.skipped == 0 {
            return self;
        }
        say_passed(host, label, self.skipped, self.ahead.offset, self.places);
        Window {
            skipped: 0,
            places: self.places.wrapping_add(1),
            ..self
        }
    }

    // The same packets where no more can be read, which is said unless the file ends.
    fn closed(self, host: &Host, label: &[u8], ending: Ending) -> Window {
        let next = self.said(host, label);
        crate::say_end_at(host, label, ending, self.read, self.ahead.offset);
        Window {
            ending: Some(ending),
            ..next
        }
    }

    // The same packets where more bytes are passed over.
    fn passed(self, many: usize, ahead: Ahead) -> Window {
        Window {
            ahead,
            skipped: self.skipped.wrapping_add(many as u64),
            passed: self.passed.wrapping_add(many as u64),
            ..self
        }
    }

    // The same packets and one more, of so many bytes.
    fn with_packet(self, host: &Host, label: &[u8], size: usize, ahead: Ahead) -> Window {
        Window {
            end: self.end.wrapping_add(1),
            to: self.to.wrapping_add(size),
            read: self.read.wrapping_add(1),
            ahead,
            ..self.said(host, label)
        }
    }

    // The same packets after a reading, if there is room for one more: with that, or more bytes that are passed over; where none can be read, says why and
    // closes the window.
    fn taken(self, host: &Host, label: &[u8], rows: &mut Rows) -> Window {
        if (rows.lengths.len() <= self.end) | (REST - MOST < self.to) {
            return self;
        }
        let mut reader = Reader {
            ahead: self.ahead,
            buf: &mut rows.bytes[REST..],
        };
        let next = reader.read(host, self.adts, self.resync, self.skipped != 0);
        let ahead = reader.ahead;
        match next {
            Err(ending) => self.closed(host, label, ending),
            Ok(Next::Passed(many)) => self.passed(many, ahead),
            Ok(Next::Packet { from, length }) => {
                let size = rows.put_bytes(self.to, from, length);
                rows.put_length(self.end, size);
                self.with_packet(host, label, size, ahead)
            }
        }
    }

    // Reads ahead, if what waits may not fill a PDU, until the rows are full or the source ends.
    pub fn filled(self, host: &Host, label: &[u8], rows: &mut Rows) -> Window {
        if self.ending.is_some() | self.is_enough() {
            return self;
        }
        let mut now = self.moved(rows);
        for _ in 0..u64::MAX {
            let next = now.taken(host, label, rows);
            if (now.end == next.end) & (now.passed == next.passed) {
                return next;
            }
            now = next;
        }
        now
    }

    // Says at how many places bytes were passed over, if at any, and how many bytes.
    pub fn say_places(self, host: &Host, command: Command) {
        if self.places == 0 {
            return;
        }
        options::say_numbers(
            host,
            command,
            b": places passed over @ (bytes @)\n",
            &[self.places, self.passed],
        );
    }

    // The packets that wait once so many have ended.
    pub fn without(self, rows: &Rows, ended: u32) -> Window {
        let rest = rows.lengths.get(self.first..).unwrap_or(&[]);
        let gone = &rest[..rest.len().min(ended as usize)];
        let mut from = self.from;
        for &length in gone {
            from = from.saturating_add(usize::from(length)).min(self.to);
        }
        Window {
            first: self.first.wrapping_add(gone.len()),
            from,
            ..self
        }
    }
}
