// The packets that a log delivers, held against the file of those that were sent: which were delivered, which are missing, and which were never sent; on
// `sent_packets`, `packet_files` and `host`. A row of counts has room at its end for what a comparison keeps.
#![tactic(auto)]

pub mod list;
mod search;

use host::{Fd, Host};
use list::State;
use search::{Found, Looked, Packet};
use text::Line;

// The file of the packets that were sent, as records or in ADTS frames, how many it has, and the file in which each has a line, if that is asked for.
#[derive(Clone, Copy, Debug)]
pub struct Sent {
    pub fd: Fd,
    pub adts: bool,
    pub many: u64,
    pub list: Option<Fd>,
}

// Why the packets of a PDU are not all compared: the sent ones cannot be read, or the lines not be written.
#[derive(Clone, Copy, Debug, PartialEq, Eq)]
pub enum Fault {
    Unread,
    Unlisted,
}

// The most packets that can be compared with.
pub const MOST: u64 = 1048576;

// The words that a comparison keeps, the last ones of a row: a bitmap of the packets that were delivered; of each 64th packet the byte of the file at which it
// begins; a checksum of each packet, eight to a word; and numbers.
const WORDS: usize = 163856;

const BITMAP: usize = 16384;

const BYTES: usize = 16384;

const CHECKSUMS: usize = 32768;

// How many packets were sent, and 1 where bytes and checksums are kept.
const SENT: usize = 163840;

const READY: usize = 163841;

// The place after the last packet that was found: its index, and its byte of the file.
const NEXT: usize = 163842;

const NEXT_BYTE: usize = 163843;

// The indices of the first packet that was delivered, and after the last one; how many of those that were came out of turn; packets that came again, and those
// that were never sent.
const FIRST: usize = 163844;

const END: usize = 163845;

const LATE: usize = 163846;

const AGAIN: usize = 163847;

const NEVER: usize = 163848;

// How many packets have the number and the bytes of the one 64 before.
const ALIKE: usize = 163849;

// The place in a row of a word that a comparison keeps.
fn place(row: &[u64], word: usize) -> usize {
    row.len().wrapping_sub(WORDS).wrapping_add(word)
}

// A word that a comparison keeps, 0 where the row is too short.
fn at(row: &[u64], word: usize) -> u64 {
    row.get(place(row, word)).copied().unwrap_or(0)
}

// Keeps a word, if there is room.
fn set(row: &mut [u64], word: usize, value: u64) {
    let k = place(row, word);
    if let Some(kept) = row.get_mut(k) {
        *kept = value;
    }
}

// Counts one more.
fn add(row: &mut [u64], word: usize) {
    let n = at(row, word);
    set(row, word, n.wrapping_add(1));
}

// The bitmap of the packets that were delivered.
fn bitmap(row: &[u64]) -> &[u64] {
    match row.len().checked_sub(WORDS) {
        Some(start) => &row[start..start + BITMAP],
        None => &[],
    }
}

// Sets the bit of a packet that is delivered.
fn deliver(row: &mut [u64], index: u64) {
    if let Some(start) = row.len().checked_sub(WORDS) {
        sent_packets::bitmap::set(&mut row[start..start + BITMAP], index);
    }
}

// How many packets were delivered that were never sent.
pub fn never_sent(row: &[u64]) -> u64 {
    at(row, NEVER)
}

// Keeps the index of the first of the packets that were delivered; none was where their end is 0.
fn keep_first(row: &mut [u64], index: u64) {
    if (at(row, END) == 0) | (index < at(row, FIRST)) {
        set(row, FIRST, index);
    }
}

// Keeps the end of the packets that were delivered; one before it comes out of turn.
fn keep_end(row: &mut [u64], index: u64) {
    if index < at(row, END) {
        add(row, LATE);
    } else {
        set(row, END, index.wrapping_add(1));
    }
}

// Goes on after a packet that is found.
fn go_on(row: &mut [u64], found: Found) {
    set(row, NEXT, found.index.wrapping_add(1));
    set(row, NEXT_BYTE, found.next);
}

impl Sent {
    // Begins a comparison with the packets that were sent.
    pub fn begin(self, row: &mut [u64]) {
        set(row, SENT, self.many);
    }

    // Takes a packet that is delivered.
    fn delivered(self, host: &Host, row: &mut [u64], found: Found, pdu: u64) -> Result<(), Fault> {
        deliver(row, found.index);
        keep_first(row, found.index);
        keep_end(row, found.index);
        go_on(row, found);
        self.list_sent(host, State::Delivered, found.index, found.length, pdu)
    }

    // Counts a packet that came again.
    fn again(self, host: &Host, row: &mut [u64], found: Found, pdu: u64) -> Result<(), Fault> {
        add(row, AGAIN);
        go_on(row, found);
        self.list_sent(host, State::Again, found.index, found.length, pdu)
    }

    // Counts a packet that was never sent, and says so.
    fn never(self, host: &Host, row: &mut [u64], packet: Packet, pdu: u64) -> Result<(), Fault> {
        list::say_never(host, at(row, NEVER), pdu, packet);
        add(row, NEVER);
        self.list_never(host, packet, pdu)
    }

    // Looks for a packet that a PDU delivers, and counts what came of it.
    fn packet_came(
        self,
        host: &Host,
        row: &mut [u64],
        pdu: u64,
        packet: Packet,
    ) -> Result<(), Fault> {
        match self.looked_for(host, row, packet)? {
            Looked::New(found) => self.delivered(host, row, found, pdu),
            Looked::Old(found) => self.again(host, row, found, pdu),
            Looked::Nowhere => self.never(host, row, packet, pdu),
        }
    }

    // What comes of the word at a place of a PDU's log: the first one of a packet is looked for.
    fn word_came(
        self,
        host: &Host,
        row: &mut [u64],
        pdu: u64,
        log: &[u32],
        i: usize,
        word: u32,
    ) -> Result<(), Fault> {
        let w = words::split(word);
        if w.kind != words::PACKET {
            return Ok(());
        }
        let mut packet = Line::<4096>::new();
        packet_files::put_entry(&mut packet, log, i.wrapping_add(1));
        self.packet_came(
            host,
            row,
            pdu,
            Packet::new(u64::from(w.high), packet.bytes()),
        )
    }

    // Compares the packets of a PDU's log, the PDU counted from 0.
    pub fn compare(self, host: &Host, row: &mut [u64], pdu: u64, log: &[u32]) -> Result<(), Fault> {
        self.make_ready(host, row)?;
        for (i, &word) in log.iter().enumerate() {
            self.word_came(host, row, pdu, log, i, word)?;
        }
        Ok(())
    }

    // Writes the lines of the packets that are missing, and the last line, where all PDUs are logged.
    pub fn end(self, host: &Host, row: &[u64]) -> Result<(), Fault> {
        self.list_missing(host, row)?;
        self.list_end(host, at(row, SENT))
    }
}

// Puts the line for packets that are alike, if there are any.
fn put_alike<const N: usize>(lines: &mut Line<N>, row: &[u64]) {
    let alike = at(row, ALIKE);
    if alike != 0 {
        lines.fill(
            b"barzhilup log: packets sent that cannot be told apart from the one 64 before @\n",
            &[alike],
        );
    }
}

// Puts the counts, as lines.
pub fn put_summary<const N: usize>(lines: &mut Line<N>, row: &[u64]) {
    let all = at(row, SENT);
    let missing = sent_packets::bitmap::zeros(bitmap(row), all);
    lines.fill(
        b"barzhilup log: packets sent @: delivered @, missing @",
        &[all, all.wrapping_sub(missing), missing],
    );
    list::put_share(lines, missing, all);
    lines.fill(
        b", of these before the first delivered @, after the last @
barzhilup log: packets delivered out of turn @, delivered again @, never sent @\n",
        &[
            at(row, FIRST),
            all.wrapping_sub(at(row, END)),
            at(row, LATE),
            at(row, AGAIN),
            at(row, NEVER),
        ],
    );
    put_alike(lines, row);
}
