// A joined frame in the output (document 02, Ask 11), on `words` and `text`: its words, or lines of comma-separated values, a line for each packet; and the
// counts of its packets.
#![tactic(auto)]

use text::Line;
use words::Word;

// What stands for a frame: its words, or lines of comma-separated values.
#[derive(Clone, Copy, Debug, PartialEq, Eq)]
pub enum Format {
    Words,
    Csv,
}

// Room for what stands for a frame: all words of a result, 200,000 bytes, or a line of at most 38 bytes for each packet. With a core packet there are at
// most 128 lines; without one the order of the enhanced log is not looked at, and 25,000 words may be 12,500 packets: 475,000 bytes.
pub type Block = Line<475000>;

// Bit 29 of a word, in its bits 29-16: a joined enhanced packet has it.
const ENHANCED: u32 = 0x2000;

// How many packets a row of words has, by their first words: those without bit 29 and those with it; and how many notes.
#[derive(Clone, Copy)]
pub struct Packets {
    pub plain: u64,
    pub marked: u64,
    pub notes: u64,
}

impl Packets {
    // The counts with one more word.
    fn with_word(self, w: Word) -> Packets {
        let packet = w.kind == words::PACKET;
        Packets {
            plain: self
                .plain
                .wrapping_add(u64::from(packet & (w.high < ENHANCED))),
            marked: self
                .marked
                .wrapping_add(u64::from(packet & (ENHANCED <= w.high))),
            notes: self.notes.wrapping_add(u64::from(w.kind == words::NOTE)),
        }
    }
}

pub fn packets_of(row: &[u32]) -> Packets {
    let mut packets = Packets {
        plain: 0,
        marked: 0,
        notes: 0,
    };
    for &word in row {
        packets = packets.with_word(words::split(word));
    }
    packets
}

// A packet of a frame: its number, and how many bytes its core and its enhanced part have, 0 for none.
#[derive(Clone, Copy)]
struct Packet {
    number: u32,
    core: u32,
    enhanced: u32,
}

impl Packet {
    // The packet's line: with its parts, and whether both are there.
    fn put(self, block: &mut Block, frame: u64) {
        let both = (self.core != 0) & (self.enhanced != 0);
        block.fill(
            b"@,@,@,@,@\n",
            &[
                frame,
                u64::from(self.number),
                u64::from(self.core),
                u64::from(self.enhanced),
                u64::from(both),
            ],
        );
    }
}

// The line of the core packet that is still to come, if one is, with the length of its enhanced part.
fn close(block: &mut Block, frame: u64, waiting: Option<Packet>, enhanced: u32) {
    if let Some(core) = waiting {
        Packet { enhanced, ..core }.put(block, frame);
    }
}

// The lines after one more word of a result. Answers the core packet whose line waits for its enhanced part.
fn after(block: &mut Block, frame: u64, waiting: Option<Packet>, w: Word) -> Option<Packet> {
    if w.kind != words::PACKET {
        return waiting;
    }
    if ENHANCED <= w.high {
        close(block, frame, waiting, w.low);
        return None;
    }
    close(block, frame, waiting, 0);
    Some(Packet {
        number: w.high,
        core: w.low,
        enhanced: 0,
    })
}

// The lines of a result's packets, in its order.
fn put_joined(block: &mut Block, frame: u64, res: &[u32]) {
    let mut waiting = None;
    for &word in res {
        waiting = after(&mut *block, frame, waiting, words::split(word));
    }
    close(block, frame, waiting, 0);
}

// Whether a log has a packet of this number.
fn has_packet(log: &[u32], number: u32) -> bool {
    log.iter().any(|&word| {
        let w = words::split(word);
        (w.kind == words::PACKET) & (w.high == number)
    })
}

// The lines of the enhanced packets without core.
fn put_dropped(block: &mut Block, frame: u64, core: &[u32], enhanced: &[u32]) {
    for &word in enhanced {
        let w = words::split(word);
        if (w.kind == words::PACKET) && !has_packet(core, w.high) {
            let packet = Packet {
                number: w.high,
                core: 0,
                enhanced: w.low,
            };
            packet.put(&mut *block, frame);
        }
    }
}

// The bytes of a result's words, each low byte first.
fn put_words(block: &mut Block, res: &[u32]) {
    for &word in res {
        block.put(&words::bytes_of(word));
    }
}

impl Format {
    // What stands before all frames.
    pub fn put_title(self, block: &mut Block) {
        if self == Format::Csv {
            block.put(b"frame,number,core,enhanced,both\n");
        }
    }

    // What stands for a frame, counted from 0, that is refused with a number.
    pub fn put_refused(self, block: &mut Block, frame: u64, refusal: u32) {
        if self == Format::Csv {
            block.fill(b"@,refused,@,,\n", &[frame, u64::from(refusal)]);
        }
    }

    // What stands after all frames, where all of them were read.
    pub fn put_end(self, block: &mut Block, frames: u64) {
        if self == Format::Csv {
            block.fill(b",end,@,,whole\n", &[frames]);
        }
    }

    // What stands for a frame, counted from 0, that is joined: the result's words, or a line for each packet, those of the core in its order and then those
    // of the enhanced packets without core.
    pub fn put_frame(
        self,
        block: &mut Block,
        frame: u64,
        core: &[u32],
        enhanced: &[u32],
        res: &[u32],
    ) {
        match self {
            Format::Words => put_words(block, res),
            Format::Csv => {
                put_joined(&mut *block, frame, res);
                put_dropped(block, frame, core, enhanced);
            }
        }
    }
}
