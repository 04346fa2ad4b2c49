// The formats of the packet log: its words, text for people, comma-separated values, JSON lines, or records of each PDU's words; on `outcome`, `copies`,
// `causes`, `psd_text` and `crc32`.
#![tactic(auto)]

mod people;
mod rows;

use copies::Source;
use outcome::Outcome;
use rows::Row;
use text::Line;

// No entry of a log takes more bytes in any format: the longest is PSD whose text has nothing but quotes.
pub const MOST: usize = 600;

#[derive(Clone, Copy, Debug, PartialEq, Eq)]
pub enum Format {
    Words,
    Text,
    Csv,
    Records,
    Json,
}

// Whether a note is on a piece.
fn is_on_piece(cause: u32) -> bool {
    matches!(cause, 2 | 3 | 5 | 7)
}

// The length of a record that has so many words, in two bytes, low byte first. A PDU's log has at most 8,400.
fn length(words: usize) -> [u8; 2] {
    [(words % 64 * 4) as u8, (words / 64 % 256) as u8]
}

impl Format {
    // What stands before all PDUs.
    pub fn title(self) -> &'static [u8] {
        match self {
            Format::Csv => {
                b"pdu,kind,copy,corrected,refusal,packet,length,piece,note,cause,delivered,missing,crc32,text,pdus\n"
            }
            Format::Words | Format::Text | Format::Records | Format::Json => b"",
        }
    }

    // Puts what stands after all PDUs, where all of them were read and logged.
    pub fn put_end<const N: usize>(self, line: &mut Line<N>, pdus: u64) {
        match self {
            Format::Csv => line.fill(b",end,,,,,,,,whole,,,,,@\n", &[pdus]),
            Format::Json => line.fill(b"{\"kind\":\"end\",\"pdus\":@}\n", &[pdus]),
            Format::Words | Format::Text | Format::Records => {}
        }
    }

    // Whether a format has the words of a log as they are, and not a line for each entry.
    pub fn has_words(self) -> bool {
        matches!(self, Format::Words | Format::Records)
    }

    // Puts what stands for a PDU, counted from 0, before its log; of one that came as two copies, the source of its pieces is told.
    pub fn put_pdu<const N: usize>(
        self,
        line: &mut Line<N>,
        pdu: u64,
        o: Outcome,
        source: Option<Source>,
    ) {
        match self {
            Format::Words => {}
            Format::Text => people::put_pdu(line, pdu, o, source),
            Format::Csv => Row::Csv.put_pdu(line, pdu, o, source),
            Format::Records => line.put(&length(o.words)),
            Format::Json => Row::Json.put_pdu(line, pdu, o, source),
        }
    }

    // Puts the line of an entry of a PDU's log, from its first word and its data words, in a format that has one.
    pub fn put_entry<const N: usize>(self, line: &mut Line<N>, pdu: u64, entry: &[u32]) {
        let Some((&first, data)) = entry.split_first() else {
            return;
        };
        let w = words::split(first);
        match self {
            Format::Text => people::put_entry(line, w),
            Format::Csv => Row::Csv.put_entry(line, pdu, w, data),
            Format::Json => Row::Json.put_entry(line, pdu, w, data),
            Format::Words | Format::Records => {}
        }
    }
}
