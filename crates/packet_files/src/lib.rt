// The packets and the PSD of a PDU's log as the bytes of a file, on `words` and `text`: packets as records, as `barzhilup generate` reads them, or in ADTS
// frames; the PSD joined.
#![tactic(auto)]

use text::Line;
use words::Word;

// What a file has: packets as records, packets in ADTS frames, or PSD.
#[derive(Clone, Copy, Debug, PartialEq, Eq)]
pub enum Form {
    Records,
    Frames,
    Psd,
}

impl Form {
    // Puts what stands before a packet of so many bytes.
    fn put_head<const N: usize>(self, out: &mut Line<N>, length: u32) {
        match self {
            Form::Records => out.put(&[(length % 256) as u8, (length / 256 % 256) as u8]),
            Form::Frames => out.put(&frame_header(length)),
            Form::Psd => {}
        }
    }

    // Whether a file has the bytes of an entry whose first word is of a kind.
    fn has(self, kind: u32) -> bool {
        match self {
            Form::Records | Form::Frames => kind == words::PACKET,
            Form::Psd => kind == words::PSD,
        }
    }

    // Puts what a file has of a word, in an entry whose first word is of a kind.
    fn put_word<const N: usize>(self, out: &mut Line<N>, kind: u32, w: Word) {
        if !self.has(kind) {
            return;
        }
        if w.kind == words::DATA {
            put_data(out, w);
        } else {
            self.put_head(out, w.low);
        }
    }
}

// The header of an ADTS frame without a check, for a packet of so many bytes: MPEG-4, AAC LC, 22,050 Hz, two channels, a buffer fullness of all ones (variable
// rate), one block of 1,024 samples. The length counts the header.
fn frame_header(length: u32) -> [u8; 7] {
    let whole = length % 8192 + 7;
    [
        0xFF,
        0xF1,
        0x5C,
        (0x80 + whole / 2048 % 4) as u8,
        (whole / 8 % 256) as u8,
        (whole % 8 * 32 + 31) as u8,
        0xFC,
    ]
}

// Puts the bytes of a data word.
fn put_data<const N: usize>(out: &mut Line<N>, w: Word) {
    let bytes = [
        (w.high % 256) as u8,
        (w.low / 256 % 256) as u8,
        (w.low % 256) as u8,
    ];
    out.put(&bytes[..(w.high / 256 % 4) as usize]);
}

// The kind of an entry's first word, after one more word.
fn kind_after(kind: u32, next: u32) -> u32 {
    if next == words::DATA { kind } else { next }
}

// Puts what a file of a form has of a PDU's log.
pub fn put<const N: usize>(out: &mut Line<N>, form: Form, log: &[u32]) {
    let mut kind = words::NOTE;
    for &word in log {
        let w = words::split(word);
        kind = kind_after(kind, w.kind);
        form.put_word(out, kind, w);
    }
}

// Puts the bytes of the entry whose first word stands before a place of a log.
pub fn put_entry<const N: usize>(out: &mut Line<N>, log: &[u32], place: usize) {
    for &word in &log[place.min(log.len())..] {
        let w = words::split(word);
        if w.kind != words::DATA {
            return;
        }
        put_data(out, w);
    }
}
