// The packet log as rows of columns: a row for each PDU, and one for each entry of its log. A row is a line of comma-separated values, or of JSON, an
// object with the columns that are not empty.
ghost use Rattle.std.specs.Prelude.{◌<◌};

use copies::Source;
use outcome::Outcome;
use receiver::Receiver;
use text::Line;
use words::Word;

// What a row is: values with commas between them, or an object of JSON.
#[derive(Clone, Copy, Debug, PartialEq, Eq)]
pub enum Row {
    Csv,
    Json,
}

// A digit to the base 16.
fn digit(value: u8) -> u8
    requires { value < 16 }
{
    if value < 10 { 48 + value } else { 87 + value }
}

// The eight digits of a number to the base 16.
fn put_hexadecimal<const N: usize>(line: &mut Line<N>, x: u32) {
    for byte in x.to_be_bytes() {
        line.put(&[digit(byte / 16), digit(byte % 16)]);
    }
}

// Whether a spreadsheet would take a text for a formula.
fn is_formula(text: &[u8]) -> bool {
    matches!(text, [b'=' | b'+' | b'-' | b'@', ..])
}

impl Row {
    // The row of a PDU that is lost.
    fn put_lost<const N: usize>(self, line: &mut Line<N>, pdu: u64) {
        match self {
            Row::Csv => line.fill(b"@,lost,,,,,,,,", &[pdu]),
            Row::Json => line.fill(b"{\"pdu\":@,\"kind\":\"lost\"", &[pdu]),
        }
    }

    // The row of a PDU that is refused, with the cause.
    fn put_refused<const N: usize>(self, line: &mut Line<N>, pdu: u64, o: Outcome) {
        let numbers = [pdu, u64::from(o.number), o.length as u64];
        match self {
            Row::Csv => {
                line.fill(b"@,refused,,,@,,@,,,", &numbers);
                causes::put_with_k(line, o.number, o.wrong);
            }
            Row::Json => {
                line.fill(
                    b"{\"pdu\":@,\"kind\":\"refused\",\"refusal\":@,\"length\":@,\"cause\":\"",
                    &numbers,
                );
                causes::put_with_k(line, o.number, o.wrong);
                line.put(b"\"");
            }
        }
    }

    // The copies that the pieces of a PDU are taken from.
    fn put_source<const N: usize>(self, line: &mut Line<N>, source: Source) {
        match self {
            Row::Csv => line.put(source.word()),
            Row::Json => {
                line.put(b",\"copy\":\"");
                line.put(source.word());
                line.put(b"\"");
            }
        }
    }

    // The row of a PDU that is received.
    fn put_received<const N: usize>(
        self,
        line: &mut Line<N>,
        pdu: u64,
        o: Outcome,
        source: Option<Source>,
    ) {
        match self {
            Row::Csv => line.fill(b"@,received,", &[pdu]),
            Row::Json => line.fill(b"{\"pdu\":@,\"kind\":\"received\"", &[pdu]),
        }
        if let Some(source) = source {
            self.put_source(line, source);
        }
        let numbers = [u64::from(o.number), o.length as u64];
        match self {
            Row::Csv => line.fill(b",@,,,@,,,", &numbers),
            Row::Json => line.fill(b",\"corrected\":@,\"length\":@", &numbers),
        }
    }

    // The loss column of the receiver's record after a PDU (document 02, Ask 14), at the end of its row.
    fn put_loss<const N: usize>(self, line: &mut Line<N>, r: Receiver) {
        let numbers = [u64::from(r.delivered), u64::from(r.missing)];
        match self {
            Row::Csv => line.fill(b",@,@,,,\n", &numbers),
            Row::Json => line.fill(b",\"delivered\":@,\"missing\":@}\n", &numbers),
        }
    }

    // What came of a PDU, counted from 0.
    pub fn put_pdu<const N: usize>(
        self,
        line: &mut Line<N>,
        pdu: u64,
        o: Outcome,
        source: Option<Source>,
    ) {
        match o.kind {
            outcome::LOST => self.put_lost(line, pdu),
            outcome::REFUSED => self.put_refused(line, pdu, o),
            _ => self.put_received(line, pdu, o, source),
        }
        self.put_loss(line, o.receiver);
    }

    // A character of a text in quotes: in CSV a quote is doubled, in JSON it and a backslash have a backslash before them.
    fn put_character<const N: usize>(self, line: &mut Line<N>, byte: u8) {
        match (self, byte) {
            (Row::Json, b'"' | b'\\') => line.put(&[b'\\', byte]),
            (Row::Csv, b'"') => line.put(&[byte, byte]),
            _ => line.put(&[byte]),
        }
    }

    // A text in quotes, without them. In CSV there is a blank before one that a spreadsheet would take for a formula.
    fn put_quoted<const N: usize>(self, line: &mut Line<N>, text: &[u8]) {
        if (self == Row::Csv) & is_formula(text) {
            line.put(b" ");
        }
        for &byte in text {
            self.put_character(line, byte);
        }
    }

    // The end of a row that has no text.
    fn without_text(self) -> &'static [u8] {
        match self {
            Row::Csv => b",,\n",
            Row::Json => b"\"}\n",
        }
    }

    // The text of PSD, or nothing where there is none, to the end of its row.
    fn put_text<const N: usize>(self, line: &mut Line<N>, data: &[u32]) {
        let shown = psd_text::of_words(data);
        if shown.len() == 0 {
            line.put(self.without_text());
            return;
        }
        match self {
            Row::Csv => line.put(b",\""),
            Row::Json => line.put(b"\",\"text\":\""),
        }
        self.put_quoted(line, shown.bytes());
        match self {
            Row::Csv => line.put(b"\",\n"),
            Row::Json => line.put(b"\"}\n"),
        }
    }

    // The row of a packet.
    fn put_packet<const N: usize>(self, line: &mut Line<N>, pdu: u64, w: Word, data: &[u32]) {
        let numbers = [pdu, u64::from(w.high), u64::from(w.low)];
        match self {
            Row::Csv => line.fill(b"@,packet,,,,@,@,,,,,,", &numbers),
            Row::Json => line.fill(
                b"{\"pdu\":@,\"kind\":\"packet\",\"packet\":@,\"length\":@,\"crc32\":\"",
                &numbers,
            ),
        }
        put_hexadecimal(line, crc32::of_words(data));
        line.put(self.without_text());
    }

    // The row of PSD.
    fn put_psd<const N: usize>(self, line: &mut Line<N>, pdu: u64, w: Word, data: &[u32]) {
        let numbers = [pdu, u64::from(w.low)];
        match self {
            Row::Csv => line.fill(b"@,psd,,,,,@,,,,,,", &numbers),
            Row::Json => line.fill(
                b"{\"pdu\":@,\"kind\":\"psd\",\"length\":@,\"crc32\":\"",
                &numbers,
            ),
        }
        put_hexadecimal(line, crc32::of_words(data));
        self.put_text(line, data);
    }

    // The row of a note up to its cause.
    fn put_note_head<const N: usize>(self, line: &mut Line<N>, pdu: u64, w: Word) {
        let piece = u64::from(w.low);
        let note = u64::from(w.high);
        match (self, crate::is_on_piece(w.high)) {
            (Row::Csv, false) => line.fill(b"@,note,,,,,,,@,", &[pdu, note]),
            (Row::Csv, true) => line.fill(b"@,note,,,,,,@,@,", &[pdu, piece, note]),
            (Row::Json, false) => line.fill(
                b"{\"pdu\":@,\"kind\":\"note\",\"note\":@,\"cause\":\"",
                &[pdu, note],
            ),
            (Row::Json, true) => line.fill(
                b"{\"pdu\":@,\"kind\":\"note\",\"piece\":@,\"note\":@,\"cause\":\"",
                &[pdu, piece, note],
            ),
        }
    }

    // The row of a note.
    fn put_note<const N: usize>(self, line: &mut Line<N>, pdu: u64, w: Word) {
        self.put_note_head(line, pdu, w);
        line.put(causes::note(w.high));
        match self {
            Row::Csv => line.put(b",,,,,\n"),
            Row::Json => line.put(b"\"}\n"),
        }
    }

    // An entry, by its first word and its data words.
    pub fn put_entry<const N: usize>(self, line: &mut Line<N>, pdu: u64, w: Word, data: &[u32]) {
        match w.kind {
            words::PACKET => self.put_packet(line, pdu, w, data),
            words::PSD => self.put_psd(line, pdu, w, data),
            words::NOTE => self.put_note(line, pdu, w),
            _ => {}
        }
    }
}
