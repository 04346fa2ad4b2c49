// The packet log as text for people: a line for each PDU, and an indented one for each entry of its log.
use copies::Source;
use outcome::Outcome;
use text::Line;
use words::Word;

// The line of a PDU that is received, up to where its pieces are taken from.
fn received(corrected: u32) -> &'static [u8] {
    if corrected == 1 {
        b"PDU @: received, @ header byte corrected"
    } else {
        b"PDU @: received, @ header bytes corrected"
    }
}

// The end of a PDU's line, with the source of the pieces of one that came as two copies.
fn end(source: Option<Source>) -> &'static [u8] {
    match source {
        None => b"\n",
        Some(Source::First) => b", from the first copy\n",
        Some(Source::Second) => b", from the second copy\n",
        Some(Source::Both) => b", from both copies\n",
        Some(Source::Either) => b", from either copy\n",
    }
}

// What came of a PDU, counted from 0.
pub fn put_pdu<const N: usize>(line: &mut Line<N>, pdu: u64, o: Outcome, source: Option<Source>) {
    let numbers = [pdu, u64::from(o.number)];
    match o.kind {
        outcome::LOST => line.fill(b"PDU @: lost\n", &numbers),
        outcome::REFUSED => {
            line.fill(b"PDU @: refused with @: ", &numbers);
            causes::put_refused(line, o.number, o.wrong);
        }
        _ => {
            line.fill(received(o.number), &numbers);
            line.put(end(source));
        }
    }
}

// The end of the line of an entry of so many bytes.
fn bytes(length: u32) -> &'static [u8] {
    if length == 1 { b" byte\n" } else { b" bytes\n" }
}

// The cause of a note at the end of a line, with the piece that it is on.
fn put_cause<const N: usize>(line: &mut Line<N>, cause: u32, piece: u32) {
    line.put(causes::note(cause));
    if crate::is_on_piece(cause) {
        line.fill(b", piece @", &[u64::from(piece)]);
    }
    line.put(b"\n");
}

// An entry, by its first word; nothing for a data word.
pub fn put_entry<const N: usize>(line: &mut Line<N>, w: Word) {
    let high = u64::from(w.high);
    let low = u64::from(w.low);
    match w.kind {
        words::PACKET => {
            line.fill(b"  packet @, @", &[high, low]);
            line.put(bytes(w.low));
        }
        words::PSD => {
            line.fill(b"  PSD, @", &[low]);
            line.put(bytes(w.low));
        }
        words::NOTE => {
            line.put(b"  note: ");
            put_cause(line, w.high, w.low);
        }
        _ => {}
    }
}
