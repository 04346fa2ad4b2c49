// What comes of two copies of a PDU, a record of each of two files: two receivers heard one signal (document 02, Ask 5); on `pair`, `outcome` and `words`. An
// empty record is a copy that did not come.
#![tactic(auto)]

use correction::Correction;
use layout::ControlWord;
use outcome::Outcome;
use pdu::Reading;
use receiver::{Received, Receiver};

// Where the pieces of a PDU that is received are taken from: the first copy, the second, some from each, or either, since none is right in one copy alone.
#[derive(Clone, Copy, Debug, PartialEq, Eq)]
pub enum Source {
    First,
    Second,
    Both,
    Either,
}

impl Source {
    // The source in a word.
    pub fn word(self) -> &'static [u8] {
        match self {
            Source::First => b"first",
            Source::Second => b"second",
            Source::Both => b"both",
            Source::Either => b"either",
        }
    }
}

// How many pieces are taken from the first copy alone, from the second alone, and are alike in both.
#[derive(Clone, Copy, Debug, PartialEq, Eq)]
pub struct Pieces {
    pub first: u64,
    pub second: u64,
    pub alike: u64,
}

const NO_PIECES: Pieces = Pieces {
    first: 0,
    second: 0,
    alike: 0,
};

impl Pieces {
    // The sum of two counts of pieces.
    fn plus(self, more: Pieces) -> Pieces {
        Pieces {
            first: self.first.wrapping_add(more.first),
            second: self.second.wrapping_add(more.second),
            alike: self.alike.wrapping_add(more.alike),
        }
    }

    // Where the pieces of a PDU are taken from of which both copies can be corrected.
    fn source(self) -> Source {
        match (self.first != 0, self.second != 0) {
            (true, true) => Source::Both,
            (true, false) => Source::First,
            (false, true) => Source::Second,
            (false, false) => Source::Either,
        }
    }
}

// What comes of two copies, and where the pieces are taken from, if the PDU is received.
#[derive(Clone, Copy)]
pub struct Taken {
    pub outcome: Outcome,
    pub source: Option<Source>,
    pub pieces: Pieces,
}

// Whether a piece of so many bytes from a place on has a right CRC, by the register that it starts with. A copy that has no such piece has none that is right.
fn is_right(register: u8, pdu: &[u8], start: usize, length: usize) -> bool {
    if pdu.len().saturating_sub(start) <= length {
        return false;
    }
    let end = start + length;
    crc::crc8_from(register, &pdu[start..end]) == pdu[end]
}

// Whether a part of so many bytes from a place on has the same bytes in both copies.
fn is_alike(first: &[u8], second: &[u8], start: usize, length: usize) -> bool {
    if first.len() != second.len() || first.len() < start || first.len() - start < length {
        return false;
    }
    let end = start + length;
    diversity::same_bytes(&first[start..end], &second[start..end])
}

// Where a piece is taken from: one that is right in neither copy, or in both and differs, from none.
fn piece_of(register: u8, first: &[u8], second: &[u8], start: usize, length: usize) -> Pieces {
    let one = is_right(register, first, start, length);
    let two = is_right(register, second, start, length);
    let alike = is_alike(first, second, start, length);
    Pieces {
        first: u64::from(one & !two),
        second: u64::from(two & !one),
        alike: u64::from(one & two & alike),
    }
}

// Where the pieces are taken from that a PDU has by what was read of it, as many as were looked at.
fn pieces_of(register: u8, first: &[u8], second: &[u8], r: Reading, looked: u64) -> Pieces {
    let many = usize::from(r.control.nop).min(looked as usize);
    let mut all = NO_PIECES;
    for (&start, &length) in r.starts.iter().zip(r.lengths.iter()).take(many) {
        all = all.plus(piece_of(
            register,
            first,
            second,
            usize::from(start),
            usize::from(length),
        ));
    }
    all
}

// What is told of a PDU that was received, by what was read of its copies: one that cannot be corrected is refused there.
fn told_by(
    o: Outcome,
    looked: u64,
    first: &[u8],
    second: &[u8],
    one: Reading,
    two: Reading,
) -> Taken {
    let register = o.receiver.register;
    let (source, pieces) = if one.refusal != 0 {
        let pieces = pieces_of(register, b"", second, two, looked);
        (Source::Second, pieces)
    } else if two.refusal != 0 {
        let pieces = pieces_of(register, first, b"", one, looked);
        (Source::First, pieces)
    } else {
        let pieces = pieces_of(register, first, second, one, looked);
        (pieces.source(), pieces)
    };
    Taken {
        outcome: o,
        source: Some(source),
        pieces,
    }
}

// What is told of a PDU that was received, of which so many pieces were looked at. Its copies that can be corrected are corrected by then, and stay as they
// are.
fn told(o: Outcome, looked: u64, first: &mut [u8], second: &mut [u8]) -> Taken {
    let one = pdu::read(&mut *first);
    let two = pdu::read(&mut *second);
    told_by(o, looked, first, second, one, two)
}

// The better copy: the second where it is that, else the first.
fn better<'a>(is_second: bool, first: &'a [u8], second: &'a [u8]) -> &'a [u8] {
    if is_second { second } else { first }
}

// A pair that is refused is marked lost, so that no packet is joined across it.
fn passed_over(r: Received, length: usize, log: &mut [u32]) -> Outcome {
    let lost = r.receiver.mark_lost(log);
    Outcome {
        kind: outcome::REFUSED,
        number: r.refusal,
        wrong: r.wrong,
        length,
        words: lost.words as usize,
        receiver: lost.receiver,
    }
}

// Receives two copies as a pair. The length, and the count of corrected header bytes, are those of the better copy.
fn of_pair(
    receiver: Receiver,
    carry: &mut [u8],
    first: &mut [u8],
    second: &mut [u8],
    log: &mut [u32],
) -> Outcome {
    let is_second = diversity::choice(first, second) == 2;
    let length = better(is_second, first, second).len();
    let before = header::header_of(better(is_second, first, second));
    let r = pair::receive(receiver, carry, &mut *first, &mut *second, &mut *log);
    if r.refusal != 0 {
        return passed_over(r, length, log);
    }
    let after = header::header_of(better(is_second, first, second));
    Outcome {
        kind: outcome::RECEIVED,
        number: header::difference(&before, &after),
        wrong: 0,
        length,
        words: r.words as usize,
        receiver: r.receiver,
    }
}

// Receives what came: a copy alone as `outcome::of_record` does, or both as a pair; where none came, the PDU is lost.
fn received(
    receiver: Receiver,
    carry: &mut [u8],
    first: &mut [u8],
    second: &mut [u8],
    log: &mut [u32],
) -> Outcome {
    if second.len() == 0 {
        return outcome::of_record(receiver, carry, first, b"", log);
    }
    if first.len() == 0 {
        return outcome::of_record(receiver, carry, second, b"", log);
    }
    of_pair(receiver, carry, first, second, log)
}

// What is told of a PDU, before which a beginning was held or was not, by its log: of one that was not received no pieces.
fn told_of(o: Outcome, held: bool, first: &mut [u8], second: &mut [u8], log: &[u32]) -> Taken {
    if o.kind != outcome::RECEIVED {
        return Taken {
            outcome: o,
            source: None,
            pieces: NO_PIECES,
        };
    }
    let looked = words::looked_at(64, held, words::written(log, o.words));
    told(o, looked, first, second)
}

// Receives two copies of a PDU, and tells where its pieces are taken from.
pub fn of_copies(
    receiver: Receiver,
    carry: &mut [u8],
    first: &mut [u8],
    second: &mut [u8],
    log: &mut [u32],
) -> Taken {
    let o = received(receiver, carry, &mut *first, &mut *second, &mut *log);
    told_of(o, receiver.held != 0, first, second, log)
}

// Whether a copy can be corrected, in place, and is of another mode or stream than the receiver.
fn is_strange(receiver: Receiver, pdu: &mut [u8]) -> bool {
    match correction::correct(&mut *pdu) {
        Correction::Corrected(_) => {
            let c = layout::control_word(pdu);
            (c.mode != receiver.mode) | (c.stream != receiver.stream)
        }
        Correction::Refused(_) => false,
    }
}

// The control word that came where copies are refused with 6: that of the first if this is of another mode or stream, else that of the second. Headers are
// corrected in place.
pub fn control_of(receiver: Receiver, first: &mut [u8], second: &mut [u8]) -> ControlWord {
    if is_strange(receiver, &mut *first) {
        return layout::control_word(first);
    }
    outcome::control_of(second, b"")
}
