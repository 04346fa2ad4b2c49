// The reception of the records of a file of PDUs: what comes of each, and a line on standard error for those that are refused; on `outcome`, `causes` and
// `host`.
#![tactic(auto)]

use host::{Host, STDERR};
use layout::ControlWord;
use outcome::Outcome;
use receiver::Receiver;
use text::Line;

// How many refused PDUs have a line each; of further ones only the first that is refused with 6 has one.
const LINES: u64 = 5;

// How many PDUs were refused before one, and how many of these with 6.
#[derive(Clone, Copy, Debug, PartialEq, Eq)]
pub struct Refused {
    pub all: u64,
    pub others: u64,
}

impl Refused {
    // Whether a PDU that is refused with a number has a line.
    fn has_line(self, number: u32) -> bool {
        (self.all < LINES) | ((number == 6) & (self.others == 0))
    }

    // Says, after as many refused PDUs as have a line each, that further ones have none.
    fn say_further(self, host: &Host) {
        if self.all == LINES {
            host.write_all(
                STDERR,
                b"barzhilup log: further refused PDUs are counted only\n",
            );
        }
    }
}

// Says that a PDU, counted from 0, is refused, and why: with 6 the mode and the stream that came, as they stand in its corrected header.
fn say_refused(host: &Host, pdu: u64, o: Outcome, came: ControlWord) {
    let mut line = Line::<192>::new();
    line.fill(
        b"barzhilup log: PDU @: refused with @: ",
        &[pdu, u64::from(o.number)],
    );
    if o.number == 6 {
        causes::put_other(&mut line, came.mode, came.stream);
    } else {
        causes::put_refused(&mut line, o.number, o.wrong);
    }
    host.write_all(STDERR, line.bytes());
}

// Says what is to be said of a PDU, counted from 0, after those that were refused.
fn report(host: &Host, pdu: u64, o: Outcome, bytes: &mut [u8], marks: &[u8], before: Refused) {
    if o.kind != outcome::REFUSED {
        return;
    }
    if before.has_line(o.number) {
        say_refused(host, pdu, o, outcome::control_of(bytes, marks));
    }
    before.say_further(host);
}

// Receives a PDU, counted from 0, with its marked places, as `outcome::of_record` does, after those that were refused; where it is refused, says so.
pub fn receive(
    host: &Host,
    receiver: Receiver,
    carry: &mut [u8],
    bytes: &mut [u8],
    marks: &[u8],
    log: &mut [u32],
    pdu: u64,
    before: Refused,
) -> Outcome {
    let o = outcome::of_record(receiver, carry, &mut *bytes, marks, log);
    report(host, pdu, o, bytes, marks, before);
    o
}

// Says that a PDU, counted from 0, of which two copies may have come, is refused, after those that were refused; this is the control word that came.
pub fn say_copies(host: &Host, pdu: u64, o: Outcome, came: ControlWord, before: Refused) {
    if before.has_line(o.number) {
        say_refused(host, pdu, o, came);
    }
    before.say_further(host);
}
