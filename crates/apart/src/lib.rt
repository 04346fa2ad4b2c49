// What each of two recordings of a drive gives alone: each file has a receiver of its own, beside that of the pair (document 02, Ask 5); on `receiver` and
// `counts`.
#![tactic(auto)]

ghost use Rattle.std.specs.Prelude.{◌≤◌};

use receiver::Receiver;

// A carry's bytes; there are three, of the pair, of the first file alone and of the second.
const CARRY: usize = 4096;

// The places of a row of counts, of which there are three too. After the counts of `counts` stands what the receiver remembers that has its file alone.
const ROW: usize = 54;

const KNOWN: usize = 48;

const SEQUENCE: usize = 49;

const HELD: usize = 50;

const NUMBER: usize = 51;

const SERVICED: usize = 52;

const SERVICES: usize = 53;

// After the three rows: how many records of each file were read, and how many pieces are taken from the first copy alone, from the second alone, and
// are alike in both.
pub const FIRST_RECORDS: usize = 162;

pub const SECOND_RECORDS: usize = 163;

pub const FROM_FIRST: usize = 164;

pub const FROM_SECOND: usize = 165;

pub const ALIKE: usize = 166;

// The files, each with a carry and a row of its own.
#[derive(Clone, Copy, Debug, PartialEq, Eq)]
pub enum File {
    First,
    Second,
}

// The receiver of a row, opened as the pair's is.
fn remembered(row: &[u64], r: Receiver) -> Receiver {
    let own = Receiver {
        known: counts::at(row, KNOWN) != 0,
        sequence: (counts::at(row, SEQUENCE) % 256) as u8,
        held: (counts::at(row, HELD) % 65536) as u16,
        number: (counts::at(row, NUMBER) % 256) as u8,
        serviced: counts::at(row, SERVICED) != 0,
        services: (counts::at(row, SERVICES) % 256) as u8,
        ..r
    };
    loss::in_record(own, counts::loss(row))
}

// Keeps in a row what a receiver remembers: the sequence, the held beginning, and the applied services in force (document 02, Ask 10).
fn remember(row: &mut [u64], r: Receiver) {
    counts::set(row, KNOWN, u64::from(r.known));
    counts::set(row, SEQUENCE, u64::from(r.sequence));
    counts::set(row, HELD, u64::from(r.held));
    counts::set(row, NUMBER, u64::from(r.number));
    counts::set(row, SERVICED, u64::from(r.serviced));
    counts::set(row, SERVICES, u64::from(r.services));
}

// What a file gives alone: its copy is received by its own receiver and counted, and is left as it came.
fn alone(receiver: Receiver, carry: &mut [u8], pdu: &mut [u8], log: &mut [u32], row: &mut [u64]) {
    let before = header::header_of(pdu);
    let own = remembered(row, receiver);
    let o = outcome::of_record(own, carry, &mut *pdu, b"", &mut *log);
    header::put_front(pdu, &before);
    counts::add_outcome(row, o);
    counts::add_log(row, words::written(log, o.words));
    remember(row, o.receiver);
}

impl File {
    // The file's number: after the pair, 0.
    fn number(self) -> usize
        ensures { result ≤ 2 }
    {
        match self {
            File::First => 1,
            File::Second => 2,
        }
    }

    // The row of a file; nothing where there is none.
    pub fn row(self, rows: &[u64]) -> &[u64] {
        let row = self.number() * ROW;
        rows.get(row..row + ROW).unwrap_or(&[])
    }

    // What a file gives alone, with its carry and its row.
    fn receive(
        self,
        receiver: Receiver,
        carries: &mut [u8],
        pdu: &mut [u8],
        log: &mut [u32],
        rows: &mut [u64],
    ) {
        let carry = self.number() * CARRY;
        let row = self.number() * ROW;
        if let Some(carry) = carries.get_mut(carry..carry + CARRY) {
            if let Some(row) = rows.get_mut(row..row + ROW) {
                alone(receiver, carry, pdu, log, row);
            }
        }
    }
}

// What each of two files gives alone.
pub fn both(
    receiver: Receiver,
    carries: &mut [u8],
    first: &mut [u8],
    second: &mut [u8],
    log: &mut [u32],
    rows: &mut [u64],
) {
    File::First.receive(receiver, carries, first, &mut *log, rows);
    File::Second.receive(receiver, carries, second, log, rows);
}
