// The gaps of a drive: packets that may be missing beyond what numbers tell, the longest run of PDUs that did not come, and PDUs that look as if they came
// twice or out of turn, whose packets count once; on `drive`.
//
// Packet numbers repeat after 64. So where packets are missing between two that were delivered, the numbers tell how many, but for a multiple of 64: the
// record's missing (document 02, Ask 14) has the least of the counts that fit. How many PDUs lie between the two, and how many packets end in a PDU, tells
// which of them is near.
#![tactic(auto)]

use drive::{Ends, Pdu, Totals};
use log_csv::Loss;

// Where a PDU's packets lie: after all that were delivered before, or not known to lie elsewhere; where those of the last PDU with packets lie, which came twice;
// or in a gap before some that were delivered, out of turn.
#[derive(Clone, Copy, Debug, PartialEq, Eq)]
pub enum Turn {
    InTurn,
    Twice,
    Late,
}

// Packets in PDUs that came with nothing wrong: how many such PDUs there are, and how many packets end in them.
#[derive(Clone, Copy, Debug, Default)]
pub struct Pace {
    pub pdus: u32,
    pub packets: u32,
}

// PDUs in a row that were lost or refused: the first of them, and how many.
#[derive(Clone, Copy, Debug)]
pub struct Row {
    pub from: u32,
    pub count: u32,
}

// Packets in a row that are missing, or lie before the first one delivered and so do not count: the number of the first of them, and how many.
#[derive(Clone, Copy, Debug)]
struct Hole {
    missing: bool,
    from: u32,
    count: u32,
}

// What is known since the last packet that was delivered: its number and its CRC-32, how many PDUs came without their packets, and how many notes tell of one
// packet that was not; the number of the packet that all others lie before, and a hole before it that lost PDUs do not account for.
#[derive(Clone, Copy, Debug)]
struct Since {
    last: u32,
    crc32: u32,
    absent: u32,
    untold: u32,
    front: u32,
    hole: Option<Hole>,
}

// What is known after some PDUs: since the last packet that was delivered, if there is one; the packets that are missing beyond what numbers tell, PDUs that
// look as if they came twice and out of turn, by how much the record's delivered and missing are too high for these, the pace, and PDUs in a row that were lost or
// refused, up to the last one and the longest.
#[derive(Clone, Copy, Debug, Default)]
pub struct Gaps {
    pub hidden: u64,
    pub twice: u32,
    pub late: u32,
    pub again: u64,
    pub excess: u64,
    pub pace: Pace,
    pub longest: Option<Row>,
    row: Option<Row>,
    since: Option<Since>,
}

// How far a packet's number lies after another one: numbers repeat after 64.
fn ahead(from: u32, to: u32) -> u32 {
    to.wrapping_sub(from) % 64
}

// How many packets are missing between two of these numbers, as numbers tell it.
fn told(last: u32, first: u32) -> u32 {
    ahead(last.wrapping_add(1), first)
}

// By how much the count nearest to an expected one exceeds what numbers tell: a multiple of 64.
fn beyond(told: u64, expected: u64) -> u64 {
    let over = expected.saturating_sub(told);
    let rest = over % 64;
    if rest < 32 {
        return over - rest;
    }
    (over - rest).wrapping_add(64)
}

impl Pace {
    // How many PDUs go to 1,048,576 packets; 0 where that is not known.
    fn slowness(self) -> u64 {
        let pdus = u64::from(self.pdus) * 1048576;
        pdus.checked_div(u64::from(self.packets)).unwrap_or(0)
    }

    // How many packets end in so many PDUs; 0 where that is not known.
    pub fn packets_in(self, pdus: u32) -> u64 {
        let slow = self.slowness();
        let rounded = u64::from(pdus) * 1048576 + slow / 2;
        rounded.checked_div(slow).unwrap_or(0)
    }

    // The pace with one more PDU: one that was received with no note counts.
    fn with_pdu(self, pdu: Pdu) -> Pace {
        if pdu.is_absent() | (0 < pdu.notes) {
            return self;
        }
        Pace {
            pdus: self.pdus.wrapping_add(1),
            packets: self.packets.wrapping_add(pdu.packets),
        }
    }
}

// The row of absent PDUs up to a PDU, after that up to the one before.
fn lengthened(before: Option<Row>, pdu: Pdu) -> Option<Row> {
    if !pdu.is_absent() {
        return None;
    }
    match before {
        Some(row) => Some(Row {
            count: row.count.checked_add(1)?,
            ..row
        }),
        None => Some(Row {
            from: pdu.number,
            count: 1,
        }),
    }
}

// The longer of two rows, the first where they are as long.
fn longer(a: Option<Row>, b: Option<Row>) -> Option<Row> {
    match (a, b) {
        (Some(own), Some(other)) if other.count <= own.count => a,
        (_, Some(_)) => b,
        (_, None) => a,
    }
}

impl Hole {
    // How far a PDU's last packet lies behind the first one of a hole.
    fn reach(self, ends: Ends) -> u32 {
        ahead(self.from, ends.first).wrapping_add(ahead(ends.first, ends.last))
    }

    // What of a hole lies after the packets of a PDU.
    fn after(self, ends: Ends) -> Hole {
        let end = self.reach(ends).wrapping_add(1);
        Hole {
            missing: true,
            from: self.from.wrapping_add(end),
            count: self.count.wrapping_sub(end),
        }
    }
}

impl Since {
    // What is known after the first PDU that delivered packets. The hole before them is as long as a PDU may be that is told by its numbers from one that goes on.
    fn begun(pdu: Pdu, ends: Ends) -> Since {
        Since {
            last: ends.last,
            crc32: ends.crc32,
            absent: 0,
            untold: pdu.untold_after,
            front: ends.last,
            hole: Some(Hole {
                missing: false,
                from: ends.first.wrapping_sub(24),
                count: 24,
            }),
        }
    }

    // The same after another that did, with the front and the hole before it.
    fn with_packets(self, pdu: Pdu, ends: Ends) -> Since {
        Since {
            last: ends.last,
            crc32: ends.crc32,
            absent: 0,
            untold: pdu.untold_after,
            ..self
        }
    }

    // The same after one that delivered none: it was absent or withheld, or its pieces were damaged.
    fn without_packets(self, pdu: Pdu) -> Since {
        if pdu.is_absent() | pdu.withheld {
            return Since {
                absent: self.absent.wrapping_add(1),
                ..self
            };
        }
        Since {
            untold: self.untold.wrapping_add(pdu.untold_after),
            ..self
        }
    }

    // Whether a PDU does not go on where the last packet ended: by its sequence, by packets that have no other part, or by its first packet's number.
    fn is_apart(self, pdu: Pdu, ends: Ends) -> bool {
        pdu.broken | pdu.parted | (told(self.last, ends.first) != 0)
    }

    // Where a PDU's packets lie, by what it looks like. One that came twice has a sequence that does not follow, and its last packet has the number and the CRC-32 of
    // the last one delivered. One that came out of turn does not go on where the one before ended, and lies in a hole. Before either no PDU is absent.
    fn turn_of(self, pdu: Pdu, ends: Ends) -> Turn {
        if self.absent != 0 {
            return Turn::InTurn;
        }
        if pdu.broken & (ends.last == self.last) & (ends.crc32 == self.crc32) {
            return Turn::Twice;
        }
        match self.hole {
            Some(hole) if self.is_apart(pdu, ends) & (hole.reach(ends) < hole.count) => Turn::Late,
            _ => Turn::InTurn,
        }
    }

    // How many packets should be missing before those of a PDU, by the PDUs and notes since the last one delivered.
    fn expected(self, pdu: Pdu, pace: Pace) -> u64 {
        let untold = self.untold.wrapping_add(pdu.untold_before);
        pace.packets_in(self.absent).wrapping_add(u64::from(untold))
    }

    // By how much more packets are missing before those of a PDU that is in turn than numbers tell.
    fn hidden_before(self, pdu: Pdu, ends: Ends, pace: Pace) -> u64 {
        let told = u64::from(told(self.front, ends.first));
        beyond(told, self.expected(pdu, pace))
    }

    // The hole before the packets of a PDU that is in turn: there is one where more are missing than should be, by over half of what ends in a PDU.
    fn hole_before(self, pdu: Pdu, ends: Ends, pace: Pace) -> Option<Hole> {
        let from = self.front.wrapping_add(1);
        let count = ahead(from, ends.first);
        let most = self
            .expected(pdu, pace)
            .wrapping_add(pace.packets_in(1) / 2);
        if u64::from(count) <= most {
            return None;
        }
        Some(Hole {
            missing: true,
            from,
            count,
        })
    }

    // By how much the record's missing grew too much at a PDU that is in turn: the record counts what is missing before it from the last packet delivered, which may
    // lie before others.
    fn excess(self, ends: Ends) -> u64 {
        let counted = u64::from(told(self.last, ends.first));
        counted.wrapping_sub(u64::from(told(self.front, ends.first)))
    }

    // The same at one that came out of turn: its packets were missing, or else those after it in the hole are from now on.
    fn excess_of_late(self, pdu: Pdu, ends: Ends, hole: Hole) -> u64 {
        if hole.missing {
            return u64::from(pdu.missing).wrapping_add(u64::from(pdu.packets));
        }
        let counted = u64::from(told(self.last, ends.first));
        counted.wrapping_sub(u64::from(hole.after(ends).count))
    }
}

impl Gaps {
    pub fn new() -> Gaps {
        Gaps::default()
    }

    // Where a PDU's packets lie, by what it looks like.
    pub fn turn_of(self, pdu: Pdu) -> Turn {
        match (self.since, pdu.ends()) {
            (Some(since), Some(ends)) => since.turn_of(pdu, ends),
            _ => Turn::InTurn,
        }
    }

    // How many packets are missing before those of a PDU, by the estimate.
    fn missing_before(self, pdu: Pdu, pace: Pace) -> u64 {
        let counted = u64::from(pdu.missing);
        let (Some(since), Some(ends)) = (self.since, pdu.ends()) else {
            return counted;
        };
        if since.turn_of(pdu, ends) != Turn::InTurn {
            return 0;
        }
        counted
            .wrapping_sub(since.excess(ends))
            .wrapping_add(since.hidden_before(pdu, ends, pace))
    }

    // A PDU with what is missing before its packets by the estimate, in place of what the record has.
    pub fn estimated(self, pdu: Pdu, pace: Pace) -> Pdu {
        let mut next = pdu;
        next.missing = (self.missing_before(pdu, pace) % 4294967296) as u32;
        next
    }

    // What is known after a PDU that came twice.
    fn repeated(self, pdu: Pdu) -> Gaps {
        Gaps {
            twice: self.twice.wrapping_add(1),
            again: self.again.wrapping_add(u64::from(pdu.packets)),
            excess: self.excess.wrapping_add(u64::from(pdu.missing)),
            ..self
        }
    }

    // The same after one that came out of turn, by so much too much.
    fn belated(self, excess: u64) -> Gaps {
        Gaps {
            late: self.late.wrapping_add(1),
            excess: self.excess.wrapping_add(excess),
            ..self
        }
    }

    // The same after one that is in turn, by so much too much, and so much beyond what numbers tell.
    fn onward(self, excess: u64, hidden: u64) -> Gaps {
        Gaps {
            hidden: self.hidden.wrapping_add(hidden),
            excess: self.excess.wrapping_add(excess),
            ..self
        }
    }

    // The same after a PDU that delivered packets, with those before it. What is left of a hole in which it lies is what lies after it.
    fn delivered(self, since: Since, pdu: Pdu, ends: Ends, pace: Pace) -> Gaps {
        let last = since.with_packets(pdu, ends);
        let (counted, since) = match (since.turn_of(pdu, ends), since.hole) {
            (Turn::Twice, _) => (self.repeated(pdu), last),
            (Turn::Late, Some(hole)) => (
                self.belated(since.excess_of_late(pdu, ends, hole)),
                Since {
                    hole: Some(hole.after(ends)),
                    ..last
                },
            ),
            _ => (
                self.onward(since.excess(ends), since.hidden_before(pdu, ends, pace)),
                Since {
                    front: ends.last,
                    hole: since.hole_before(pdu, ends, pace),
                    ..last
                },
            ),
        };
        Gaps {
            since: Some(since),
            ..counted
        }
    }

    fn counted(self, pdu: Pdu, pace: Pace) -> Gaps {
        match (self.since, pdu.ends()) {
            (Some(since), Some(ends)) => self.delivered(since, pdu, ends, pace),
            (Some(since), None) => Gaps {
                since: Some(since.without_packets(pdu)),
                ..self
            },
            (None, Some(ends)) => Gaps {
                since: Some(Since::begun(pdu, ends)),
                ..self
            },
            (None, None) => self,
        }
    }

    // What is known after one more PDU, where so many packets end in a PDU.
    pub fn after(self, pdu: Pdu, pace: Pace) -> Gaps {
        let row = lengthened(self.row, pdu);
        Gaps {
            pace: self.pace.with_pdu(pdu),
            longest: longer(self.longest, row),
            row,
            ..self.counted(pdu, pace)
        }
    }

    // The totals of a drive, in which packets of PDUs that came twice or out of turn count once.
    pub fn settled(self, totals: Totals) -> Totals {
        Totals {
            loss: totals.loss.map(|loss| Loss {
                delivered: without(loss.delivered, self.again),
                missing: without(loss.missing, self.excess),
            }),
            ..totals
        }
    }
}

// A count without so many that are too many in it.
fn without(count: u32, many: u64) -> u32 {
    u64::from(count).saturating_sub(many) as u32
}
