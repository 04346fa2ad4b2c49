// A drive, as the lines of its log tell it; it stands on `log_csv` alone.
#![tactic(auto)]

use log_csv::{Cause, Entry, Fate, Loss, Origin, Wrong};

// A PDU: its number, counted from 0, and what became of it; whether it was withheld (document 02, Ask 10), whether its sequence does not follow, whether a packet
// that was held or continued has no other part; how many notes it has, how many of its pieces have a wrong CRC, how many packets it delivered, and how many are
// missing before these: by so many the loss column grew (document 02, Ask 14); and how many notes tell of a packet that was not delivered before the first, and
// after the last, all of them where there is none.
#[derive(Clone, Copy, Debug)]
pub struct Pdu {
    pub number: u32,
    pub fate: Fate,
    pub withheld: bool,
    pub broken: bool,
    pub parted: bool,
    pub notes: u32,
    pub crcs: u32,
    pub packets: u32,
    pub missing: u32,
    pub untold_before: u32,
    pub untold_after: u32,
    ends: Ends,
}

// The numbers of a PDU's first packet and of its last, and the CRC-32 of the last.
#[derive(Clone, Copy, Debug, Default)]
pub struct Ends {
    pub first: u32,
    pub last: u32,
    pub crc32: u32,
}

// How many PDUs were received, were received with a corrected header, were withheld, were lost and were refused; how many pieces have a wrong CRC; the
// most packets that one PDU delivered; and the loss column after the last PDU, if the log has one.
#[derive(Clone, Copy, Debug, Default)]
pub struct Totals {
    pub received: u64,
    pub corrected: u64,
    pub withheld: u64,
    pub lost: u64,
    pub refused: u64,
    pub crcs: u64,
    pub most: u32,
    pub loss: Option<Loss>,
}

// How many PDUs that came as two copies are taken from the first, from the second, from both, and from either.
#[derive(Clone, Copy, Debug, Default)]
pub struct Copies {
    pub first: u64,
    pub second: u64,
    pub both: u64,
    pub either: u64,
}

// A drive so far: whether its last line is there, how many PDUs there are, the last of them, the totals, and the copies.
#[derive(Clone, Copy, Debug, Default)]
pub struct Drive {
    pub whole: bool,
    pub count: u32,
    pub totals: Totals,
    pub copies: Copies,
    pdu: Option<Pdu>,
}

// Whether a note tells that a piece has a wrong CRC, or is treated as one that has: right in both copies and different.
fn is_wrong(cause: Option<Cause>) -> bool {
    matches!(cause, Some(Cause::WrongCrc | Cause::CopiesDiffer))
}

// Whether a note tells of a packet that was not delivered.
fn is_untold(cause: Option<Cause>) -> bool {
    is_wrong(cause) | matches!(cause, Some(Cause::NothingHeld | Cause::TooLong))
}

impl Pdu {
    // One that has delivered nothing yet.
    fn new(number: u32, fate: Fate, missing: u32) -> Pdu {
        Pdu {
            number,
            fate,
            withheld: false,
            broken: false,
            parted: false,
            notes: 0,
            crcs: 0,
            packets: 0,
            missing,
            untold_before: 0,
            untold_after: 0,
            ends: Ends::default(),
        }
    }

    // Its first packet and its last; nothing where it delivered none.
    pub fn ends(self) -> Option<Ends> {
        if self.packets == 0 {
            return None;
        }
        Some(self.ends)
    }

    // Whether it is not there: it was lost or refused.
    pub fn is_absent(self) -> bool {
        matches!(self.fate, Fate::Lost | Fate::Refused(_))
    }

    // The PDU with one more packet, of a number and with a CRC-32.
    fn with_packet(self, number: u32, crc32: u32) -> Pdu {
        Pdu {
            packets: self.packets.wrapping_add(1),
            untold_after: 0,
            ends: Ends {
                first: self.ends().map_or(number, |ends| ends.first),
                last: number,
                crc32,
            },
            ..self
        }
    }

    // The PDU with one more note. One that was received is withheld by a note.
    fn with_note(self, cause: Option<Cause>) -> Pdu {
        let untold = u32::from(is_untold(cause));
        Pdu {
            withheld: self.withheld | ((cause == Some(Cause::Withheld)) & !self.is_absent()),
            broken: self.broken | (cause == Some(Cause::Sequence)),
            parted: self.parted | matches!(cause, Some(Cause::NothingHeld | Cause::NotContinued)),
            notes: self.notes.wrapping_add(1),
            crcs: self.crcs.wrapping_add(u32::from(is_wrong(cause))),
            untold_before: match self.packets {
                0 => self.untold_before.wrapping_add(untold),
                _ => self.untold_before,
            },
            untold_after: self.untold_after.wrapping_add(untold),
            ..self
        }
    }
}

impl Totals {
    // The totals with one more PDU, and the loss column after it.
    fn with_fate(self, fate: Fate, loss: Option<Loss>) -> Totals {
        let totals = Totals { loss, ..self };
        match fate {
            Fate::Received { corrected, .. } => Totals {
                received: self.received.wrapping_add(1),
                corrected: self.corrected.wrapping_add(u64::from(corrected != 0)),
                ..totals
            },
            Fate::Lost => Totals {
                lost: self.lost.wrapping_add(1),
                ..totals
            },
            Fate::Refused(_) => Totals {
                refused: self.refused.wrapping_add(1),
                ..totals
            },
        }
    }
}

impl Copies {
    // The copies with that of one more PDU.
    fn with_origin(self, origin: Option<Origin>) -> Copies {
        match origin {
            Some(Origin::First) => Copies {
                first: self.first.wrapping_add(1),
                ..self
            },
            Some(Origin::Second) => Copies {
                second: self.second.wrapping_add(1),
                ..self
            },
            Some(Origin::Both) => Copies {
                both: self.both.wrapping_add(1),
                ..self
            },
            Some(Origin::Either) => Copies {
                either: self.either.wrapping_add(1),
                ..self
            },
            None => self,
        }
    }

    // Whether PDUs came as two copies.
    pub fn is_any(self) -> bool {
        (self.first != 0) | (self.second != 0) | (self.both != 0) | (self.either != 0)
    }
}

// By how much missing grew from a PDU to the next; nothing where delivered or missing fell: no count of a receiver does.
fn growth(before: Loss, after: Loss) -> Option<u32> {
    if after.delivered < before.delivered {
        return None;
    }
    after.missing.checked_sub(before.missing)
}

impl Drive {
    pub fn new() -> Drive {
        Drive::default()
    }

    // Whether the log has a loss column.
    pub fn is_counted(self) -> bool {
        self.totals.loss.is_some()
    }

    // The last PDU so far.
    fn current(self) -> Option<Pdu> {
        if self.count == 0 {
            return None;
        }
        self.pdu
    }

    // The same, if it has the number that a line has: what is told besides what became of PDUs belongs to the last one.
    fn current_of(self, number: u32) -> Result<Pdu, Wrong> {
        match self.current() {
            Some(pdu) if pdu.number == number => Ok(pdu),
            _ => Err(Wrong::OutOfOrder),
        }
    }

    // The drive with one more line, or what is wrong with that after the others.
    pub fn with(self, entry: Entry) -> Result<Drive, Wrong> {
        if self.whole {
            return Err(Wrong::AfterEnd);
        }
        match entry {
            Entry::Title { counted } => Ok(self.titled(counted)),
            Entry::Pdu { pdu, fate, loss } => self.with_pdu(pdu, fate, loss),
            Entry::Packet { pdu, number, crc32 } => self.with_packet(pdu, number, crc32),
            Entry::Psd { pdu, .. } => self.current_of(pdu).map(|_| self),
            Entry::Note { pdu, cause } => self.with_note(pdu, cause),
            Entry::End { pdus } => self.ended(pdus),
        }
    }

    // The drive with its first line.
    fn titled(self, counted: bool) -> Drive {
        Drive {
            totals: Totals {
                loss: counted.then_some(Loss::default()),
                ..self.totals
            },
            ..self
        }
    }

    // The drive with one more PDU: they are counted from 0.
    fn with_pdu(self, number: u32, fate: Fate, loss: Option<Loss>) -> Result<Drive, Wrong> {
        if number != self.count {
            return Err(Wrong::OutOfOrder);
        }
        let missing = match (self.totals.loss, loss) {
            (Some(before), Some(after)) => growth(before, after).ok_or(Wrong::Falling)?,
            _ => 0,
        };
        let copies = match fate {
            Fate::Received { origin, .. } => self.copies.with_origin(origin),
            Fate::Lost | Fate::Refused(_) => self.copies,
        };
        Ok(Drive {
            whole: false,
            count: self.count.wrapping_add(1),
            totals: self.totals.with_fate(fate, loss),
            copies,
            pdu: Some(Pdu::new(number, fate, missing)),
        })
    }

    // The drive with one more packet of its last PDU.
    fn with_packet(self, pdu: u32, number: u32, crc32: u32) -> Result<Drive, Wrong> {
        let after = self.current_of(pdu)?.with_packet(number, crc32);
        Ok(Drive {
            totals: Totals {
                most: self.totals.most.max(after.packets),
                ..self.totals
            },
            pdu: Some(after),
            ..self
        })
    }

    // The drive with one more note of its last PDU: one for a wrong CRC is counted, and so is one for a withheld PDU, once for each that was received.
    fn with_note(self, pdu: u32, cause: Option<Cause>) -> Result<Drive, Wrong> {
        let before = self.current_of(pdu)?;
        let after = before.with_note(cause);
        let totals = self.totals;
        let wrong = u64::from(is_wrong(cause));
        let withheld = u64::from(after.withheld & !before.withheld);
        Ok(Drive {
            totals: Totals {
                crcs: totals.crcs.wrapping_add(wrong),
                withheld: totals.withheld.wrapping_add(withheld),
                ..totals
            },
            pdu: Some(after),
            ..self
        })
    }

    // The drive with its last line, which has the count of PDUs.
    fn ended(self, pdus: u32) -> Result<Drive, Wrong> {
        if pdus != self.count {
            return Err(Wrong::NotTheCount);
        }
        Ok(Drive {
            whole: true,
            ..self
        })
    }

    // How many packets are missing before those of the last PDU. Of a receiver that had delivered packets before a log's first PDU the log does not tell how many
    // were missing by then.
    fn missing_before(self, pdu: Pdu) -> u32 {
        match self.totals.loss {
            Some(loss) if (self.count == 1) & (loss.delivered != pdu.packets) => 0,
            _ => pdu.missing,
        }
    }

    // The last PDU, all of whose lines are taken.
    pub fn last(self) -> Option<Pdu> {
        let pdu = self.current()?;
        Some(Pdu {
            missing: self.missing_before(pdu),
            ..pdu
        })
    }
}
