// What a road does to the order and the length of records, drawn by dice: some PDUs come twice, some after the next record, and some are cut; on `damage` and
// `records`.
#![tactic(auto)]

use damage::dice;
use damage::dice::Dice;
use host::{Fd, Host};
use text::Line;

// How many PDUs in a thousand come twice, change places with the next record, and are cut.
#[derive(Clone, Copy)]
pub struct Rates {
    pub twice: u64,
    pub swap: u64,
    pub cut: u64,
}

// A PDU, empty where it is lost, and the places of its altered bytes.
#[derive(Clone, Copy)]
pub struct Record<'a> {
    pub pdu: &'a [u8],
    pub marks: &'a [u8],
}

// What of a record is not written: the PDU, or its marks.
#[derive(Clone, Copy, Debug, PartialEq, Eq)]
pub enum Unwritten {
    Pdu,
    Marks,
}

// Where records go: PDUs, and their marks, if these are asked for.
#[derive(Clone, Copy)]
pub struct Outlet {
    pub pdus: Fd,
    pub marks: Option<Fd>,
}

impl Outlet {
    fn write_once(self, host: &Host, record: Record<'_>) -> Result<(), Unwritten> {
        if !records::write(host, self.pdus, record.pdu) {
            return Err(Unwritten::Pdu);
        }
        if let Some(fd) = self.marks {
            if !records::write(host, fd, record.marks) {
                return Err(Unwritten::Marks);
            }
        }
        Ok(())
    }

    // Writes a record once or twice.
    fn write(self, host: &Host, record: Record<'_>, twice: bool) -> Result<(), Unwritten> {
        self.write_once(host, record)?;
        if twice {
            self.write_once(host, record)?;
        }
        Ok(())
    }
}

// Room for the bytes of a record that is held back: those of the PDU, and its marks.
pub type Room = Line<65632>;

// A record that is held back: whether it is to be written twice, and how many bytes the PDU has.
#[derive(Clone, Copy)]
pub struct Held {
    twice: bool,
    length: usize,
}

impl Held {
    // The record, of its bytes.
    fn record(self, bytes: &[u8]) -> Record<'_> {
        let (pdu, marks) = bytes.split_at(self.length.min(bytes.len()));
        Record { pdu, marks }
    }
}

// A road so far: its dice; the record that is held back, if one is; and how many PDUs came twice, changed places and were cut.
#[derive(Clone, Copy)]
pub struct Road {
    dice: Dice,
    held: Option<Held>,
    pub twice: u64,
    pub swapped: u64,
    pub cut: u64,
}

// What becomes of a PDU: whether it comes twice, whether it is held back, whether it is cut and how many bytes are left of it, and the dice.
#[derive(Clone, Copy)]
struct Fate {
    twice: bool,
    swap: bool,
    cut: bool,
    length: usize,
    dice: Dice,
}

// The road of a seed. Its dice are others than those of losses, headers and bursts, so what these do is the same with a road or without.
pub fn begin(seed: u32) -> Road {
    Road {
        dice: dice::seeded(seed ^ 1431655765),
        held: None,
        twice: 0,
        swapped: 0,
        cut: 0,
    }
}

// How many bytes are left of so many: all, or of those that are cut at least one, and fewer than there are.
fn left(length: usize, cut: bool, draw: Dice) -> usize {
    if !cut || length < 2 {
        return length;
    }
    draw.below((length - 1) as u64) as usize + 1
}

// Draws a PDU's fate: four draws for each record, also where not all of them count. A PDU marked lost stays as it is, and one of one byte is not cut.
fn fate_of(rates: Rates, length: usize, dice: Dice) -> Fate {
    let first = dice.next();
    let second = first.next();
    let third = second.next();
    let fourth = third.next();
    let cut = third.happens(rates.cut) & (1 < length);
    Fate {
        twice: first.happens(rates.twice) & (0 < length),
        swap: second.happens(rates.swap) & (0 < length),
        cut,
        length: left(length, cut, fourth),
        dice: fourth,
    }
}

impl Road {
    // The road with a PDU of this fate, and the record that is held back after it.
    fn with(self, fate: Fate, held: Option<Held>) -> Road {
        Road {
            dice: fate.dice,
            held,
            twice: self.twice.wrapping_add(u64::from(fate.twice)),
            swapped: self.swapped.wrapping_add(u64::from(self.held.is_some())),
            cut: self.cut.wrapping_add(u64::from(fate.cut)),
        }
    }

    // Writes the record that is held back, if one is.
    pub fn release(self, host: &Host, outlet: Outlet, room: &Room) -> Result<(), Unwritten> {
        match self.held {
            Some(held) => outlet.write(host, held.record(room.bytes()), held.twice),
            None => Ok(()),
        }
    }

    // Holds a record back, until the next one is written.
    fn hold(self, record: Record<'_>, room: &mut Room, fate: Fate) -> Road {
        room.clear();
        room.put(record.pdu);
        room.put(record.marks);
        let held = Held {
            twice: fate.twice,
            length: record.pdu.len(),
        };
        self.with(fate, Some(held))
    }

    // The road after a record, whose PDU is empty where it is lost: it is held back, or written, and after it the one that is held back.
    pub fn pass(
        self,
        host: &Host,
        outlet: Outlet,
        rates: Rates,
        record: Record<'_>,
        room: &mut Room,
    ) -> Result<Road, Unwritten> {
        let fate = fate_of(rates, record.pdu.len(), self.dice);
        let rest = Record {
            pdu: &record.pdu[..fate.length.min(record.pdu.len())],
            marks: record.marks,
        };
        if fate.swap & self.held.is_none() {
            return Ok(self.hold(rest, room, fate));
        }
        outlet.write(host, rest, fate.twice)?;
        self.release(host, outlet, room)?;
        Ok(self.with(fate, None))
    }
}
