// What a line of the CSV says.
ghost use Rattle.std.specs.Prelude.{◌<◌};

use crate::Wrong;
use crate::fields::Fields;

// The columns, and those of an older log, which lacks the last two if it has no loss column (document 02, Ask 14).
const COLUMNS: [&[u8]; 15] = [
    b"pdu",
    b"kind",
    b"copy",
    b"corrected",
    b"refusal",
    b"packet",
    b"length",
    b"piece",
    b"note",
    b"cause",
    b"delivered",
    b"missing",
    b"crc32",
    b"text",
    b"pdus",
];

const OLDER: [&[u8]; 7] = [
    b"pdu",
    b"kind",
    b"number",
    b"length",
    b"cause",
    b"delivered",
    b"missing",
];

// The causes of notes, by their numbers (document 01, "Receiver"; document 02, Asks 5 and 10).
#[derive(Clone, Copy, Debug, PartialEq, Eq)]
pub enum Cause {
    Sequence = 1,
    WrongCrc = 2,
    NothingHeld = 3,
    NotContinued = 4,
    TooLong = 5,
    Lost = 6,
    CopiesDiffer = 7,
    Withheld = 8,
}

impl Cause {
    // The cause of a number; nothing for one that is not known.
    fn of_number(number: u32) -> Option<Cause> {
        match number {
            1 => Some(Cause::Sequence),
            2 => Some(Cause::WrongCrc),
            3 => Some(Cause::NothingHeld),
            4 => Some(Cause::NotContinued),
            5 => Some(Cause::TooLong),
            6 => Some(Cause::Lost),
            7 => Some(Cause::CopiesDiffer),
            8 => Some(Cause::Withheld),
            _ => None,
        }
    }

    // The cause of a name, which older logs have.
    fn of_name(name: &[u8]) -> Option<Cause> {
        match name {
            b"sequence" => Some(Cause::Sequence),
            b"wrong CRC" => Some(Cause::WrongCrc),
            b"nothing held" => Some(Cause::NothingHeld),
            b"not continued" => Some(Cause::NotContinued),
            b"too long" => Some(Cause::TooLong),
            b"lost" => Some(Cause::Lost),
            b"copies differ" => Some(Cause::CopiesDiffer),
            b"withheld" => Some(Cause::Withheld),
            _ => None,
        }
    }
}

// Which copy a PDU's pieces are taken from, where it came as two (document 02, Ask 5).
#[derive(Clone, Copy, Debug, PartialEq, Eq)]
pub enum Origin {
    First,
    Second,
    Both,
    Either,
}

impl Origin {
    // That of a name, as a log has it or an older one; nothing where it is none.
    fn of_name(older: bool, name: &[u8]) -> Option<Origin> {
        match (older, name) {
            (false, b"first") | (true, b"first copy") => Some(Origin::First),
            (false, b"second") | (true, b"second copy") => Some(Origin::Second),
            (false, b"both") | (true, b"both copies") => Some(Origin::Both),
            (false, b"either") | (true, b"either copy") => Some(Origin::Either),
            _ => None,
        }
    }
}

// What became of a PDU: it was received, with so many bytes of its header corrected and so many bytes long, 0 where that is not told; it was lost; or it was
// refused, by the number of a refusal.
#[derive(Clone, Copy, Debug)]
pub enum Fate {
    Received {
        corrected: u32,
        length: u32,
        origin: Option<Origin>,
    },
    Lost,
    Refused(u32),
}

// The loss column: what the receiver's record has after a PDU.
#[derive(Clone, Copy, Debug, Default)]
pub struct Loss {
    pub delivered: u32,
    pub missing: u32,
}

impl Loss {
    // How many packets were delivered or are missing.
    pub fn both(self) -> u64 {
        u64::from(self.delivered) + u64::from(self.missing)
    }
}

// A line: the first one, which names the columns, and says so whether the log has a loss column; what became of a PDU, with the loss column, if the log has
// one; what its log holds, a packet with its number and its CRC-32, 0 where that is not told, the text of PSD or a note, whose cause may not be known; or the
// last line, which says how many PDUs there are.
#[derive(Clone, Copy, Debug)]
pub enum Entry<'a> {
    Title {
        counted: bool,
    },
    Pdu {
        pdu: u32,
        fate: Fate,
        loss: Option<Loss>,
    },
    Packet {
        pdu: u32,
        number: u32,
        crc32: u32,
    },
    Psd {
        pdu: u32,
        text: &'a [u8],
    },
    Note {
        pdu: u32,
        cause: Option<Cause>,
    },
    End {
        pdus: u32,
    },
}

// The kinds of lines of PDUs, by their names.
#[derive(Clone, Copy, Debug, PartialEq, Eq)]
enum Kind {
    Received,
    Lost,
    Refused,
    Packet,
    Psd,
    Note,
}

// The fields of a line's number, of its length, of its cause or copy, and of delivered, after which missing stands.
#[derive(Clone, Copy, Debug)]
struct Layout {
    number: Option<usize>,
    length: usize,
    cause: Option<usize>,
    delivered: usize,
}

// Where every line of an older log has what.
const OLDER_LAYOUT: Layout = Layout {
    number: Some(2),
    length: 3,
    cause: Some(4),
    delivered: 5,
};

// The numbers of a line: that of its PDU, its own and its length, 0 where they may be empty and are; and the cause of a note, nothing for one that is not known.
#[derive(Clone, Copy, Debug)]
struct Numbers {
    pdu: u32,
    own: u32,
    length: u32,
    cause: Option<Cause>,
}

impl Kind {
    fn of_name(name: &[u8]) -> Option<Kind> {
        match name {
            b"received" => Some(Kind::Received),
            b"lost" => Some(Kind::Lost),
            b"refused" => Some(Kind::Refused),
            b"packet" => Some(Kind::Packet),
            b"psd" => Some(Kind::Psd),
            b"note" => Some(Kind::Note),
            _ => None,
        }
    }

    // Where a line has what.
    fn layout(self, older: bool) -> Layout {
        if older {
            return OLDER_LAYOUT;
        }
        let (number, cause) = match self {
            Kind::Received => (Some(3), Some(2)),
            Kind::Refused => (Some(4), None),
            Kind::Packet => (Some(5), None),
            Kind::Note => (Some(7), Some(8)),
            Kind::Lost | Kind::Psd => (None, None),
        };
        Layout {
            number,
            length: 6,
            cause,
            delivered: 10,
        }
    }

    // A line's own number: that of a received PDU and of a packet is there; others may be empty.
    fn own_number(self, text: &[u8]) -> Result<u32, Wrong> {
        match self {
            Kind::Received | Kind::Packet => number(text),
            _ => optional(text),
        }
    }

    // The cause of a note, by its name or its number.
    fn cause_of(self, older: bool, text: &[u8]) -> Result<Option<Cause>, Wrong> {
        match self {
            Kind::Note if older => Ok(Cause::of_name(text)),
            Kind::Note => Ok(Cause::of_number(number(text)?)),
            _ => Ok(None),
        }
    }

    fn numbers(self, fields: &Fields, older: bool) -> Result<Numbers, Wrong> {
        let layout = self.layout(older);
        let numbers = Numbers {
            pdu: number(fields.at(0))?,
            own: self.own_number(fields.at_some(layout.number))?,
            length: optional(fields.at(layout.length))?,
            cause: self.cause_of(older, fields.at_some(layout.cause))?,
        };
        if (self == Kind::Packet) & (63 < numbers.own) {
            return Err(Wrong::NoPacket);
        }
        Ok(numbers)
    }

    // The loss column, if the log has one: two numbers on a line that tells what became of a PDU, and nothing on others.
    fn loss(self, fields: &Fields, older: bool) -> Result<Option<Loss>, Wrong> {
        let at = self.layout(older).delivered;
        let delivered = fields.at(at);
        let missing = fields.at(at.wrapping_add(1));
        if matches!(self, Kind::Packet | Kind::Psd | Kind::Note) {
            return match (delivered, missing) {
                ([], []) => Ok(None),
                _ => Err(Wrong::NoCount),
            };
        }
        match (text::parse(delivered), text::parse(missing)) {
            (Some(delivered), Some(missing)) => Ok(Some(Loss { delivered, missing })),
            _ => Err(Wrong::NoCount),
        }
    }
}

fn number(text: &[u8]) -> Result<u32, Wrong> {
    text::parse(text).ok_or(Wrong::NoNumber)
}

// A number, or nothing, which counts as 0.
fn optional(text: &[u8]) -> Result<u32, Wrong> {
    if text.is_empty() {
        return Ok(0);
    }
    number(text)
}

// The number that digits to the base 16 are, modulo 2^32.
fn hexadecimal(digits: &[u8]) -> u32 {
    let mut value: u32 = 0;
    for &byte in digits {
        value = value % 0x10000000 * 16 + digit(byte);
    }
    value
}

// The value of a digit to the base 16.
fn digit(byte: u8) -> u32
    ensures { result < 16 }
{
    let low = u32::from(byte % 16);
    if byte < 64 { low } else { (low + 9) % 16 }
}

impl<'a> Entry<'a> {
    // What a line after so many others says, in a log with a loss column or without one.
    pub fn read(line: &'a [u8], others: u64, counted: bool) -> Result<Entry<'a>, Wrong> {
        if others == 0 {
            let unmarked = line.strip_prefix(b"\xef\xbb\xbf").unwrap_or(line);
            return of_title(&Fields::split(unmarked));
        }
        let fields = Fields::split(line);
        if is_end(&fields) {
            return of_end(&fields, counted);
        }
        of_pdu(&fields, counted)
    }
}

// Whether the fields are those of a line that names these columns.
fn is_named(fields: &Fields, names: &[&[u8]]) -> bool {
    fields.count == names.len()
        && names
            .iter()
            .enumerate()
            .all(|(i, name)| fields.at(i) == *name)
}

// The first line, which names the columns.
fn of_title<'a>(fields: &Fields<'a>) -> Result<Entry<'a>, Wrong> {
    let counted = is_named(fields, &COLUMNS) | is_named(fields, &OLDER);
    if counted | is_named(fields, &OLDER[..5]) {
        return Ok(Entry::Title { counted });
    }
    Err(Wrong::NoFirst)
}

// Whether a line is the last one, whether it is right or not.
fn is_end(fields: &Fields) -> bool {
    fields.at(0).is_empty() & matches!(fields.at(1), b"end")
}

// Whether a line is one of an older log: every other has something after the seventh field.
fn is_older(fields: &Fields, counted: bool) -> bool {
    !counted | (fields.count <= 7)
}

// The last line, which has the count of PDUs in its last column, or in an older log in the third, and `whole` for a cause.
fn of_end<'a>(fields: &Fields<'a>, counted: bool) -> Result<Entry<'a>, Wrong> {
    let (last, at, cause) = if is_older(fields, counted) {
        (5, 2, 4)
    } else {
        (15, 14, 9)
    };
    match text::parse(fields.at(at)) {
        Some(pdus) if (fields.count == last) & matches!(fields.at(cause), b"whole") => {
            Ok(Entry::End { pdus })
        }
        _ => Err(Wrong::NoEnd),
    }
}

// What became of a PDU, or what its log holds.
fn told<'a>(
    fields: &Fields<'a>,
    kind: Kind,
    numbers: Numbers,
    origin: Option<Origin>,
    loss: Option<Loss>,
) -> Entry<'a> {
    let pdu = numbers.pdu;
    let fate = match kind {
        Kind::Received => Fate::Received {
            corrected: numbers.own,
            length: numbers.length,
            origin,
        },
        Kind::Lost => Fate::Lost,
        Kind::Refused => Fate::Refused(numbers.own),
        Kind::Packet => {
            return Entry::Packet {
                pdu,
                number: numbers.own,
                crc32: hexadecimal(fields.at(12)),
            };
        }
        Kind::Psd => {
            return Entry::Psd {
                pdu,
                text: fields.at(13),
            };
        }
        Kind::Note => {
            return Entry::Note {
                pdu,
                cause: numbers.cause,
            };
        }
    };
    Entry::Pdu { pdu, fate, loss }
}

// A line between the first and the last.
fn of_pdu<'a>(fields: &Fields<'a>, counted: bool) -> Result<Entry<'a>, Wrong> {
    if fields.count < 2 {
        return Err(Wrong::FewFields);
    }
    if COLUMNS.len() < fields.count {
        return Err(Wrong::ManyFields);
    }
    let kind = Kind::of_name(fields.at(1)).ok_or(Wrong::NoKind)?;
    let older = is_older(fields, counted);
    let numbers = kind.numbers(fields, older)?;
    let loss = if counted {
        kind.loss(fields, older)?
    } else {
        None
    };
    let origin = Origin::of_name(older, fields.at_some(kind.layout(older).cause));
    Ok(told(fields, kind, numbers, origin, loss))
}
