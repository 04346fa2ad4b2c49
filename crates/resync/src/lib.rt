// The records of a file of PDUs that is read ahead: a place at which they go on is found after bytes that are no records, and the mode and the stream of the
// first PDU that can be read are known before it is received; on `ahead` and `pdu`.
#![tactic(auto)]

use ahead::Ahead;
use host::Host;
use records::Stop;

// Why there is no record at a place: what stops records, or that the buffer has no room for it.
#[derive(Clone, Copy, Debug, PartialEq, Eq)]
enum Lack {
    Stop(Stop),
    Full,
}

impl Lack {
    // The same to a reader of records.
    fn stop(self) -> Stop {
        match self {
            Lack::Stop(stop) => stop,
            Lack::Full => Stop::Long,
        }
    }
}

// The mode and the stream of a PDU that can be read.
#[derive(Clone, Copy, Debug, PartialEq, Eq)]
pub struct Pdu {
    pub mode: u8,
    pub stream: u8,
}

// What is asked of a PDU: a mode and a stream, or any.
#[derive(Clone, Copy, Debug)]
pub struct Wanted {
    pub mode: Option<u8>,
    pub stream: Option<u8>,
}

impl Wanted {
    fn fits(self, pdu: Pdu) -> bool {
        (self.mode.unwrap_or(pdu.mode) == pdu.mode)
            & (self.stream.unwrap_or(pdu.stream) == pdu.stream)
    }
}

// What came of the next reading: a record, whose bytes stand in the buffer from a place on; so many bytes that are passed over, since no record begins at them; or
// why there is none.
#[derive(Clone, Copy, Debug, PartialEq, Eq)]
pub enum Came {
    Record { from: usize, length: usize },
    Passed(u64),
    Stopped(Stop),
}

// The same, and what is read ahead after it.
#[derive(Clone, Copy, Debug)]
pub struct Next {
    pub came: Came,
    pub ahead: Ahead,
}

// A look at a place: the length of the record there, and what is read ahead after the look.
#[derive(Clone, Copy)]
struct Look {
    found: Result<usize, Lack>,
    ahead: Ahead,
}

// The same with the record's PDU, where it can be read and is wanted.
#[derive(Clone, Copy)]
struct Seen {
    found: Result<usize, Lack>,
    pdu: Option<Pdu>,
    ahead: Ahead,
}

// The place to which a search led, if it led to one, and what is read ahead after it.
#[derive(Clone, Copy)]
struct Led {
    to: Option<usize>,
    ahead: Ahead,
}

// The place after a record with its length.
fn after(at: usize, length: usize) -> usize {
    at.wrapping_add(2).wrapping_add(length)
}

// What a place lacks that what is read ahead does not reach.
fn short(a: Ahead) -> Lack {
    if a.stop.is_none() {
        return Lack::Full;
    }
    Lack::Stop(Stop::Cut)
}

// A record of so many bytes at a place, counted from the first byte that is read ahead.
fn record_at(host: &Host, a: Ahead, buf: &mut [u8], at: usize, length: usize) -> Look {
    if records::LONGEST < length {
        return Look {
            found: Err(Lack::Stop(Stop::Long)),
            ahead: a,
        };
    }
    let w = a.filled(host, buf, after(at, length));
    if w.len() < after(at, length) {
        return Look {
            found: Err(short(w)),
            ahead: w,
        };
    }
    Look {
        found: Ok(length),
        ahead: w,
    }
}

// What stands at such a place, where what is read ahead has the two bytes of a length, or all that there is.
fn look_on(host: &Host, a: Ahead, buf: &mut [u8], at: usize) -> Look {
    let size = a.len();
    if (size <= at) & a.stop.is_some() {
        return Look {
            found: Err(Lack::Stop(Stop::End)),
            ahead: a,
        };
    }
    if size < at.wrapping_add(2) {
        return Look {
            found: Err(short(a)),
            ahead: a,
        };
    }
    let length = ahead::length_at(buf, a.from.wrapping_add(at));
    record_at(host, a, buf, at, length)
}

// What stands at such a place.
fn look_at(host: &Host, a: Ahead, buf: &mut [u8], at: usize) -> Look {
    let h = a.filled(host, buf, at.wrapping_add(2));
    look_on(host, h, buf, at)
}

// What a PDU is to a reader without a receiver. It is left as it came.
fn read(pdu: &mut [u8]) -> Option<Pdu> {
    let before = header::header_of(pdu);
    let r = pdu::read(&mut *pdu);
    header::put_front(pdu, &before);
    if r.refusal != 0 {
        return None;
    }
    Some(Pdu {
        mode: r.control.mode,
        stream: r.control.stream,
    })
}

// The same of the bytes between two places of a buffer.
fn read_at(buf: &mut [u8], from: usize, to: usize) -> Option<Pdu> {
    if (buf.len() < to) | (to < from) {
        return None;
    }
    read(&mut buf[from..to])
}

// The PDU of the record at a place; one that is not wanted counts as one that cannot be read.
fn pdu_at(a: Ahead, buf: &mut [u8], at: usize, length: usize, wanted: Wanted) -> Option<Pdu> {
    let from = a.from.wrapping_add(at).wrapping_add(2);
    let pdu = read_at(buf, from, from.wrapping_add(length))?;
    if !wanted.fits(pdu) {
        return None;
    }
    Some(pdu)
}

// A look at a place, and the PDU of the record there.
fn seen_at(host: &Host, a: Ahead, buf: &mut [u8], at: usize, wanted: Wanted) -> Seen {
    let l = look_at(host, a, buf, at);
    let pdu = match l.found {
        Ok(length) => pdu_at(l.ahead, buf, at, length, wanted),
        Err(_) => None,
    };
    Seen {
        found: l.found,
        pdu,
        ahead: l.ahead,
    }
}

// Whether what stands at a place shows that records go on: a PDU that can be read, the file's end, or the buffer's.
fn goes_on(l: Seen) -> bool {
    l.pdu.is_some() | matches!(l.found, Err(Lack::Full) | Err(Lack::Stop(Stop::End)))
}

// The place to which the records from a place on lead: that of a PDU that can be read, or the file's end. As many as the buffer holds are looked at.
fn leads(host: &Host, a: Ahead, buf: &mut [u8], start: usize, wanted: Wanted) -> Led {
    let mut ahead = a;
    let mut at = start;
    for _ in 0..u64::MAX {
        let l = seen_at(host, ahead, buf, at, wanted);
        ahead = l.ahead;
        if goes_on(l) {
            break;
        }
        match l.found {
            Ok(length) => at = after(at, length),
            Err(_) => return Led { to: None, ahead },
        }
    }
    Led {
        to: Some(at),
        ahead,
    }
}

// The place to which the records after one lead, where a record begins at it whose PDU can be read.
fn begins(host: &Host, a: Ahead, buf: &mut [u8], at: usize, wanted: Wanted) -> Led {
    let l = seen_at(host, a, buf, at, wanted);
    match (l.found, l.pdu) {
        (Ok(length), Some(_)) => leads(host, l.ahead, buf, after(at, length), wanted),
        _ => Led {
            to: None,
            ahead: l.ahead,
        },
    }
}

// The record of so many bytes with which what is read ahead begins.
fn record(a: Ahead, length: usize) -> Next {
    Next {
        came: Came::Record {
            from: a.from.wrapping_add(2),
            length,
        },
        ahead: a.without(after(0, length)),
    }
}

// The bytes passed over from where one reading ahead begins to where another does.
fn passed(a: Ahead, b: Ahead) -> Next {
    Next {
        came: Came::Passed(b.offset.wrapping_sub(a.offset)),
        ahead: b,
    }
}

// Passes over bytes up to the next place at which records begin, or to the file's end.
fn search(host: &Host, a: Ahead, buf: &mut [u8], wanted: Wanted) -> Next {
    let mut ahead = a.without(1);
    for _ in 0..u64::MAX {
        let led = begins(host, ahead, buf, 0, wanted);
        ahead = led.ahead;
        if led.to.is_some() | (ahead.len() == 0) {
            break;
        }
        ahead = ahead.without(1);
    }
    passed(a, ahead)
}

// The first place before an end, after the first byte that is read ahead, at which records begin: behind a record that was cut, or is none.
fn begun_inside(host: &Host, a: Ahead, buf: &mut [u8], end: usize, wanted: Wanted) -> Led {
    let mut ahead = a;
    for at in 1..end {
        let led = begins(host, ahead, buf, at, wanted);
        ahead = led.ahead;
        if led.to.is_some() {
            return Led {
                to: Some(at),
                ahead,
            };
        }
    }
    Led { to: None, ahead }
}

// The first record, of so many bytes, where its PDU cannot be read or that of the next: where records begin before a place, it was cut or is none, and is passed
// over up to these; else it stands if it may.
fn settled(
    host: &Host,
    a: Ahead,
    buf: &mut [u8],
    length: usize,
    end: usize,
    stands: bool,
    wanted: Wanted,
) -> Next {
    let inside = begun_inside(host, a, buf, end, wanted);
    let ahead = inside.ahead;
    match inside.to {
        Some(at) => passed(ahead, ahead.without(at)),
        None if stands => record(ahead, length),
        None => search(host, ahead, buf, wanted),
    }
}

// Up to where records are looked for that begin after the first one does, of so many bytes: its end, or, where its PDU cannot be read, the place at which records
// go on after it.
fn end_of(led: Led, length: usize, right: bool) -> usize {
    match led.to {
        Some(at) if !right => at,
        _ => after(0, length),
    }
}

// The first record, of so many bytes, which is taken at once where its PDU can be read and that of the next, or the file ends after it. An empty one is a lost PDU.
fn checked(
    host: &Host,
    a: Ahead,
    buf: &mut [u8],
    length: usize,
    right: bool,
    wanted: Wanted,
) -> Next {
    if length == 0 {
        return record(a, length);
    }
    let led = leads(host, a, buf, after(0, length), wanted);
    if right & (led.to == Some(after(0, length))) {
        return record(led.ahead, length);
    }
    settled(
        host,
        led.ahead,
        buf,
        length,
        end_of(led, length, right),
        led.to.is_some() | right,
        wanted,
    )
}

// No record, and why.
fn stopped(ahead: Ahead, stop: Stop) -> Next {
    Next {
        came: Came::Stopped(stop),
        ahead,
    }
}

// The next record by a look at it and its PDU. Bytes at which no record begins are passed over.
fn by_look(host: &Host, l: Seen, buf: &mut [u8], wanted: Wanted) -> Next {
    match l.found {
        Err(Lack::Stop(Stop::End)) => stopped(l.ahead, Stop::End),
        Ok(length) => checked(host, l.ahead, buf, length, l.pdu.is_some(), wanted),
        Err(_) => search(host, l.ahead, buf, wanted),
    }
}

// What came of a reading; a read that failed stops it.
fn unless_failed(n: Next) -> Next {
    if n.ahead.stop == Some(Stop::Failed) {
        return stopped(n.ahead, Stop::Failed);
    }
    n
}

// Reads the next record.
pub fn read_next(host: &Host, a: Ahead, buf: &mut [u8]) -> Next {
    let l = look_at(host, a, buf, 0);
    match l.found {
        Ok(length) => record(l.ahead, length),
        Err(lack) => unless_failed(stopped(l.ahead, lack.stop())),
    }
}

// The same where bytes at which no record begins are passed over: how many, and then the records after them.
pub fn resync_next(host: &Host, a: Ahead, buf: &mut [u8], wanted: Wanted) -> Next {
    let l = seen_at(host, a, buf, 0, wanted);
    unless_failed(by_look(host, l, buf, wanted))
}

// The first PDU that can be read, if there is one; why there is no record at the last place that was looked at; how many records stand before it, and how many
// bytes; and what is read ahead.
#[derive(Clone, Copy, Debug)]
pub struct First {
    pub pdu: Option<Pdu>,
    pub stop: Option<Stop>,
    pub records: u64,
    pub bytes: usize,
    pub ahead: Ahead,
}

// The same of the last look at a place, after so many records.
fn first_of(l: Seen, records: u64, bytes: usize) -> First {
    let stop = match l.found {
        Err(Lack::Stop(stop)) => Some(stop),
        _ => None,
    };
    First {
        pdu: l.pdu,
        stop,
        records,
        bytes,
        ahead: l.ahead,
    }
}

// The place after a look at one; none where records stop, or where the PDU there can be read. Where `resync` is set, bytes that are no PDU that can be read are
// passed over one by one, also those that look like a record, and empty records whole.
fn onward(at: usize, l: Seen, resync: bool) -> Option<usize> {
    if l.pdu.is_some() {
        return None;
    }
    match l.found {
        Ok(length) if (length == 0) | !resync => Some(after(at, length)),
        Ok(_) | Err(Lack::Stop(Stop::Long | Stop::Cut)) if resync => Some(at.wrapping_add(1)),
        _ => None,
    }
}

// Looks for the first PDU that can be read and is wanted, as far as the buffer holds all before it.
pub fn first_readable(
    host: &Host,
    a: Ahead,
    buf: &mut [u8],
    resync: bool,
    wanted: Wanted,
) -> First {
    let mut ahead = a;
    let mut at: usize = 0;
    for count in 0..u64::MAX {
        let l = seen_at(host, ahead, buf, at, wanted);
        ahead = l.ahead;
        match onward(at, l, resync) {
            Some(next) => at = next,
            None => return first_of(l, count, at),
        }
    }
    First {
        pdu: None,
        stop: None,
        records: u64::MAX,
        bytes: at,
        ahead,
    }
}
