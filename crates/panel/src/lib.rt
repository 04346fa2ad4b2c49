// For the panel (document 01, "After that, for the panel"): the list of a PDU's pieces, and the receiver stepped in place; on `writer` and `receiver`.
#![tactic(auto)]

ghost use Rattle.std.specs.Prelude.{◌≡◌, List, [], ◌++◌, ℕ, ◌+◌, ◌<◌, ◌≤◌, length, get_or, take, drop};
ghost use Rattle.layout.specs.Control.{control_at};
ghost use Rattle.pdu.specs.Reading.{accepted, judged, width_of};
ghost use Rattle.panel.specs.declared.Piece.{Piece};
ghost use Rattle.receiver.specs.Receiving.{receive_answer, carry_after, pdu_after, log_after, lost_answer, log_after_lost};
ghost use Rattle.panel.specs.Panel.{list_reading, listed_pdu, entry_at, entries_from, list_after, stepped_of};

use layout::ControlWord;
use pdu::Reading;
use receiver::Receiver;

// A piece of a PDU: its place and its length without its CRC byte, and whether its CRC is right.
#[repr(C)]
#[derive(Clone, Copy)]
pub struct Piece {
    pub start: u16,
    pub length: u16,
    pub right: bool,
}

// The answer of a receiver that was stepped in place: the refusal number, 0 where there is none, with the smallest k whose locator is wrong where
// it is 11, and the count of log words written.
#[repr(C)]
#[derive(Clone, Copy)]
pub struct Stepped {
    pub refusal: u32,
    pub wrong: u32,
    pub words: u32,
}

// What a lent list is to hold: a reading, and its pieces at the front of an array, as many as the count.
#[derive(Clone, Copy)]
struct Told {
    reading: Reading,
    count: usize,
    pieces: [Piece; 64],
}

// Reads a PDU without a receiver, for a list of so many entries: refused also with 13, for a list under NOP entries, and then its header is put
// back. The NOP of a refused reading is 0.
fn read_for(pdu: &mut [u8], room: usize) -> Reading
    ensures value { result ≡ list_reading pdu.old room }
    ensures pdu_after { pdu.new ≡ listed_pdu pdu.old room }
{
    let before = header::header_of(pdu);
    let r = pdu::read(&mut *pdu);
    let c = r.control;
    if room < c.nop as usize {
        header::put_front(pdu, &before);
        return pdu::refused_reading(13, 0);
    }
    r
}

// Piece k of a corrected PDU that was accepted with this reading, its verdict by the register that the CRC starts with.
fn piece_at(register: u8, y: &[u8], r: Reading, k: usize) -> Piece
    requires y_value { (judged y.now ≡ 0) × (r ≡ accepted (width_of y.now) (control_at y.now) y.now) }
    requires k_bound { k < (control_at y.now).nop }
    ensures { result ≡ entry_at register y.now k }
{
    let start = r.starts[k];
    let length = r.lengths[k];
    let a = start as usize;
    let e = a + length as usize;
    let crc = crc::crc8_from(register, &y[a..e]);
    Piece {
        start: start,
        length: length,
        right: crc == y[e],
    }
}

// The pieces of a corrected PDU that was accepted with this reading, or none.
fn pieces_of(register: u8, y: &[u8], r: Reading, nop: usize) -> [Piece; 64]
    requires { (0 < nop) → (judged y.now ≡ 0) × (r ≡ accepted (width_of y.now) (control_at y.now) y.now) × (nop ≡ (control_at y.now).nop) }
    ensures { take nop result ≡ entries_from register y.now 0 nop }
{
    let none = Piece {
        start: 0,
        length: 0,
        right: false,
    };
    let mut pieces = [none; 64];
    for k in 0..nop {
        pieces[k] = piece_at(register, y, r, k);
    }
    pieces
}

// Reads a PDU for a list of so many entries, with what the list is to hold.
fn read_pieces(pdu: &mut [u8], register: u8, room: usize) -> Told
    ensures { (result.reading ≡ list_reading pdu.old room) × (pdu.new ≡ listed_pdu pdu.old room) × (result.count ≤ room) × (result.count ≤ length result.pieces) × ((l : List Piece) → length l ≡ room → take result.count result.pieces ++ drop result.count l ≡ list_after register l pdu.old) }
{
    let r = read_for(&mut *pdu, room);
    let c = r.control;
    let nop = c.nop as usize;
    let pieces = pieces_of(register, pdu, r, nop);
    Told {
        reading: r,
        count: nop,
        pieces: pieces,
    }
}

// Fills the first n entries of a lent list.
fn fill(list: &mut [Piece], pieces: &[Piece], n: usize)
    requires { (n ≤ length list.old) × (n ≤ length pieces.now) }
    ensures { list.new ≡ take n pieces.now ++ drop n list.old }
{
    list[..n].copy_from_slice(&pieces[..n]);
}

// Fills a lent list with a PDU's pieces, their verdicts by the register that CRCs start with, any byte, and reads the PDU without a receiver: refused
// with 3 to 5, 7 to 12, or 13 for a list under NOP entries, and then nothing is changed.
#[unsafe(no_mangle)]
pub extern "C" fn barzhilup_list_pieces(pdu: &mut [u8], register: u8, list: &mut [Piece]) -> Reading
    ensures value { result ≡ list_reading pdu.old (length list.old) }
    ensures pdu_after { pdu.new ≡ listed_pdu pdu.old (length list.old) }
    ensures list_after { list.new ≡ list_after register list.old pdu.old }
{
    let told = read_pieces(pdu, register, list.len());
    fill(list, &told.pieces, told.count);
    told.reading
}

// Marks a PDU lost with a receiver that is stepped in place: as `Receiver::mark_lost`, with the next receiver stored where this one stood.
#[unsafe(no_mangle)]
pub extern "C" fn barzhilup_mark_lost_in_place(receiver: &mut Receiver, log: &mut [u32]) -> Stepped
    ensures value { result ≡ stepped_of (lost_answer log.old receiver.old) }
    ensures receiver_after { receiver.new ≡ (lost_answer log.old receiver.old).receiver }
    ensures log_after { log.new ≡ log_after_lost log.old receiver.old }
{
    let a = receiver.mark_lost(log);
    *receiver = a.receiver;
    Stepped {
        refusal: a.refusal,
        wrong: a.wrong,
        words: a.words,
    }
}

// Receives a PDU with a receiver that is stepped in place: as `Receiver::receive`, with the next receiver stored where this one stood.
#[unsafe(no_mangle)]
pub extern "C" fn barzhilup_receive_in_place(
    receiver: &mut Receiver,
    carry: &mut [u8],
    pdu: &mut [u8],
    log: &mut [u32],
) -> Stepped
    ensures value { result ≡ stepped_of (receive_answer [] carry.old pdu.old log.old receiver.old) }
    ensures receiver_after { receiver.new ≡ (receive_answer [] carry.old pdu.old log.old receiver.old).receiver }
    ensures carry_after { carry.new ≡ carry_after [] carry.old pdu.old log.old receiver.old }
    ensures pdu_after { pdu.new ≡ pdu_after [] carry.old pdu.old log.old receiver.old }
    ensures log_after { log.new ≡ log_after [] carry.old pdu.old log.old receiver.old }
{
    let a = receiver.receive(carry, pdu, log);
    *receiver = a.receiver;
    Stepped {
        refusal: a.refusal,
        wrong: a.wrong,
        words: a.words,
    }
}
