// Words of the packet log, taken apart (document 01, "Receiver"); they stand on `packet_log` alone.
#![tactic(auto)]

ghost use Rattle.std.specs.Prelude.{◌≡◌, ◌+◌, ◌*◌, ◌<◌, ◌≤◌, length, get_or};
ghost use Rattle.packet_log.specs.Log.{word as word_of};

// The kinds of words.
pub const PACKET: u32 = 0;

pub const DATA: u32 = 1;

pub const PSD: u32 = 2;

pub const NOTE: u32 = 3;

// A word's kind, and what stands in bits 29-16, the number of a packet or the cause of a note, and in bits 15-0, the length of a packet or of
// PSD or the piece of a note.
#[derive(Clone, Copy)]
pub struct Word {
    pub kind: u32,
    pub high: u32,
    pub low: u32,
}

pub fn split(word: u32) -> Word
    ensures { (word ≡ word_of result.kind result.high result.low) × (result.kind ≤ 3) × (result.high < 0x4000) × (result.low < 0x10000) }
{
    Word {
        kind: word / 0x40000000,
        high: word / 0x10000 % 0x4000,
        low: word % 0x10000,
    }
}

// Its four bytes, low byte first.
pub fn bytes_of(word: u32) -> [u8; 4]
    ensures { word ≡ get_or result 0 0 + 0x100 * (get_or result 1 0 + 0x100 * (get_or result 2 0 + 0x100 * get_or result 3 0)) }
{
    [
        (word % 0x100) as u8,
        (word / 0x100 % 0x100) as u8,
        (word / 0x10000 % 0x100) as u8,
        (word / 0x1000000) as u8,
    ]
}

// The words that were written to a log, which are its first ones.
pub fn written(log: &[u32], words: usize) -> &[u32] {
    &log[..words.min(log.len())]
}

// The place after an entry whose first word stands at a place: after the data words that follow it.
pub fn entry_end(log: &[u32], from: usize) -> usize
    requires { from < length log.now }
    ensures { (from < result) × (result ≤ length log.now) }
{
    for i in from + 1..log.len() {
        if log[i] / 0x40000000 != DATA {
            return i;
        }
    }
    log.len()
}

// Whether the word at a place of a PDU's log is note 8: the PDU is withheld (document 02, Ask 10).
fn is_withheld_at(log: &[u32], at: usize) -> bool {
    if log.len() <= at {
        return false;
    }
    let w = split(log[at]);
    (w.kind == NOTE) & (w.high == 8)
}

// How many of a PDU's pieces were looked at, by its log and by whether a beginning was held before it. Of a withheld one it is none but the piece that
// continues what was held (document 02, Ask 10); before note 8 stands note 1 or 4 where that was dropped.
pub fn looked_at(pieces: u64, held: bool, log: &[u32]) -> u64 {
    if is_withheld_at(log, 0) {
        return u64::from(held);
    }
    if is_withheld_at(log, 1) {
        return 0;
    }
    pieces
}
