// The loss column (document 02, Ask 14): delivered and missing, as the receiver's record has them, and the last delivered number; on `receiver` and `words`.
#![tactic(auto)]

ghost use Rattle.std.specs.Prelude.{◌≡◌, ◌%◌, ◌≤◌, if◌then◌else◌, nat_eq};
ghost use Rattle.reassembly.specs.Tally.{gap};
ghost use Rattle.receiver.specs.Receiving.{tally_of};
ghost use Rattle.loss.specs.Column.{tally_in, with_tally, after_word, after_words};

use receiver::Receiver;

// With delivered 0 the other two are 0.
#[derive(Clone, Copy)]
pub struct Loss {
    pub delivered: u32,
    pub missing: u32,
    pub last: u8,
}

// The loss column of a record.
pub fn of_record(r: Receiver) -> Loss
    ensures { tally_in result ≡ tally_of r }
{
    Loss {
        delivered: r.delivered,
        missing: r.missing,
        last: r.last,
    }
}

// A record with another loss column.
pub fn in_record(r: Receiver, l: Loss) -> Receiver
    ensures { result ≡ with_tally r (tally_in l) }
{
    Receiver {
        delivered: l.delivered,
        missing: l.missing,
        last: l.last,
        ..r
    }
}

// What a delivered packet of a number adds to missing: its number minus the last minus 1, modulo 64, but nothing where it is the first.
fn missing_before(l: Loss, number: u8) -> u32
    ensures { (result ≡ (if nat_eq l.delivered 0 then 0 else gap (l.last % 64) (number % 64))) × (result ≤ 63) }
{
    if l.delivered == 0 {
        return 0;
    }
    (u32::from(number % 64) + 63 - u32::from(l.last % 64)) % 64
}

// The loss column after a word of a log: one that begins a packet is a delivery.
fn after_word(l: Loss, word: u32) -> Loss
    ensures { tally_in result ≡ after_word (tally_in l) word }
{
    let w = words::split(word);
    if w.kind != words::PACKET {
        return l;
    }
    let number = (w.high % 64) as u8;
    Loss {
        delivered: std::num::wrapping_add_u32(l.delivered, 1),
        missing: std::num::wrapping_add_u32(l.missing, missing_before(l, number)),
        last: number,
    }
}

// The loss column after the log of a PDU that was received with others in one call: its record is not seen. Such a call takes no PDU with which a count would pass
// 4,294,967,295.
pub fn after(start: Loss, log: &[u32]) -> Loss
    ensures { tally_in result ≡ after_words (tally_in start) log.now }
{
    let mut l = start;
    for i in 0..log.len() {
        l = after_word(l, log[i]);
    }
    l
}
