// Bursts of flipped bits in the pieces of a PDU, drawn by dice (document 02, Ask 12), on `pdu` and `damage`.
#![tactic(auto)]

ghost use Rattle.std.specs.Prelude.{◌≡◌, ◌+◌, ◌*◌, ◌<◌, ◌≤◌, length, get_or, take};
ghost use Rattle.pdu.specs.Reading.{reading_of};
ghost use Rattle.noise.specs.Noise.{down, flipped_at, flipped, Struck, Passed, Hits};

use damage::dice::Dice;
use pdu::Reading;

// How many pieces are hit, and the dice.
#[derive(Clone, Copy)]
pub struct Noise {
    pub hit: u64,
    pub dice: Dice,
}

// Flips bits of the byte at a place; none where the PDU ends before it.
fn flip_at(pdu: &mut [u8], place: usize, mask: u8)
    ensures { pdu.new ≡ flipped_at pdu.old place mask }
{
    if pdu.len() <= place {
        return;
    }
    pdu[place] = pdu[place] ^ mask;
}

// The bits of a window of eight as bits of two bytes: it begins so many bits into the first.
fn spread(offset: u64, bits: u8) -> u16
    ensures { result ≡ down offset (bits * 256) }
{
    let mut mask = u16::from(bits) * 256;
    for _ in 0..offset {
        mask = mask / 2;
    }
    mask
}

// Flips bits of a window of eight bits that begins so many bits into the byte at a place.
fn flip(pdu: &mut [u8], place: usize, offset: u64, bits: u8)
    requires { place < length pdu.old }
    ensures { pdu.new ≡ flipped pdu.old place (down offset (bits * 256)) }
{
    let mask = spread(offset, bits);
    flip_at(&mut *pdu, place, (mask / 256) as u8);
    flip_at(pdu, place + 1, (mask % 256) as u8);
}

// The first byte that may be hit of a piece that starts at a place: none of the header.
fn first_of(start: usize) -> usize
    ensures { (96 ≤ result) × (start ≤ result) × (result ≤ 96 + start) }
{
    start.max(96)
}

// Hits the bytes from a place to another: draws a window of eight bits in them, and which of its bits are flipped, one at least.
fn strike(pdu: &mut [u8], from: usize, end: usize, dice: Dice) -> Dice
    requires le_from { 96 ≤ from }
    requires from_le_end { from ≤ end }
    requires end_in_bounds { end < length pdu.old }
    requires end_bound { end ≤ 131072 }
    ensures { Struck from end pdu.old pdu.new }
{
    let second = dice.next();
    let window = dice.below((end - from) as u64 * 8 + 1);
    let bits = second.below(255) + 1;
    flip(pdu, from + (window / 8) as usize, window % 8, bits as u8);
    second.next()
}

fn missed(dice: Dice) -> Noise
    ensures { result.hit ≡ 0 }
{
    Noise { hit: 0, dice }
}

// Hits a piece, or passes it by: one with no byte behind the header is not hit. Its CRC stands at its end.
fn turn(pdu: &mut [u8], start: u16, length: u16, in_a_thousand: u64, dice: Dice) -> Noise
    ensures passed { Passed start (start + length) pdu.old pdu.new result.hit }
    ensures hit_bound { result.hit ≤ 1 }
{
    let next = dice.next();
    let end = start as usize + length as usize;
    let from = first_of(start as usize);
    if end < from {
        return missed(next);
    }
    if pdu.len() <= end {
        return missed(next);
    }
    if dice.happens(in_a_thousand) {
        let last = strike(pdu, from, end, next);
        return Noise { hit: 1, dice: last };
    }
    missed(next)
}

// An entry of a list, 0 past its end.
fn entry(list: &[u16], k: usize) -> u16
    ensures { result ≡ get_or list.now k 0 }
{
    list.get(k).copied().unwrap_or(0)
}

// Passes by or hits each of so many pieces, by their starts and lengths.
fn hit_all(
    pdu: &mut [u8],
    starts: &[u16],
    lengths: &[u16],
    pieces: u8,
    in_a_thousand: u64,
    dice: Dice,
) -> Noise
    ensures { Hits starts.now lengths.now pdu.old pieces pdu.new result.hit }
{
    let mut hit: u64 = 0;
    let mut thrown = dice;
    for k in 0..usize::from(pieces) {
        let t = turn(
            pdu,
            entry(starts, k),
            entry(lengths, k),
            in_a_thousand,
            thrown,
        );
        let next = t.dice;
        thrown = next;
        hit += t.hit;
    }
    Noise { hit, dice: thrown }
}

// Where the pieces of a PDU stand, by its corrected header; it is left as it was.
fn reading_of(pdu: &mut [u8]) -> Reading
    ensures value { result ≡ reading_of pdu.old }
    ensures pdu_unchanged { pdu.new ≡ pdu.old }
{
    let before = header::header_of(pdu);
    let r = pdu::read(&mut *pdu);
    if r.refusal != 0 {
        return r;
    }
    header::put_front(pdu, &before);
    r
}

// Hits so many pieces in a thousand: of each one hit, bits inside eight consecutive bits of the piece with its CRC byte are flipped, one at least, and none before
// byte 96. A PDU that is refused by reading has no pieces, and stays as it is.
pub fn hit_pieces(pdu: &mut [u8], in_a_thousand: u64, dice: Dice) -> Noise
    ensures hits { Hits (reading_of pdu.old).starts (reading_of pdu.old).lengths pdu.old (reading_of pdu.old).control.nop pdu.new result.hit }
    ensures pdu_unchanged { take 96 pdu.new ≡ take 96 pdu.old }
{
    let r = reading_of(&mut *pdu);
    let starts = r.starts;
    let lengths = r.lengths;
    let c = r.control;
    hit_all(pdu, &starts, &lengths, c.nop, in_a_thousand, dice)
}
