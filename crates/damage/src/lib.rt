// Damage to a PDU's header, drawn by dice; it stands on `header` alone.
#![tactic(auto)]

pub mod dice;

ghost use Rattle.std.specs.Prelude.{◌≡◌, ◌<◌, ◌≤◌, min, length, take, drop, ◌≢◌};
ghost use Rattle.header.specs.Header.{header_of, distance};
ghost use Rattle.damage.specs.Damage.{Turned, differing};

use dice::Dice;

// The header's bytes.
const HEADER: usize = 96;

// The first `count` of these places.
#[derive(Clone, Copy)]
pub struct Places {
    pub count: usize,
    pub places: [u8; 96],
}

// A header after damage: how many bytes have another value, at which places, and the dice.
#[derive(Clone, Copy)]
pub struct Damage {
    pub altered: u64,
    pub marks: Places,
    pub dice: Dice,
}

// How many bytes of a header have another value, and the dice.
#[derive(Clone, Copy)]
struct Alteration {
    altered: u64,
    dice: Dice,
}

// How many bytes are still to be altered, and the dice.
#[derive(Clone, Copy)]
struct Rest {
    left: u64,
    dice: Dice,
}

// Another value for a byte: each of the other 255 for one draw.
fn another(byte: u8, draw: u64) -> u8
    requires { draw < 255 }
    ensures { result ≢ byte }
{
    std::num::wrapping_add_u8(byte, (draw + 1) as u8)
}

// Alters the byte at a place, or passes it by: so many of the places from here on are to be altered, all as likely as each other.
fn turn(pdu: &mut [u8], place: usize, places: u64, left: u64, dice: Dice) -> Rest
    requires place_in_bounds { place < length pdu.old }
    requires left_nonzero { 0 < left }
    requires left_le_places { left ≤ places }
    ensures { Turned place places left result.left pdu.old pdu.new }
{
    let first = dice.next();
    if left <= first.below(places) {
        return Rest { left, dice: first };
    }
    let second = first.next();
    pdu[place] = another(pdu[place], second.below(255));
    Rest {
        left: left - 1,
        dice: second,
    }
}

// Alters so many bytes of the header, or all of it where it has fewer: what is altered differs from before in as many places as it says, and
// nothing after the header changes.
fn alter(pdu: &mut [u8], count: u64, dice: Dice) -> Alteration
    ensures altered_value { result.altered ≡ min count (min 96 (length pdu.old)) }
    ensures pdu_after { distance pdu.new pdu.old ≡ result.altered }
    ensures pdu_unchanged { drop 96 pdu.new ≡ drop 96 pdu.old }
{
    let places = pdu.len().min(HEADER);
    let altered = count.min(places as u64);
    let mut left = altered;
    let mut thrown = dice;
    for place in 0..places {
        if left == 0 {
            break;
        }
        let t = turn(pdu, place, (places - place) as u64, left, thrown);
        let next = t.dice;
        thrown = next;
        left = t.left;
    }
    Alteration {
        altered,
        dice: thrown,
    }
}

// The places at which two headers differ, in order.
fn differing_places(before: [u8; 96], after: [u8; 96]) -> Places
    ensures count_in_bounds { (result.count ≤ length result.places) × (result.count ≡ length (take result.count result.places)) }
    ensures places_value { take result.count result.places ≡ differing 0 before after }
{
    let mut places = [0u8; 96];
    let mut count = 0;
    for place in 0..96 {
        if before[place] != after[place] {
            places[count] = place as u8;
            count += 1;
        }
    }
    Places { count, places }
}

// Alters so many bytes of the header, or all of it where it has fewer: what is altered differs from before in as many places as it says, and
// nothing after the header changes. The marks are the places altered, in order.
pub fn damaged(pdu: &mut [u8], count: u64, dice: Dice) -> Damage
    ensures altered_value { result.altered ≡ min count (min 96 (length pdu.old)) }
    ensures pdu_after { distance pdu.new pdu.old ≡ result.altered }
    ensures pdu_unchanged { drop 96 pdu.new ≡ drop 96 pdu.old }
    ensures count_in_bounds { (result.marks.count ≤ length result.marks.places) × (result.marks.count ≡ length (take result.marks.count result.marks.places)) }
    ensures places_value { take result.marks.count result.marks.places ≡ differing 0 (header_of pdu.old) (header_of pdu.new) }
{
    let before = header::header_of(pdu);
    let done = alter(&mut *pdu, count, dice);
    let last = done.dice;
    Damage {
        altered: done.altered,
        marks: differing_places(before, header::header_of(pdu)),
        dice: last,
    }
}
