// Two receivers on one signal: the better copy of a PDU, and two copies that are alike received as one (document 02, Ask 5); on `receiver`.
#![tactic(auto)]

ghost use Rattle.std.specs.Prelude.{◌≡◌, false, ◌+◌, ◌≤◌, ◌<◌, length, get_or};
ghost use Rattle.refusal.specs.Refusal.{first_of};
ghost use Rattle.correction.specs.Correction.{correction_of};
ghost use Rattle.layout.specs.Control.{control_at};
ghost use Rattle.pdu.specs.Reading.{reader_tests};
ghost use Rattle.reassembly.specs.Run.{place_at, piece_at, Marked, Parsed};
ghost use Rattle.receiver.specs.Steps.{cause_at, CausesOf, come_of, Usable, Takes};
ghost use Rattle.packet_log.specs.Log.{same_list};
ghost use Rattle.diversity.specs.Diversity.{better, choice_of, choice_number, Chosen, pair_come, differ};
ghost use Rattle.diversity.specs.Steps.{pair_cause_at, PairCausesOf, mixed, in_places, piece_to, exchanged};

use correction::Correction;
use modes::Mode;
use reassembly::Head;
use receiver::{Received, Receiver};

// What correction of a PDU answers; the PDU itself is not changed.
fn count(pdu: &[u8]) -> Correction
    ensures { result ≡ correction_of pdu.now }
{
    if pdu.len() < 96 {
        return Correction::Refused(3);
    }
    if 20480 < pdu.len() {
        return Correction::Refused(3);
    }
    let mut header = header::header_of(pdu);
    correction::correct(&mut header)
}

// Which of two copies is the better one, of which so many bytes were corrected or that can't be corrected: 1 the first, 2 the second, 0 neither.
fn better_of(first: Correction, second: Correction) -> u32
    ensures { result ≡ choice_number (better first second) }
{
    match first {
        Correction::Corrected(m) => match second {
            Correction::Corrected(n) => {
                if m <= n {
                    return 1;
                }
                2
            }
            Correction::Refused(_) => 1,
        },
        Correction::Refused(_) => match second {
            Correction::Corrected(_) => 2,
            Correction::Refused(_) => 0,
        },
    }
}

// Which of two PDUs is the better copy: 1 the first, 2 the second, 0 where neither can be corrected. Nothing is refused or changed.
pub fn choice(first: &[u8], second: &[u8]) -> u32
    ensures { result ≡ choice_number (choice_of first.now second.now) }
{
    let a = count(first);
    let b = count(second);
    better_of(a, b)
}

// The better copy of two PDUs: the one with fewer corrected bytes, the first if equal, the other where one can't be corrected, an empty part of the first
// where neither can. It is the lent buffer itself, and nothing is refused or changed.
pub fn choose<'a>(first: &'a [u8], second: &'a [u8]) -> &'a [u8]
    ensures { Chosen (choice_of first.now second.now) first.entry second.entry result }
{
    let n = choice(first, second);
    if n == 1 {
        return first;
    }
    if n == 2 {
        return second;
    }
    &first[..0]
}

// Whether two lists of bytes are the same.
pub fn same_bytes(a: &[u8], b: &[u8]) -> bool
    ensures { result ≡ same_list a.now b.now }
{
    if a.len() != b.len() {
        return false;
    }
    let mut same = true;
    for (i, x) in a.iter().enumerate() {
        same = same & (*x == b[i]);
    }
    same
}

// Whether piece k has the same bytes in both PDUs.
fn same_piece(first: &[u8], second: &[u8], marks: [u16; 64], k: usize) -> bool
    requires k_bound { (k < 63) × (place_at marks k < get_or marks (k + 1) 0) }
    requires k_in_bounds { (get_or marks (k + 1) 0 < length first.now) × (get_or marks (k + 1) 0 < length second.now) }
    ensures { result ≡ same_list (piece_at first.now marks k) (piece_at second.now marks k) }
{
    let a = usize::from(marks[k]) + 1;
    let e = usize::from(marks[k + 1]);
    same_bytes(&first[a..e], &second[a..e])
}

// Piece k's cause in a pair, where this is its cause in the first: 0 where it is taken, 2 where both CRCs are wrong, 7 where both are right and the bytes
// differ. Where the bytes are the same, the second's CRC is not looked at.
fn pair_cause(
    register: u8,
    first: &[u8],
    second: &[u8],
    marks: [u16; 64],
    k: usize,
    cause: u8,
) -> u8
    requires k_bound { (k < 63) × (place_at marks k < get_or marks (k + 1) 0) }
    requires k_in_bounds { (get_or marks (k + 1) 0 < length first.now) × (get_or marks (k + 1) 0 < length second.now) }
    requires cause_value { cause ≡ cause_at register first.now marks k }
    ensures { result ≡ pair_cause_at register first.now second.now marks k }
{
    if cause != 0 {
        return receiver::cause_at(register, second, marks, k);
    }
    if same_piece(first, second, marks, k) {
        return 0;
    }
    if receiver::cause_at(register, second, marks, k) != 0 {
        return 0;
    }
    7
}

// Each piece's cause in a pair; those in the first are given.
fn pair_causes(
    register: u8,
    first: &[u8],
    second: &[u8],
    marks: [u16; 64],
    nop: usize,
    causes: [u8; 64],
) -> [u8; 64]
    requires marked { Marked first.now marks nop × Marked second.now marks nop }
    requires causes_of { CausesOf register first.now marks nop causes }
    ensures { PairCausesOf register first.now second.now marks nop result }
{
    let mut both = [0u8; 64];
    for k in 0..nop {
        both[k] = pair_cause(register, first, second, marks, k, causes[k]);
    }
    both
}

// Exchanges the bytes of two PDUs from a place up to another.
fn exchange(first: &mut [u8], second: &mut [u8], from: usize, to: usize)
    requires { (from ≤ to) × (to ≤ length first.old) × (length first.old ≡ length second.old) }
    ensures first_after { first.new ≡ mixed (in_places from to) first.old second.old }
    ensures second_after { second.new ≡ mixed (in_places from to) second.old first.old }
{
    for i in from..to {
        let b = first[i];
        first[i] = second[i];
        second[i] = b;
    }
}

// Exchanges piece k of two PDUs, unless its cause is 0.
fn exchange_piece(first: &mut [u8], second: &mut [u8], marks: [u16; 64], k: usize, cause: u8)
    requires k_bound { (k < 63) × (place_at marks k < get_or marks (k + 1) 0) }
    requires k_in_bounds { (get_or marks (k + 1) 0 < length first.old) × (length first.old ≡ length second.old) }
    ensures first_after { first.new ≡ mixed (piece_to marks cause k) first.old second.old }
    ensures second_after { second.new ≡ mixed (piece_to marks cause k) second.old first.old }
{
    if cause == 0 {
        return;
    }
    let a = usize::from(marks[k]) + 1;
    let e = usize::from(marks[k + 1]);
    exchange(first, second, a, e)
}

// Exchanges the pieces of two PDUs whose causes are not 0.
fn exchange_pieces(
    first: &mut [u8],
    second: &mut [u8],
    marks: [u16; 64],
    nop: usize,
    causes: [u8; 64],
)
    requires { Marked first.old marks nop × (length first.old ≡ length second.old) }
    ensures first_after { first.new ≡ mixed (exchanged marks causes nop) first.old second.old }
    ensures second_after { second.new ≡ mixed (exchanged marks causes nop) second.old first.old }
{
    for k in 0..nop {
        exchange_piece(&mut *first, &mut *second, marks, k, causes[k]);
    }
}

// Receives the first of two PDUs of one length with the pieces of the second where causes are not 0, by its marks and what both causes are together, or
// refuses with 13 or 27. Such pieces are exchanged, and back again.
fn receive_exchanged(
    r: Receiver,
    range: u8,
    head: Head,
    marks: [u16; 64],
    causes: [u8; 64],
    both: [u8; 64],
    carry: &mut [u8],
    first: &mut [u8],
    second: &mut [u8],
    log: &mut [u32],
) -> Received
    requires usable { Usable r carry.old }
    requires parsed { Parsed head first.old marks × (length first.old ≡ length second.old) }
    ensures takes { Takes range (come_of head marks both (mixed (exchanged marks causes head.nop) first.old second.old)) r carry.old log.old result carry.new log.new }
    ensures first_unchanged { (first.new ≡ first.old) × (second.new ≡ second.old) }
{
    let nop = head.nop;
    exchange_pieces(&mut *first, &mut *second, marks, nop, causes);
    let a = receiver::receive_parsed(r, range, head, marks, both, &mut *carry, first, &mut *log);
    exchange_pieces(&mut *first, &mut *second, marks, nop, causes);
    a
}

// Receives two corrected PDUs that are alike in length and bytes 8 to La, and that no row from 1 to 12 turns down, or refuses with 13 or 27.
pub fn receive_alike(
    r: Receiver,
    m: Mode,
    carry: &mut [u8],
    first: &mut [u8],
    second: &mut [u8],
    log: &mut [u32],
) -> Received
    requires usable { Usable r carry.old }
    requires first_len_bound { length first.old ≤ 20480 }
    requires first_value { first_of (reader_tests m (control_at first.old) first.old) ≡ 0 }
    requires second_value { differ first.old second.old ≡ false }
    ensures takes { Takes m.sequences (pair_come r.register m.width (control_at first.old) first.old second.old) r carry.old log.old result carry.new log.new }
    ensures first_unchanged { (first.new ≡ first.old) × (second.new ≡ second.old) }
{
    let c = layout::control_word(first);
    let nop = c.nop as usize;
    let marks = receiver::marks_of(first, m.width, c);
    let causes = receiver::causes_of(r.register, first, marks, nop);
    let both = pair_causes(r.register, first, second, marks, nop, causes);
    let head = receiver::head_of(first, m.width, c);
    receive_exchanged(
        r,
        m.sequences,
        head,
        marks,
        causes,
        both,
        carry,
        first,
        second,
        log,
    )
}
