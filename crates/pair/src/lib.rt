// Receiving a pair of PDUs, two copies of one (document 02, Ask 5), on `receiver` and `diversity`.
#![tactic(auto)]

ghost use Rattle.std.specs.Prelude.{◌≡◌, cond, ◌+◌, ◌≤◌, ◌<◌, eqb, length};
ghost use Rattle.modes.specs.Modes.{listing};
ghost use Rattle.modes.specs.declared.Listing.TheVariants.{Listed};
ghost use Rattle.header.specs.Header.{front_replaced};
ghost use Rattle.layout.specs.Control.{control_at};
ghost use Rattle.pdu.specs.Reading.{wrong_of};
ghost use Rattle.receiver.specs.Steps.{Usable};
ghost use Rattle.diversity.specs.Diversity.{correctable, copy_number, lower, wrong_in_pair, differ, pair_received};
ghost use Rattle.pair.specs.Steps.{lower_wrong, both_number, Paired};

use correction::Correction;
use modes::{Listing, Mode};
use pdu::Verdict;
use receiver::{Received, Receiver};

// The lowest number from 5 to 12 that applies to a corrected copy, 0 for none, and with 11 the smallest k whose locator is wrong.
fn judge_copy(r: Receiver, m: Mode, y: &[u8]) -> Verdict
    requires { listing r.mode r.stream ≡ Listed m }
    ensures { (result.number ≡ copy_number r y.now) × (result.wrong ≡ wrong_of y.now result.number) }
{
    let c = layout::control_word(y);
    let n = receiver::wrong_stream(r, c);
    if n != 0 {
        return Verdict {
            number: n,
            wrong: 0,
        };
    }
    pdu::judge(y, c, m)
}

// The lower of two verdicts, where 0 is none; of two with the same number, the one with the smaller k.
fn lower_of(a: Verdict, b: Verdict) -> Verdict
    ensures { (result.number ≡ lower a.number b.number) × (result.wrong ≡ lower_wrong a b) }
{
    if a.number == b.number {
        if a.wrong <= b.wrong {
            return a;
        }
        return b;
    }
    if a.number == 0 {
        return b;
    }
    if b.number == 0 {
        return a;
    }
    if a.number < b.number {
        return a;
    }
    b
}

// The lowest number from 5 to 12 that applies to either of two corrected copies, 0 for none, and with 11 the smallest k whose locator is wrong in either.
fn judge_pair(r: Receiver, m: Mode, first: &[u8], second: &[u8]) -> Verdict
    requires { listing r.mode r.stream ≡ Listed m }
    ensures { (result.number ≡ lower (copy_number r first.now) (copy_number r second.now)) × (result.wrong ≡ wrong_in_pair first.now second.now result.number) }
{
    let a = judge_copy(r, m, first);
    let b = judge_copy(r, m, second);
    lower_of(a, b)
}

// The place after La.
fn after_la(y: &[u8]) -> usize
    ensures { (result ≡ (control_at y.now).la + 1) × (result ≤ 256) }
{
    let c = layout::control_word(y);
    usize::from(c.la) + 1
}

// Refusal 20: whether lengths or bytes 8 to La of two corrected PDUs differ.
fn differs(first: &[u8], second: &[u8]) -> bool
    requires bound { (13 ≤ (control_at first.now).la) × ((control_at first.now).la < length first.now) }
    requires bound_2 { (13 ≤ (control_at second.now).la) × ((control_at second.now).la < length second.now) }
    ensures { result ≡ differ first.now second.now }
{
    if first.len() != second.len() {
        return true;
    }
    let a = after_la(first);
    let e = after_la(second);
    !diversity::same_bytes(&first[8..a], &second[8..e])
}

// Receives two corrected PDUs, or refuses with 5 to 12, 20, 13 or 27.
fn receive_both(
    r: Receiver,
    m: Mode,
    carry: &mut [u8],
    first: &mut [u8],
    second: &mut [u8],
    log: &mut [u32],
) -> Received
    requires stream_value { listing r.mode r.stream ≡ Listed m }
    requires usable { Usable r carry.old }
    requires first_len_bound { length first.old ≤ 20480 }
    ensures paired { Paired m r carry.old first.old second.old log.old result carry.new log.new }
    ensures first_unchanged { (first.new ≡ first.old) × (second.new ≡ second.old) }
{
    let v = judge_pair(r, m, first, second);
    if v.number != 0 {
        return receiver::refused(r, v.number, v.wrong as u32);
    }
    if differs(first, second) {
        return receiver::refused(r, 20, 0);
    }
    diversity::receive_alike(r, m, carry, first, second, log)
}

// Receives two corrected PDUs; where they are refused, the headers that they had before are put back.
fn both_or_restore(
    r: Receiver,
    m: Mode,
    carry: &mut [u8],
    first: &mut [u8],
    second: &mut [u8],
    log: &mut [u32],
    before: &[u8; 96],
    other: &[u8; 96],
) -> Received
    requires stream_value { listing r.mode r.stream ≡ Listed m }
    requires usable { Usable r carry.old }
    requires first_len_bound { length first.old ≤ 20480 }
    ensures paired { Paired m r carry.old first.old second.old log.old result carry.new log.new }
    ensures first_after { first.new ≡ cond (eqb (both_number m r carry.old first.old second.old log.old) 0) first.old (front_replaced first.old before.now) }
    ensures second_after { second.new ≡ cond (eqb (both_number m r carry.old first.old second.old log.old) 0) second.old (front_replaced second.old other.now) }
{
    let a = receive_both(r, m, &mut *carry, &mut *first, &mut *second, &mut *log);
    if a.refusal == 0 {
        return a;
    }
    header::put_front(first, before);
    header::put_front(second, other);
    a
}

// Whether a header was corrected.
fn is_corrected(answer: Correction) -> bool
    ensures { result ≡ correctable answer }
{
    match answer {
        Correction::Corrected(_) => true,
        Correction::Refused(_) => false,
    }
}

// Receives a pair by a receiver of a listed mode and stream, or refuses.
fn receive_listed(
    r: Receiver,
    m: Mode,
    carry: &mut [u8],
    first: &mut [u8],
    second: &mut [u8],
    log: &mut [u32],
) -> Received
    requires { listing r.mode r.stream ≡ Listed m }
    ensures value { result ≡ (pair_received carry.old first.old second.old log.old r).answer }
    ensures carry_after { carry.new ≡ (pair_received carry.old first.old second.old log.old r).carry }
    ensures first_after { first.new ≡ (pair_received carry.old first.old second.old log.old r).first }
    ensures second_after { second.new ≡ (pair_received carry.old first.old second.old log.old r).second }
    ensures log_after { log.new ≡ (pair_received carry.old first.old second.old log.old r).log }
{
    let n = receiver::listed_refusal(r, m, carry.len());
    if n != 0 {
        return receiver::refused(r, n, 0);
    }
    let before = header::header_of(first);
    let other = header::header_of(second);
    let one = is_corrected(correction::correct(&mut *first));
    let two = is_corrected(correction::correct(&mut *second));
    if one & two {
        return both_or_restore(r, m, carry, first, second, log, &before, &other);
    }
    if one {
        return receiver::receive_or_restore(r, m, carry, first, log, &before);
    }
    if two {
        return receiver::receive_or_restore(r, m, carry, second, log, &other);
    }
    receiver::refused(r, 4, 0)
}

// Receives a pair of PDUs, two copies of one: each header that can be corrected is left corrected, and each piece is taken from a copy in which its CRC is
// right; where both are right and differ, note 7 stands in place of note 2. Where only one can be corrected, that one is received alone. It is refused with 1,
// 2, 4 where neither can be corrected, 5 to 12 of either, 20 where they differ in length or in bytes 8 to La, 13 or 27, and nothing is changed.
pub fn receive(
    receiver: Receiver,
    carry: &mut [u8],
    first: &mut [u8],
    second: &mut [u8],
    log: &mut [u32],
) -> Received
    ensures value { result ≡ (pair_received carry.old first.old second.old log.old receiver).answer }
    ensures carry_after { carry.new ≡ (pair_received carry.old first.old second.old log.old receiver).carry }
    ensures first_after { first.new ≡ (pair_received carry.old first.old second.old log.old receiver).first }
    ensures second_after { second.new ≡ (pair_received carry.old first.old second.old log.old receiver).second }
    ensures log_after { log.new ≡ (pair_received carry.old first.old second.old log.old receiver).log }
{
    match modes::look_up(receiver.mode, receiver.stream) {
        Listing::Listed(m) => receive_listed(receiver, m, carry, first, second, log),
        Listing::Refused(_) => receiver::refused(receiver, 1, 0),
    }
}
