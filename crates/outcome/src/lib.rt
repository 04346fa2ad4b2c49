// What comes of a record of the file of PDUs, on `receiver`.
#![tactic(auto)]

ghost use Rattle.std.specs.Prelude.{◌≡◌, cond, eqb};
ghost use Rattle.correction.specs.Marks.{corrected_pdu_with};
ghost use Rattle.layout.specs.Control.{control_at};
ghost use Rattle.receiver.specs.Receiving.{lost_number, lost_answer, log_after_lost};
ghost use Rattle.outcome.specs.Logging.{outcome_of, record_outcome, record_carry, record_pdu, record_log};

use layout::ControlWord;
use receiver::{Received, Receiver};

// The kinds of outcomes.
pub const RECEIVED: u8 = 0;

pub const LOST: u8 = 1;

pub const REFUSED: u8 = 2;

// The outcome of a PDU, and the receiver after it.
#[derive(Clone, Copy)]
pub struct Outcome {
    pub kind: u8,
    // How many header bytes were corrected, or the refusal number, with the smallest k whose locator is wrong.
    pub number: u32,
    pub wrong: u32,
    // The PDU's length.
    pub length: usize,
    // How many words stand in the log, from its first word on.
    pub words: usize,
    pub receiver: Receiver,
}

// An outcome, with the words and the receiver of a call's answer.
fn outcome_of(kind: u8, number: u32, wrong: u32, length: usize, a: Received) -> Outcome
    ensures { result ≡ outcome_of kind number wrong length a }
{
    Outcome {
        kind: kind,
        number: number,
        wrong: wrong,
        length: length,
        words: a.words as usize,
        receiver: a.receiver,
    }
}

// An empty record is a PDU that is lost.
fn marked_lost(receiver: Receiver, log: &mut [u32]) -> Outcome
    ensures value { result ≡ cond (eqb (lost_number log.old receiver) 0) (outcome_of 1 0 0 0 (lost_answer log.old receiver)) (outcome_of 2 (lost_number log.old receiver) 0 0 (lost_answer log.old receiver)) }
    ensures log_after { log.new ≡ log_after_lost log.old receiver }
{
    let a = receiver.mark_lost(log);
    if a.refusal != 0 {
        return outcome_of(REFUSED, a.refusal, 0, 0, a);
    }
    outcome_of(LOST, 0, 0, 0, a)
}

// A PDU that is refused is marked lost, so that no packet is joined across it.
fn passed_over(r: Received, log: &mut [u32]) -> Received
    ensures value { result ≡ lost_answer log.old r.receiver }
    ensures log_after { log.new ≡ log_after_lost log.old r.receiver }
{
    r.receiver.mark_lost(log)
}

// Receives a PDU with its marked places; an empty record is one that is lost.
pub fn of_record(
    receiver: Receiver,
    carry: &mut [u8],
    pdu: &mut [u8],
    marks: &[u8],
    log: &mut [u32],
) -> Outcome
    ensures value { result ≡ record_outcome marks.now carry.old pdu.old log.old receiver }
    ensures carry_after { carry.new ≡ record_carry marks.now carry.old pdu.old log.old receiver }
    ensures pdu_after { pdu.new ≡ record_pdu marks.now carry.old pdu.old log.old receiver }
    ensures log_after { log.new ≡ record_log marks.now carry.old pdu.old log.old receiver }
{
    if pdu.len() == 0 {
        return marked_lost(receiver, log);
    }
    let before = header::header_of(pdu);
    let r = receiver.receive_marked(carry, &mut *pdu, marks, &mut *log);
    if r.refusal != 0 {
        let lost = passed_over(r, log);
        return outcome_of(REFUSED, r.refusal, r.wrong, pdu.len(), lost);
    }
    let after = header::header_of(pdu);
    let corrected = header::difference(&before, &after);
    outcome_of(RECEIVED, corrected, 0, pdu.len(), r)
}

// The control word of a PDU whose header is corrected in place, with its marked places; where it cannot be corrected, the PDU is left as it came.
pub fn control_of(pdu: &mut [u8], marks: &[u8]) -> ControlWord
    ensures value { result ≡ control_at pdu.new }
    ensures pdu_after { pdu.new ≡ corrected_pdu_with marks.now pdu.old }
{
    correction::correct_marked(pdu, marks);
    layout::control_word(pdu)
}
