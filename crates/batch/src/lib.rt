// Receiving PDUs that come joined in one buffer, with a list of their lengths (document 02, Ask 1); on `receiver`.
#![tactic(auto)]

ghost use Rattle.std.specs.Prelude.{◌≡◌, [], ◌+◌, ◌<◌, eqb, length, set};
ghost use Rattle.std.proofs.lemmas.List.Edits.{sets};
ghost use Rattle.pieces.specs.Pieces.{total};
ghost use Rattle.receiver.specs.Receiving.{receive_answer, carry_after, pdu_after, log_after};
ghost use Rattle.batch.specs.Batches.{one_by_one, batch_received, word_ends, ends_after};
ghost use Rattle.batch.specs.Steps.{leaving, begun_with, with_answer};

use receiver::Receiver;

// What came of a batch: the refusal number, 0 where there is none, with the smallest k whose locator is wrong where it is 11; how many PDUs were taken, and
// how many log words were written; and the receiver as the last PDU taken left it.
#[repr(C)]
#[derive(Clone, Copy)]
pub struct Batch {
    pub refusal: u32,
    pub wrong: u32,
    pub taken: usize,
    pub words: usize,
    pub receiver: Receiver,
}

// Whether the lengths sum to so many bytes. They are counted down from it, so no sum wraps.
fn sums_to(lengths: &[usize], bytes: usize) -> bool
    ensures { result ≡ eqb (total lengths.now) bytes }
{
    let mut left = bytes;
    for n in lengths {
        if left < *n {
            return false;
        }
        left -= *n;
    }
    left == 0
}

// A batch of which no PDU is taken yet, or that is refused.
fn begun(receiver: Receiver, number: u32) -> Batch
    ensures { result ≡ begun_with receiver number }
{
    Batch {
        refusal: number,
        wrong: 0,
        taken: 0,
        words: 0,
        receiver: receiver,
    }
}

// Receives the next PDU of a batch, its part of the buffer, with the part of the log that is left.
fn receive_next(b: Batch, carry: &mut [u8], pdu: &mut [u8], log: &mut [u32]) -> Batch
    requires taken_bound { b.taken + 1 < 18446744073709551616 }
    requires log_bound { b.words + length log.old < 18446744073709551616 }
    ensures value { result ≡ with_answer b (receive_answer [] carry.old pdu.old log.old b.receiver) }
    ensures carry_after { carry.new ≡ carry_after [] carry.old pdu.old log.old b.receiver }
    ensures pdu_after { pdu.new ≡ pdu_after [] carry.old pdu.old log.old b.receiver }
    ensures log_after { log.new ≡ log_after [] carry.old pdu.old log.old b.receiver }
{
    let receiver = b.receiver;
    let a = receiver.receive(carry, pdu, log);
    let next = a.receiver;
    let words = b.words + a.words as usize;
    let taken = b.taken + 1;
    if a.refusal != 0 {
        return Batch {
            refusal: a.refusal,
            wrong: a.wrong,
            taken: b.taken,
            words: words,
            receiver: next,
        };
    }
    Batch {
        refusal: 0,
        wrong: 0,
        taken: taken,
        words: words,
        receiver: next,
    }
}

// Puts a number at a place of a list, if the list has that place.
fn note(list: &mut [usize], at: usize, number: usize)
    ensures { list.new ≡ set list.old at number }
{
    if list.len() <= at {
        return;
    }
    list[at] = number;
}

// Receives the PDUs one after another, each log following the last, and stops at the first refused one. Where the words of each end goes into a list.
fn receive_each(
    receiver: Receiver,
    carry: &mut [u8],
    pdus: &mut [u8],
    lengths: &[usize],
    log: &mut [u32],
    ends: &mut [usize],
) -> Batch
    requires { total lengths.now ≡ length pdus.old }
    ensures log_after { leaving result carry.new pdus.new log.new ≡ one_by_one lengths.now receiver carry.old pdus.old log.old }
    ensures ends_after { ends.new ≡ sets ends.old 0 (word_ends 0 lengths.now receiver carry.old pdus.old log.old) }
{
    let mut b = begun(receiver, 0);
    let mut from: usize = 0;
    for (i, n) in lengths.iter().enumerate() {
        let to = from + *n;
        let at = b.words;
        b = receive_next(b, &mut *carry, &mut pdus[from..to], &mut log[at..]);
        if b.refusal != 0 {
            return b;
        }
        note(&mut *ends, i, b.words);
        from = to;
    }
    b
}

// Receives PDUs as `receive` does, and puts into a list, from its first place on, where the words of each PDU taken end in the log. Ends that the list has
// no place for are left out, and its other places keep what they held.
pub fn receive_with_ends(
    receiver: Receiver,
    carry: &mut [u8],
    pdus: &mut [u8],
    lengths: &[usize],
    log: &mut [u32],
    ends: &mut [usize],
) -> Batch
    ensures value { result ≡ (batch_received lengths.now carry.old pdus.old log.old receiver).answer }
    ensures carry_after { carry.new ≡ (batch_received lengths.now carry.old pdus.old log.old receiver).carry }
    ensures pdus_after { pdus.new ≡ (batch_received lengths.now carry.old pdus.old log.old receiver).pdus }
    ensures log_after { log.new ≡ (batch_received lengths.now carry.old pdus.old log.old receiver).log }
    ensures ends_after { ends.new ≡ ends_after lengths.now carry.old pdus.old log.old receiver ends.old }
{
    let number = receiver.state_refusal(carry.len());
    if number != 0 {
        return begun(receiver, number);
    }
    if !sums_to(lengths, pdus.len()) {
        return begun(receiver, 18);
    }
    receive_each(receiver, carry, pdus, lengths, log, ends)
}

// Receives PDUs that stand joined in a buffer, of these lengths, as one call after another would: each header is corrected in place, and each log follows
// the last. It stops at the first refused PDU, with what its call answers; the PDUs before it are received, it and those after it keep their bytes. It is
// refused with 1, with 2, or with 18 where the lengths do not sum to the buffer, before the first PDU, and nothing is changed.
pub fn receive(
    receiver: Receiver,
    carry: &mut [u8],
    pdus: &mut [u8],
    lengths: &[usize],
    log: &mut [u32],
) -> Batch
    ensures value { result ≡ (batch_received lengths.now carry.old pdus.old log.old receiver).answer }
    ensures carry_after { carry.new ≡ (batch_received lengths.now carry.old pdus.old log.old receiver).carry }
    ensures pdus_after { pdus.new ≡ (batch_received lengths.now carry.old pdus.old log.old receiver).pdus }
    ensures log_after { log.new ≡ (batch_received lengths.now carry.old pdus.old log.old receiver).log }
{
    let mut none = [0usize; 0];
    receive_with_ends(receiver, carry, pdus, lengths, log, &mut none)
}
