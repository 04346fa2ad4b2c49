// The C library: each public operation with C's types, and the core's contract, on `writer`, `batch`, `pair`, `snapshot`, `join`, `latency` and `parity_share`.
// include/barzhilup.h declares them.
#![tactic(auto)]

ghost use Rattle.std.specs.Prelude.{◌≡◌, [], length};
ghost use Rattle.field.specs.Field.{mul};
ghost use Rattle.crc.specs.Crc.{crc_from};
ghost use Rattle.header.specs.Header.{syndromes, parity_of, length_refusal, with_parity};
ghost use Rattle.parity_share.specs.Shares.{share_refusal, with_share};
ghost use Rattle.pdu.specs.Reading.{reading_of, read_pdu};
ghost use Rattle.writer.specs.Writing.{writer_opened, write_answer, written_pdu};
ghost use Rattle.receiver.specs.Receiving.{receiver_opened, opened_for, receive_answer, carry_after, pdu_after, log_after, lost_answer, log_after_lost};
ghost use Rattle.batch.specs.Batches.{batch_received};
ghost use Rattle.diversity.specs.Diversity.{choice_of, choice_number, pair_received};
ghost use Rattle.snapshot.specs.Snapshot.{saved, words_after, loaded, carry_loaded};
ghost use Rattle.correction.specs.Marks.{correction_with, corrected_pdu_with};
ghost use Rattle.correction.specs.Correction.{correction_of, corrected_pdu, correction_number, count_of};
ghost use Rattle.join.specs.Join.{join_answer, result_after};
ghost use Rattle.latency.specs.Latency.{answer, latency_refusal, latency_of, is_found, trial, shown_ticks, row_after};

use batch::Batch;
use correction::Correction;
use join::Joined;
use latency::{Answer, Shown, Trial};
use pdu::Reading;
use receiver::{Received, Receiver};
use settings::Settings;
use snapshot::Saved;
use writer::{Opened, Writer, Written};

// S1 to S8.
#[repr(C)]
#[derive(Clone, Copy)]
pub struct SyndromesAnswer {
    pub values: [u8; 8],
}

// Bytes 0 to 7 of a header.
#[repr(C)]
#[derive(Clone, Copy)]
pub struct ParityAnswer {
    pub values: [u8; 8],
}

// The refusal number, 0 where there is none, and a parity with a share added.
#[repr(C)]
#[derive(Clone, Copy)]
pub struct ShareAnswer {
    pub refusal: u32,
    pub parity: ParityAnswer,
}

// The refusal number, 0 where there is none, and how many bytes were corrected.
#[repr(C)]
#[derive(Clone, Copy)]
pub struct CorrectionAnswer {
    pub refusal: u32,
    pub corrected: u32,
}

// The library's version, 0.1.0: the first number in bits 23-16, the second in 15-8, the third in 7-0. `barzhilup --version` prints the same.
#[unsafe(no_mangle)]
pub extern "C" fn barzhilup_version() -> u32
    ensures { result ≡ 256 }
{
    0x000100
}

// The product of two bytes in GF(256).
#[unsafe(no_mangle)]
pub extern "C" fn barzhilup_product(x: u8, y: u8) -> u8
    ensures { result ≡ mul x y }
{
    field::product(x, y)
}

// The eight syndromes of a header.
#[unsafe(no_mangle)]
pub extern "C" fn barzhilup_syndromes(header: &[u8; 96]) -> SyndromesAnswer
    ensures { result.values ≡ syndromes header.now }
{
    let values = header::syndromes(header);
    SyndromesAnswer { values: values }
}

// The parity of a header.
#[unsafe(no_mangle)]
pub extern "C" fn barzhilup_parity(header: &[u8; 96]) -> ParityAnswer
    ensures { result.values ≡ parity_of header.now }
{
    let values = header::parity(header);
    ParityAnswer { values: values }
}

// Writes the parity of a PDU into its bytes 0 to 7: 0, or refusal 3.
#[unsafe(no_mangle)]
pub extern "C" fn barzhilup_write_parity(pdu: &mut [u8]) -> u32
    ensures value { result ≡ length_refusal (length pdu.old) }
    ensures pdu_after { pdu.new ≡ with_parity pdu.old }
{
    header::write_parity(pdu)
}

// Adds the share of the byte at a place to a parity; or refuses with 14 and hands the parity back as it came.
#[unsafe(no_mangle)]
pub extern "C" fn barzhilup_add_parity_share(
    parity: ParityAnswer,
    place: usize,
    byte: u8,
) -> ShareAnswer
    ensures refusal_value { result.refusal ≡ share_refusal place }
    ensures values_value { result.parity.values ≡ with_share parity.values place byte }
{
    let values = parity.values;
    let added = parity_share::add_share(values, place, byte);
    let sum = added.parity;
    let next = ParityAnswer { values: sum };
    ShareAnswer {
        refusal: added.refusal,
        parity: next,
    }
}

// What came of a correction, as two numbers.
fn in_numbers(answer: Correction) -> CorrectionAnswer
    ensures refusal_value { result.refusal ≡ correction_number answer }
    ensures corrected_value { result.corrected ≡ count_of answer }
{
    match answer {
        Correction::Corrected(n) => CorrectionAnswer {
            refusal: 0,
            corrected: n,
        },
        Correction::Refused(n) => CorrectionAnswer {
            refusal: n,
            corrected: 0,
        },
    }
}

// Corrects the header of a PDU in place, or refuses with 3 or 4 and leaves it as it was.
#[unsafe(no_mangle)]
pub extern "C" fn barzhilup_correct_header(pdu: &mut [u8]) -> CorrectionAnswer
    ensures refusal_value { result.refusal ≡ correction_number (correction_of pdu.old) }
    ensures corrected_value { result.corrected ≡ count_of (correction_of pdu.old) }
    ensures pdu_after { pdu.new ≡ corrected_pdu pdu.old }
{
    let answer = correction::correct(pdu);
    in_numbers(answer)
}

// Corrects the header of a PDU in place with a list of marked places, or refuses with 3, 19 or 4 and leaves it as it was.
#[unsafe(no_mangle)]
pub extern "C" fn barzhilup_correct_header_marked(pdu: &mut [u8], marks: &[u8]) -> CorrectionAnswer
    ensures refusal_value { result.refusal ≡ correction_number (correction_with marks.now pdu.old) }
    ensures corrected_value { result.corrected ≡ count_of (correction_with marks.now pdu.old) }
    ensures pdu_after { pdu.new ≡ corrected_pdu_with marks.now pdu.old }
{
    let answer = correction::correct_marked(pdu, marks);
    in_numbers(answer)
}

// The CRC-8 of the bytes: the register starts at 0.
#[unsafe(no_mangle)]
pub extern "C" fn barzhilup_crc8(bytes: &[u8]) -> u8
    ensures { result ≡ crc_from 0 bytes.now }
{
    crc::crc8(bytes)
}

// The CRC-8 of the bytes, from a register of any start.
#[unsafe(no_mangle)]
pub extern "C" fn barzhilup_crc8_from(start: u8, bytes: &[u8]) -> u8
    ensures { result ≡ crc_from start bytes.now }
{
    crc::crc8_from(start, bytes)
}

// Reads a PDU without a receiver: its header is corrected in place, or it is refused with 3 to 5 or 7 to 12 and left as it was.
#[unsafe(no_mangle)]
pub extern "C" fn barzhilup_read(pdu: &mut [u8]) -> Reading
    ensures value { result ≡ reading_of pdu.old }
    ensures pdu_after { pdu.new ≡ read_pdu pdu.old }
{
    pdu::read(pdu)
}

// Opens a writer for a mode and stream, whose CRCs start with a register of 0; or refuses with 5.
#[unsafe(no_mangle)]
pub extern "C" fn barzhilup_open_writer(mode: u8, stream: u8) -> Opened
    ensures { result ≡ writer_opened mode stream 0 }
{
    writer::open(mode, stream, 0)
}

// Opens a writer for a mode and stream, with the register that CRCs start with, any byte; or refuses with 5.
#[unsafe(no_mangle)]
pub extern "C" fn barzhilup_open_writer_with(mode: u8, stream: u8, register: u8) -> Opened
    ensures { result ≡ writer_opened mode stream register }
{
    writer::open(mode, stream, register)
}

// Writes a PDU from settings, PSD, and the packets' lengths and joined bytes, the unfinished packet first and whole; or refuses with 1, 3, 10
// or 14 to 17, and nothing is changed.
#[unsafe(no_mangle)]
pub extern "C" fn barzhilup_write(
    writer: Writer,
    settings: Settings,
    psd: &[u8],
    lengths: &[u16],
    bytes: &[u8],
    pdu: &mut [u8],
) -> Written
    ensures value { result ≡ write_answer settings psd.now lengths.now bytes.now (length pdu.old) writer }
    ensures pdu_after { pdu.new ≡ written_pdu settings psd.now lengths.now bytes.now (length pdu.old) writer pdu.old }
{
    writer.write(settings, psd, lengths, bytes, pdu)
}

// Opens a receiver for a mode and stream, whose CRCs start with a register of 0, entitled to all programs; or refuses with 5.
#[unsafe(no_mangle)]
pub extern "C" fn barzhilup_open_receiver(mode: u8, stream: u8) -> receiver::Opened
    ensures { result ≡ receiver_opened mode stream 0 }
{
    receiver::open(mode, stream, 0)
}

// Opens a receiver for a mode and stream, with the register that CRCs start with, any byte, entitled to all programs; or refuses with 5.
#[unsafe(no_mangle)]
pub extern "C" fn barzhilup_open_receiver_with(
    mode: u8,
    stream: u8,
    register: u8,
) -> receiver::Opened
    ensures { result ≡ receiver_opened mode stream register }
{
    receiver::open(mode, stream, register)
}

// Opens a receiver with the programs that it is entitled to, by a list of their numbers, none over 7 or repeated; or refuses with 5, or 22.
#[unsafe(no_mangle)]
pub extern "C" fn barzhilup_open_receiver_entitled(
    mode: u8,
    stream: u8,
    register: u8,
    programs: &[u8],
) -> receiver::Opened
    ensures { result ≡ opened_for mode stream register programs.now }
{
    receiver::open_entitled(mode, stream, register, programs)
}

// Receives a PDU: its header is corrected in place, what is held stands first in the carry, and the log is written from its first word on; or
// it is refused with 1 to 13, or 27, and nothing is changed.
#[unsafe(no_mangle)]
pub extern "C" fn barzhilup_receive(
    receiver: Receiver,
    carry: &mut [u8],
    pdu: &mut [u8],
    log: &mut [u32],
) -> Received
    ensures value { result ≡ receive_answer [] carry.old pdu.old log.old receiver }
    ensures carry_after { carry.new ≡ carry_after [] carry.old pdu.old log.old receiver }
    ensures pdu_after { pdu.new ≡ pdu_after [] carry.old pdu.old log.old receiver }
    ensures log_after { log.new ≡ log_after [] carry.old pdu.old log.old receiver }
{
    receiver.receive(carry, pdu, log)
}

// Receives a PDU with a list of marked header places; or it is refused with 1 to 13, 19 or 27, and nothing is changed.
#[unsafe(no_mangle)]
pub extern "C" fn barzhilup_receive_marked(
    receiver: Receiver,
    carry: &mut [u8],
    pdu: &mut [u8],
    marks: &[u8],
    log: &mut [u32],
) -> Received
    ensures value { result ≡ receive_answer marks.now carry.old pdu.old log.old receiver }
    ensures carry_after { carry.new ≡ carry_after marks.now carry.old pdu.old log.old receiver }
    ensures pdu_after { pdu.new ≡ pdu_after marks.now carry.old pdu.old log.old receiver }
    ensures log_after { log.new ≡ log_after marks.now carry.old pdu.old log.old receiver }
{
    receiver.receive_marked(carry, pdu, marks, log)
}

// Receives PDUs that stand joined in a buffer, of these lengths, as one call after another would, each log following the last, and stops at the first that is
// refused: it and those after it keep their bytes. Refused with 1, 2 or 18 (the lengths do not sum to the buffer), nothing is changed.
#[unsafe(no_mangle)]
pub extern "C" fn barzhilup_receive_batch(
    receiver: Receiver,
    carry: &mut [u8],
    pdus: &mut [u8],
    lengths: &[usize],
    log: &mut [u32],
) -> Batch
    ensures value { result ≡ (batch_received lengths.now carry.old pdus.old log.old receiver).answer }
    ensures carry_after { carry.new ≡ (batch_received lengths.now carry.old pdus.old log.old receiver).carry }
    ensures pdus_after { pdus.new ≡ (batch_received lengths.now carry.old pdus.old log.old receiver).pdus }
    ensures log_after { log.new ≡ (batch_received lengths.now carry.old pdus.old log.old receiver).log }
{
    batch::receive(receiver, carry, pdus, lengths, log)
}

// Which of two PDUs is the better copy: 1 the first, 2 the second, 0 where neither can be corrected, which stands for an empty part of the first. Nothing is
// refused or changed.
#[unsafe(no_mangle)]
pub extern "C" fn barzhilup_choose(first: &[u8], second: &[u8]) -> u32
    ensures { result ≡ choice_number (choice_of first.now second.now) }
{
    diversity::choice(first, second)
}

// Receives a pair of PDUs, two copies of one: each header that can be corrected is left corrected, and each piece is taken from a copy in which its CRC is
// right. Where only one can be corrected, that one is received alone. It is refused with 1, 2, 4 to 12, 20, 13 or 27, and nothing is changed.
#[unsafe(no_mangle)]
pub extern "C" fn barzhilup_receive_pair(
    receiver: Receiver,
    carry: &mut [u8],
    first: &mut [u8],
    second: &mut [u8],
    log: &mut [u32],
) -> Received
    ensures value { result ≡ (pair_received carry.old first.old second.old log.old receiver).answer }
    ensures carry_after { carry.new ≡ (pair_received carry.old first.old second.old log.old receiver).carry }
    ensures first_after { first.new ≡ (pair_received carry.old first.old second.old log.old receiver).first }
    ensures second_after { second.new ≡ (pair_received carry.old first.old second.old log.old receiver).second }
    ensures log_after { log.new ≡ (pair_received carry.old first.old second.old log.old receiver).log }
{
    pair::receive(receiver, carry, first, second, log)
}

// Marks a PDU lost: note 6, and the receiver forgets, but keeps its counts; or it is refused with 1 or 13, and nothing is changed.
#[unsafe(no_mangle)]
pub extern "C" fn barzhilup_mark_lost(receiver: Receiver, log: &mut [u32]) -> Received
    ensures value { result ≡ lost_answer log.old receiver }
    ensures log_after { log.new ≡ log_after_lost log.old receiver }
{
    receiver.mark_lost(log)
}

// Writes a receiver out as words, from the first of the buffer on, with the bytes that it holds in the carry (document 02, Ask 13); or refuses with 1, 2 or 26,
// and nothing is written.
#[unsafe(no_mangle)]
pub extern "C" fn barzhilup_save_receiver(
    receiver: Receiver,
    carry: &[u8],
    words: &mut [u32],
) -> Saved
    ensures value { result ≡ saved carry.now words.old receiver }
    ensures words_after { words.new ≡ words_after carry.now words.old receiver }
{
    snapshot::save(receiver, carry, words)
}

// Reads a receiver again from its words: the bytes that it holds are put first into the carry, and the rest of it stays; or refuses with 2 or 25, and nothing is
// changed.
#[unsafe(no_mangle)]
pub extern "C" fn barzhilup_load_receiver(words: &[u32], carry: &mut [u8]) -> receiver::Opened
    ensures value { result ≡ loaded words.now carry.old }
    ensures carry_after { carry.new ≡ carry_loaded words.now carry.old }
{
    snapshot::load(words, carry)
}

// The refusal number, 0 where there is none; the smallest latency without a dry tick, 0 where none was found; and whether one was.
#[repr(C)]
#[derive(Clone, Copy)]
pub struct LatencyAnswer {
    pub refusal: u32,
    pub latency: u32,
    pub found: bool,
}

fn latency_answer(refusal: u32, latency: u32, found: bool) -> LatencyAnswer
    ensures { result ≡ record { refusal = refusal; latency = latency; found = found } }
{
    LatencyAnswer {
        refusal: refusal,
        latency: latency,
        found: found,
    }
}

// What came of trying the latencies, as numbers.
fn smallest_in_numbers(smallest: Answer) -> LatencyAnswer
    ensures refusal_value { result.refusal ≡ latency_refusal smallest }
    ensures latency_value { result.latency ≡ latency_of smallest }
    ensures found_value { result.found ≡ is_found smallest }
{
    match smallest {
        Answer::Refused(n) => latency_answer(n, 0, false),
        Answer::Smallest(v) => latency_answer(0, v as u32, true),
        Answer::AllDry => latency_answer(0, 0, false),
    }
}

// Tries the latencies 0 to 7 of a mode and stream on the counts of packets ended in each PDU: the smallest without a dry tick; or refuses with 5
// or 21.
#[unsafe(no_mangle)]
pub extern "C" fn barzhilup_smallest_latency(mode: u8, stream: u8, counts: &[u32]) -> LatencyAnswer
    ensures refusal_value { result.refusal ≡ latency_refusal (answer mode stream counts.now) }
    ensures latency_value { result.latency ≡ latency_of (answer mode stream counts.now) }
    ensures found_value { result.found ≡ is_found (answer mode stream counts.now) }
{
    let smallest = latency::smallest(mode, stream, counts);
    smallest_in_numbers(smallest)
}

// Tries one latency: how many ticks are run and how many are dry, the first of these, and the most packets that wait; or refuses with 5 or 21.
#[unsafe(no_mangle)]
pub extern "C" fn barzhilup_try_latency(mode: u8, stream: u8, counts: &[u32], latency: u8) -> Trial
    ensures { result ≡ trial mode stream counts.now latency }
{
    latency::try_latency(mode, stream, counts, latency)
}

// The packets that wait at each tick of a latency from one on, as many ticks as the run has and the buffer holds; or refuses with 5 or 21 and
// leaves the buffer as it was.
#[unsafe(no_mangle)]
pub extern "C" fn barzhilup_waiting_packets(
    mode: u8,
    stream: u8,
    counts: &[u32],
    latency: u8,
    first: usize,
    waiting: &mut [u32],
) -> Shown
    ensures value { result ≡ shown_ticks mode stream counts.now first (length waiting.old) }
    ensures waiting_after { waiting.new ≡ row_after mode stream counts.now latency first waiting.old }
{
    latency::show_waiting(mode, stream, counts, latency, first, waiting)
}

// Joins two logs of one frame by packet number: each core packet's words, and after them those of the enhanced one of its number, bit 29 set in its
// first; or refuses with 23 (words that are no log), 24 (numbers that do not rise) or 13, and leaves the result buffer as it was.
#[unsafe(no_mangle)]
pub extern "C" fn barzhilup_join(core: &[u32], enhanced: &[u32], res: &mut [u32]) -> Joined
    ensures value { result ≡ join_answer core.now enhanced.now (length res.old) }
    ensures res_after { res.new ≡ result_after core.now enhanced.now res.old }
{
    join::join(core, enhanced, res)
}
