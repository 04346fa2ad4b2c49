// Opening a receiver, receiving PDUs, and marking them lost (document 01, "Receiver"), on `pdu` and `reassembly`; with entitled programs (document 02, Ask 10),
// and with delivered and missing counted (Ask 14).
#![tactic(auto)]

ghost use Rattle.std.specs.Prelude.{◌≡◌, false, not, ◌&&◌, cond, [], ◌+◌, ◌≤◌, ◌<◌, eqb, length, get_or};
ghost use Rattle.std.proofs.Math.Option.{none, some};
ghost use Rattle.refusal.specs.Refusal.{first_of, any_of};
ghost use Rattle.modes.specs.Modes.{listing};
ghost use Rattle.modes.specs.declared.Listing.TheVariants.{Listed};
ghost use Rattle.header.specs.Header.{front_replaced};
ghost use Rattle.layout.specs.Control.{control_at};
ghost use Rattle.pdu.specs.Reading.{reader_tests, wrong_of};
ghost use Rattle.reassembly.specs.Run.{place_at, Marked, Parsed, last_of};
ghost use Rattle.reassembly.specs.Rights.{forgetting, in_force, withheld_by};
ghost use Rattle.reassembly.specs.Tally.{passes_limit};
ghost use Rattle.receiver.specs.Entitling.{is_listed, allowed_programs, mask_of, entitles};
ghost use Rattle.receiver.specs.Receiving.{come_by, fresh as fresh_for, no_receiver, opened_for, receiver_opened, kept_of, tally_of, keeps_services, wrong_services, wrong_counts, wrong_fields, refused_answer, receive_answer, carry_after, pdu_after, log_after, lost_answer, log_after_lost};
ghost use Rattle.receiver.specs.Steps.{MarksOf, cause_at, CausesOf, head_of, come_of, state_of, services_of, state_tests, Usable, accepted_after, Answered, Takes, stream_tests, corrected_number, forgetful};

use correction::Correction;
use layout::ControlWord;
use modes::{Listing, Mode};
use reassembly::{Head, Run, State, Tally};

// What a receiver was opened with, and what it remembers. A field not known or not held is 0; held length 0 means nothing held.
#[repr(C)]
#[derive(Clone, Copy)]
pub struct Receiver {
    pub mode: u8,
    pub stream: u8,
    // The register that the CRC of each piece starts with.
    pub register: u8,
    // The entitled programs (document 02, Ask 10): bit p for program p.
    pub entitled: u8,
    // The last PDU sequence, if known.
    pub known: bool,
    pub sequence: u8,
    // The length and number of the held beginning.
    pub held: u16,
    pub number: u8,
    // The applied services in force, if known; only for core of sequence range 0-7 (document 02, Ask 10).
    pub serviced: bool,
    pub services: u8,
    // The packets delivered, those missing between them, and the last delivered number; with delivered 0 the other two are 0 (document 02, Ask 14).
    pub delivered: u32,
    pub missing: u32,
    pub last: u8,
}

// The refusal number, 0 where there is none, and the receiver: if refused, one that every call turns down with 1.
#[repr(C)]
#[derive(Clone, Copy)]
pub struct Opened {
    pub refusal: u32,
    pub receiver: Receiver,
}

// The refusal number, 0 where there is none, with the smallest k whose locator is wrong where it is 11; the count of log words written; and the
// next state, the same if refused.
#[repr(C)]
#[derive(Clone, Copy)]
pub struct Received {
    pub refusal: u32,
    pub wrong: u32,
    pub words: u32,
    pub receiver: Receiver,
}

// A mode that the table has not.
const NO_MODE: u8 = 255;

// A receiver that knows no sequence, holds nothing, knows of no applied services and has delivered nothing.
fn fresh(mode: u8, stream: u8, register: u8, entitled: u8) -> Receiver
    ensures { result ≡ fresh_for mode stream register entitled }
{
    Receiver {
        mode: mode,
        stream: stream,
        register: register,
        entitled: entitled,
        known: false,
        sequence: 0,
        held: 0,
        number: 0,
        serviced: false,
        services: 0,
        delivered: 0,
        missing: 0,
        last: 0,
    }
}

// A refused opening.
fn not_opened(number: u32) -> Opened
    ensures { result ≡ record { refusal = number; receiver = no_receiver } }
{
    Opened {
        refusal: number,
        receiver: fresh(NO_MODE, 0, 0, 0),
    }
}

// Whether a program is listed.
fn is_listed(programs: &[u8], p: u8) -> bool
    ensures { result ≡ is_listed programs.now p }
{
    correction::is_marked(programs, usize::from(p))
}

// Whether each program number is at most 7, and none repeated.
fn allowed(programs: &[u8]) -> bool
    ensures { result ≡ allowed_programs programs.now }
{
    for (i, p) in programs.iter().enumerate() {
        if 7 < *p {
            return false;
        }
        if is_listed(&programs[i + 1..], *p) {
            return false;
        }
    }
    true
}

// The bit of a program, if it is listed.
fn bit_of(programs: &[u8], p: u8, bit: u8) -> u8
    ensures { (result ≡ cond (is_listed programs.now p) bit 0) × (result ≤ bit) }
{
    if is_listed(programs, p) {
        return bit;
    }
    0
}

// The listed programs as a mask: bit p for program p.
fn mask_of(programs: &[u8]) -> u8
    ensures { result ≡ mask_of programs.now }
{
    let low = bit_of(programs, 0, 1)
        + bit_of(programs, 1, 2)
        + bit_of(programs, 2, 4)
        + bit_of(programs, 3, 8);
    let high = bit_of(programs, 4, 16)
        + bit_of(programs, 5, 32)
        + bit_of(programs, 6, 64)
        + bit_of(programs, 7, 128);
    low + high
}

// Opens a receiver for a mode and stream, with the register that CRCs start with, any byte, and the entitled programs; or refuses with 5, or 22.
pub fn open_entitled(mode: u8, stream: u8, register: u8, programs: &[u8]) -> Opened
    ensures { result ≡ opened_for mode stream register programs.now }
{
    match modes::look_up(mode, stream) {
        Listing::Listed(_) => {
            if allowed(programs) {
                return Opened {
                    refusal: 0,
                    receiver: fresh(mode, stream, register, mask_of(programs)),
                };
            }
            not_opened(22)
        }
        Listing::Refused(n) => not_opened(n),
    }
}

// Opens a receiver that is entitled to all programs, 0 to 7; or refuses with 5.
pub fn open(mode: u8, stream: u8, register: u8) -> Opened
    ensures { result ≡ receiver_opened mode stream register }
{
    let programs = [0u8, 1, 2, 3, 4, 5, 6, 7];
    open_entitled(mode, stream, register, &programs)
}

// Whether applied services are kept from one PDU to the next: core of sequence range 0-7.
fn keeps_services(r: Receiver, range: u8) -> bool
    ensures { result ≡ keeps_services range r }
{
    (r.stream == 0) & (range == 8)
}

// Refusal 1, the applied services: over 7, not 0 while unknown, or known where none are kept.
fn wrong_services(r: Receiver, m: Mode) -> bool
    ensures { result ≡ any_of (wrong_services m r) }
{
    let keeps = keeps_services(r, m.sequences);
    (7 < r.services) | ((!r.serviced & (r.services != 0)) | (r.serviced & !keeps))
}

// Refusal 1, the counts: a last number over 63, or missing or a last number with nothing delivered.
fn wrong_counts(r: Receiver) -> bool
    ensures { result ≡ any_of (wrong_counts r) }
{
    (63 < r.last) | (((r.delivered == 0) & (r.missing != 0)) | ((r.delivered == 0) & (r.last != 0)))
}

// Refusal 1, for a mode and stream that the table has.
fn wrong_state(r: Receiver, m: Mode) -> bool
    ensures { result ≡ any_of (wrong_fields m r) }
{
    let rest = wrong_services(r, m) | wrong_counts(r);
    (m.sequences <= r.sequence)
        | ((!r.known & (r.sequence != 0))
            | ((4096 < r.held) | ((63 < r.number) | (((r.held == 0) & (r.number != 0)) | rest))))
}

// Refusal 1 or 2, for a mode and stream that the table has and a carry of so many bytes, or 0.
pub fn listed_refusal(r: Receiver, m: Mode, carry: usize) -> u32
    requires { listing r.mode r.stream ≡ Listed m }
    ensures { result ≡ first_of (state_tests r carry) }
{
    if wrong_state(r, m) {
        return 1;
    }
    if carry < 4096 {
        return 2;
    }
    0
}

// La and then each locator.
pub fn marks_of(y: &[u8], width: u8, c: ControlWord) -> [u16; 64]
    requires { c.nop < 64 }
    ensures { MarksOf width c y.now result }
{
    let mut marks = [0u16; 64];
    for k in 0..c.nop + 1 {
        marks[usize::from(k)] = pdu::mark(y, width, c, k);
    }
    marks
}

// Piece k's cause: 0 where the byte at its locator is its CRC, by the register that it starts with, 2 where it is not.
pub fn cause_at(register: u8, y: &[u8], marks: [u16; 64], k: usize) -> u8
    requires { (k < 63) × (place_at marks k < get_or marks (k + 1) 0) × (get_or marks (k + 1) 0 < length y.now) }
    ensures { result ≡ cause_at register y.now marks k }
{
    let a = usize::from(marks[k]) + 1;
    let e = usize::from(marks[k + 1]);
    let crc = crc::crc8_from(register, &y[a..e]);
    if crc == y[e] {
        return 0;
    }
    2
}

// Each piece's cause.
pub fn causes_of(register: u8, y: &[u8], marks: [u16; 64], nop: usize) -> [u8; 64]
    requires { Marked y.now marks nop }
    ensures { CausesOf register y.now marks nop result }
{
    let mut causes = [0u8; 64];
    for k in 0..nop {
        causes[k] = cause_at(register, y, marks, k);
    }
    causes
}

// What the header says, for reassembly.
pub fn head_of(y: &[u8], width: u8, c: ControlWord) -> Head
    ensures { result ≡ head_of width c y.now }
{
    let front = pdu::read_front(y, width, c);
    Head {
        sequence: c.sequence,
        pfirst: c.pfirst,
        plast: c.plast,
        start: c.start,
        psd: front.psd,
        nop: c.nop as usize,
        program: front.program,
        services: front.services,
    }
}

// What the receiver remembers, for reassembly.
fn state_of(r: Receiver) -> State
    ensures { result ≡ state_of r }
{
    State {
        known: r.known,
        last: r.sequence,
        held: r.held as usize,
        number: r.number,
    }
}

// What the receiver has counted, for reassembly.
fn tally_of(r: Receiver) -> Tally
    ensures { (result ≡ tally_of r) × (result.delivered ≤ 4294967295) × (result.missing ≤ 4294967295) }
{
    Tally {
        delivered: r.delivered as u64,
        missing: r.missing as u64,
        last: r.last,
    }
}

// Refusal 27: a count passes 4,294,967,295.
fn passes_limit(t: Tally) -> bool
    ensures { result ≡ passes_limit t }
{
    (4294967295 < t.delivered) | (4294967295 < t.missing)
}

// The applied services in force at a PDU, if known; 0 where not known.
#[derive(Clone, Copy)]
pub struct Services {
    pub known: bool,
    pub value: u8,
}

fn known_services(value: u8) -> Services
    ensures { result ≡ services_of (some value) }
{
    Services {
        known: true,
        value: value,
    }
}

fn unknown_services() -> Services
    ensures { result ≡ services_of none }
{
    Services {
        known: false,
        value: 0,
    }
}

// The applied services in force at a PDU: those that it sends, but core of sequence range 0-7 has those sent with sequence 0 until the next such. A PDU out
// of sequence forgets them, before its own are taken.
fn services_at(r: Receiver, range: u8, head: Head) -> Services
    requires { (r.sequence < 255) × (r.serviced ≡ false → r.services ≡ 0) }
    ensures { result ≡ services_of (in_force (keeps_services range r) head.sequence head.services (forgetting range (last_of r.known r.sequence) head.sequence (kept_of r))) }
{
    if !keeps_services(r, range) {
        return known_services(head.services);
    }
    if head.sequence == 0 {
        return known_services(head.services);
    }
    if reassembly::in_sequence(r.known, r.sequence, range, head.sequence) {
        return Services {
            known: r.serviced,
            value: r.services,
        };
    }
    unknown_services()
}

// What is kept of them after it.
fn services_after(r: Receiver, range: u8, services: Services) -> Services
    ensures { result ≡ cond (keeps_services range r) services (services_of none) }
{
    if keeps_services(r, range) {
        return services;
    }
    unknown_services()
}

// Whether a mask of entitled programs has a program.
fn is_entitled(mask: u8, program: u8) -> bool
    ensures { result ≡ entitles mask program }
{
    match program {
        0 => mask % 2 == 1,
        1 => mask / 2 % 2 == 1,
        2 => mask / 4 % 2 == 1,
        3 => mask / 8 % 2 == 1,
        4 => mask / 16 % 2 == 1,
        5 => mask / 32 % 2 == 1,
        6 => mask / 64 % 2 == 1,
        7 => mask / 128 % 2 == 1,
        _ => false,
    }
}

// Whether a PDU of a program is withheld, where these services are in force: they are 1 or unknown, and the program is not entitled.
fn is_withheld(r: Receiver, program: u8, services: Services) -> bool
    ensures { result ≡ withheld_by (entitles r.entitled) program (last_of services.known services.value) }
{
    if is_entitled(r.entitled, program) {
        return false;
    }
    if services.known {
        return services.value == 1;
    }
    true
}

// A refusal: nothing is changed. k comes with 11.
pub fn refused(r: Receiver, number: u32, k: u32) -> Received
    ensures { result ≡ refused_answer r number k }
{
    Received {
        refusal: number,
        wrong: k,
        words: 0,
        receiver: r,
    }
}

// The answer for an accepted PDU of a sequence, after its run, with these applied services kept and this tally.
fn accepted(r: Receiver, sequence: u8, kept: Services, run: Run, tally: Tally) -> Received
    requires held_bound { (run.held ≤ 65535) × (run.at ≤ 4294967295) }
    requires delivered_bound { (tally.delivered ≤ 4294967295) × (tally.missing ≤ 4294967295) }
    ensures { result ≡ accepted_after r sequence kept run tally }
{
    Received {
        refusal: 0,
        wrong: 0,
        words: run.at as u32,
        receiver: Receiver {
            mode: r.mode,
            stream: r.stream,
            register: r.register,
            entitled: r.entitled,
            known: true,
            sequence: sequence,
            held: run.held as u16,
            number: run.number,
            serviced: kept.known,
            services: kept.value,
            delivered: tally.delivered as u32,
            missing: tally.missing as u32,
            last: tally.last,
        },
    }
}

// Receives a PDU by what its header says, its marks and each piece's cause, or refuses with 13 or 27.
pub fn receive_parsed(
    r: Receiver,
    range: u8,
    head: Head,
    marks: [u16; 64],
    causes: [u8; 64],
    carry: &mut [u8],
    y: &[u8],
    log: &mut [u32],
) -> Received
    requires usable { Usable r carry.old }
    requires parsed { Parsed head y.now marks }
    ensures { Takes range (come_of head marks causes y.now) r carry.old log.old result carry.new log.new }
{
    let state = state_of(r);
    let services = services_at(r, range, head);
    let withheld = is_withheld(r, head.program, services);
    let count = reassembly::forecast_for(state, range, head, withheld, marks, causes, tally_of(r));
    let tally = count.tally;
    if log.len() < count.words {
        return refused(r, 13, 0);
    }
    if passes_limit(tally) {
        return refused(r, 27, 0);
    }
    let run = reassembly::accept(
        state,
        range,
        head,
        withheld,
        marks,
        causes,
        y,
        &mut *carry,
        &mut *log,
    );
    let kept = services_after(r, range, services);
    accepted(r, head.sequence, kept, run, tally)
}

// Receives a corrected PDU that no row from 1 to 12 turns down, or refuses with 13 or 27.
fn receive_read(
    r: Receiver,
    m: Mode,
    c: ControlWord,
    carry: &mut [u8],
    y: &[u8],
    log: &mut [u32],
) -> Received
    requires usable { Usable r carry.old }
    requires y_len_bound { (length y.now ≤ 20480) × (c.nop < 64) }
    requires y_value { first_of (reader_tests m c y.now) ≡ 0 }
    ensures { Takes m.sequences (come_by r.register m.width c y.now) r carry.old log.old result carry.new log.new }
{
    let marks = marks_of(y, m.width, c);
    let causes = causes_of(r.register, y, marks, c.nop as usize);
    let head = head_of(y, m.width, c);
    receive_parsed(
        r,
        m.sequences,
        head,
        marks,
        causes,
        &mut *carry,
        y,
        &mut *log,
    )
}

// Refusal 6: a PDU's mode and stream are not those opened.
fn other_stream(r: Receiver, c: ControlWord) -> bool
    ensures { result ≡ not (eqb c.mode r.mode && eqb c.stream r.stream) }
{
    !((c.mode == r.mode) & (c.stream == r.stream))
}

// Refusal 5 or 6, for a PDU's mode and stream, or 0.
pub fn wrong_stream(r: Receiver, c: ControlWord) -> u32
    ensures { result ≡ first_of (stream_tests r c) }
{
    let listing = modes::look_up(c.mode, c.stream);
    match listing {
        Listing::Listed(_) => {
            if other_stream(r, c) {
                return 6;
            }
            0
        }
        Listing::Refused(n) => n,
    }
}

// Receives a corrected PDU, or refuses with 5 to 13, or 27.
fn receive_corrected(r: Receiver, m: Mode, carry: &mut [u8], y: &[u8], log: &mut [u32]) -> Received
    requires stream_value { listing r.mode r.stream ≡ Listed m }
    requires usable { Usable r carry.old }
    requires y_len_bound { length y.now ≤ 20480 }
    ensures { Answered m.sequences (come_by r.register m.width (control_at y.now) y.now) r carry.old log.old (corrected_number m r carry.old y.now log.old) (wrong_of y.now (corrected_number m r carry.old y.now log.old)) result carry.new log.new }
{
    let c = layout::control_word(y);
    let n = wrong_stream(r, c);
    if n != 0 {
        return refused(r, n, 0);
    }
    let v = pdu::judge(y, c, m);
    if v.number != 0 {
        return refused(r, v.number, v.wrong as u32);
    }
    receive_read(r, m, c, &mut *carry, y, &mut *log)
}

// Receives a corrected PDU; where it is refused, the header that it had before is put back.
pub fn receive_or_restore(
    r: Receiver,
    m: Mode,
    carry: &mut [u8],
    pdu: &mut [u8],
    log: &mut [u32],
    before: &[u8; 96],
) -> Received
    requires stream_value { listing r.mode r.stream ≡ Listed m }
    requires usable { Usable r carry.old }
    requires pdu_len_bound { length pdu.old ≤ 20480 }
    ensures answered { Answered m.sequences (come_by r.register m.width (control_at pdu.old) pdu.old) r carry.old log.old (corrected_number m r carry.old pdu.old log.old) (wrong_of pdu.old (corrected_number m r carry.old pdu.old log.old)) result carry.new log.new }
    ensures pdu_after { pdu.new ≡ cond (eqb (corrected_number m r carry.old pdu.old log.old) 0) pdu.old (front_replaced pdu.old before.now) }
{
    let a = receive_corrected(r, m, &mut *carry, pdu, &mut *log);
    if a.refusal == 0 {
        return a;
    }
    header::put_front(pdu, before);
    a
}

// Receives a PDU with marked places by a receiver of a listed mode and stream, or refuses.
fn receive_listed(
    r: Receiver,
    m: Mode,
    carry: &mut [u8],
    pdu: &mut [u8],
    marks: &[u8],
    log: &mut [u32],
) -> Received
    requires { listing r.mode r.stream ≡ Listed m }
    ensures value { result ≡ receive_answer marks.now carry.old pdu.old log.old r }
    ensures carry_after { carry.new ≡ carry_after marks.now carry.old pdu.old log.old r }
    ensures pdu_after { pdu.new ≡ pdu_after marks.now carry.old pdu.old log.old r }
    ensures log_after { log.new ≡ log_after marks.now carry.old pdu.old log.old r }
{
    if wrong_state(r, m) {
        return refused(r, 1, 0);
    }
    if carry.len() < 4096 {
        return refused(r, 2, 0);
    }
    let before = header::header_of(pdu);
    let answer = correction::correct_marked(pdu, marks);
    match answer {
        Correction::Corrected(_) => receive_or_restore(r, m, carry, pdu, log, &before),
        Correction::Refused(n) => refused(r, n, 0),
    }
}

// The answer after so many words that mark a PDU lost: the counts and the last delivered number stay.
fn forgotten(r: Receiver, words: usize) -> Received
    requires { words ≤ 4294967295 }
    ensures { result ≡ forgetful r words }
{
    let mut next = r;
    next.known = false;
    next.sequence = 0;
    next.held = 0;
    next.number = 0;
    next.serviced = false;
    next.services = 0;
    Received {
        refusal: 0,
        wrong: 0,
        words: words as u32,
        receiver: next,
    }
}

// Marks a PDU lost by a receiver of a listed mode and stream, or refuses.
fn lose_listed(r: Receiver, m: Mode, log: &mut [u32]) -> Received
    requires { listing r.mode r.stream ≡ Listed m }
    ensures value { result ≡ lost_answer log.old r }
    ensures log_after { log.new ≡ log_after_lost log.old r }
{
    if wrong_state(r, m) {
        return refused(r, 1, 0);
    }
    if log.len() < 1 {
        return refused(r, 13, 0);
    }
    let words = packet_log::put_note(&mut *log, 0, 6, 0);
    forgotten(r, words)
}

impl Receiver {
    // Refusal 1 or 2, for a carry of so many bytes, or 0: what a call judges before it looks at a PDU.
    pub fn state_refusal(self, carry: usize) -> u32
        ensures { result ≡ first_of (state_tests self carry) }
    {
        match modes::look_up(self.mode, self.stream) {
            Listing::Listed(m) => listed_refusal(self, m, carry),
            Listing::Refused(_) => 1,
        }
    }

    // Receives a PDU with a list of marked header places (document 02, Ask 3): twice the differing unmarked bytes plus the marks may be
    // eight. It is refused with 19, directly after 3, for more than eight marks, one over 95, or one repeated.
    pub fn receive_marked(
        self,
        carry: &mut [u8],
        pdu: &mut [u8],
        marks: &[u8],
        log: &mut [u32],
    ) -> Received
        ensures value { result ≡ receive_answer marks.now carry.old pdu.old log.old self }
        ensures carry_after { carry.new ≡ carry_after marks.now carry.old pdu.old log.old self }
        ensures pdu_after { pdu.new ≡ pdu_after marks.now carry.old pdu.old log.old self }
        ensures log_after { log.new ≡ log_after marks.now carry.old pdu.old log.old self }
    {
        match modes::look_up(self.mode, self.stream) {
            Listing::Listed(m) => receive_listed(self, m, carry, pdu, marks, log),
            Listing::Refused(_) => refused(self, 1, 0),
        }
    }

    // Receives a PDU (document 01, "Receiver"): its header is corrected in place, log words are written from the log's first word on, and
    // what is held stands first in the carry buffer; or it is refused with 1 to 13, or 27, and nothing is changed.
    pub fn receive(self, carry: &mut [u8], pdu: &mut [u8], log: &mut [u32]) -> Received
        ensures value { result ≡ receive_answer [] carry.old pdu.old log.old self }
        ensures carry_after { carry.new ≡ carry_after [] carry.old pdu.old log.old self }
        ensures pdu_after { pdu.new ≡ pdu_after [] carry.old pdu.old log.old self }
        ensures log_after { log.new ≡ log_after [] carry.old pdu.old log.old self }
    {
        let marks = [0u8; 1];
        self.receive_marked(carry, pdu, &marks[..0], log)
    }

    // Marks a PDU lost: note 6 is logged, and the held beginning, the last sequence and the applied services in force are dropped; or it is refused with 1 or
    // 13, and nothing is changed.
    pub fn mark_lost(self, log: &mut [u32]) -> Received
        ensures value { result ≡ lost_answer log.old self }
        ensures log_after { log.new ≡ log_after_lost log.old self }
    {
        match modes::look_up(self.mode, self.stream) {
            Listing::Listed(m) => lose_listed(self, m, log),
            Listing::Refused(_) => refused(self, 1, 0),
        }
    }
}
