// Reading a PDU without a receiver (document 01, "Reading without a receiver"), on `correction`, `contents`, `expansion`, `modes` and `refusal`.
#![tactic(auto)]

ghost use Rattle.std.specs.Prelude.{◌≡◌, ◌+◌, ◌-◌, ◌<◌, ◌≤◌, true, false, cond, eqb, length};
ghost use Rattle.header.specs.Header.{front_replaced};
ghost use Rattle.refusal.specs.Refusal.{first_of};
ghost use Rattle.layout.specs.Locators.{locator_size};
ghost use Rattle.pdu.specs.Reading.{after_locators, expansion_count, fields_of, mark_at, wrong_locator, wrong_flags, wrong_la, wrong_displacement, any_below, lowest_wrong, reader_tests, wrong_with, filled_to, start_at, length_at, answered, accepted, no_control, refused, listed_reading, judged, reading_by, reading_of, read_pdu};

use correction::Correction;
use expansion::{Expansion, Interpreted};
use layout::ControlWord;
use modes::{Listing, Mode};

// Expansion fields: 0 where not sent or not interpreted.
#[repr(C)]
#[derive(Clone, Copy)]
pub struct ExpansionFields {
    pub class: u8,
    pub program: u8,
    pub displacement: u16,
    pub access: u8,
    pub ptype: u8,
    pub services: u8,
    pub marker: u32,
}

// A part of a PDU.
#[repr(C)]
#[derive(Clone, Copy)]
pub struct Part {
    pub start: u32,
    pub length: u32,
}

// What a PDU holds, or the number it is refused with; every other field is 0 then, but for the wrong locator with 11.
#[repr(C)]
#[derive(Clone, Copy)]
pub struct Reading {
    pub refusal: u32,
    // With refusal 11, the smallest k whose locator is wrong.
    pub wrong: u32,
    pub control: ControlWord,
    pub fields: ExpansionFields,
    pub psd: Part,
    // Each piece's start and length; 0 from NOP on.
    pub starts: [u16; 64],
    pub lengths: [u16; 64],
}

// The place after the locators.
fn after_locators(width: u8, nop: u8) -> u16
    ensures { (result ≡ 14 + locator_size width nop) × (result ≤ 600) }
{
    (14 + layout::locator_size(width, nop) % 1024) as u16
}

// The expansion bytes, if flagged.
fn expansion_of(y: &[u8], width: u8, c: ControlWord) -> Expansion
    ensures { (result.length ≡ expansion_count width c y.now) × (result.length ≤ 16) × (result.values ≡ fields_of width c y.now) }
{
    if c.flag {
        return expansion::read_expansion(y, after_locators(width, c.nop), c.la);
    }
    let none = expansion::nothing(true);
    Expansion {
        length: 0,
        values: none,
    }
}

// What stands before the pieces: the place where PSD begins, after the locators and the expansion bytes; and the program and the applied services, each 0
// where not sent or not interpreted.
#[derive(Clone, Copy)]
pub struct Front {
    pub psd: usize,
    pub program: u8,
    pub services: u8,
}

pub fn read_front(y: &[u8], width: u8, c: ControlWord) -> Front
    ensures psd_value { result.psd ≡ after_locators width c + expansion_count width c y.now }
    ensures program_value { (result.program ≡ (fields_of width c y.now).program) × (result.services ≡ (fields_of width c y.now).services) }
{
    let x = expansion_of(y, width, c);
    let fields = x.values;
    Front {
        psd: after_locators(width, c.nop) as usize + x.length,
        program: fields.program,
        services: fields.services,
    }
}

// The place before piece k: La, or the previous locator.
pub fn mark(y: &[u8], width: u8, c: ControlWord, k: u8) -> u16
    ensures { result ≡ mark_at width c y.now k }
{
    if k == 0 {
        return c.la as u16;
    }
    layout::locator(width, y, k - 1)
}

// Whether locator k is wrong.
fn wrong_locator(y: &[u8], width: u8, c: ControlWord, k: u8) -> bool
    ensures { result ≡ wrong_locator width c y.now k }
{
    let l = layout::locator(width, y, k) as usize;
    let before = mark(y, width, c, k) as usize;
    if l < before + 1 + 1 {
        return true;
    }
    y.len() <= l
}

// Pfirst or Plast with NOP 0.
fn wrong_flags(c: ControlWord) -> bool
    ensures { result ≡ wrong_flags c }
{
    let nop = c.nop;
    if 0 < nop {
        return false;
    }
    c.pfirst | c.plast
}

// La before the last locator byte, or not below the length.
fn wrong_la(y: &[u8], width: u8, c: ControlWord) -> bool
    ensures { result ≡ wrong_la width c y.now }
{
    let la = c.la as usize;
    if la + 1 < after_locators(width, c.nop) as usize {
        return true;
    }
    y.len() <= la
}

// A displacement that was sent, before the last piece's end or not below the length.
fn wrong_displacement(y: &[u8], width: u8, c: ControlWord, x: Interpreted) -> bool
    ensures { result ≡ wrong_displacement width c y.now x }
{
    if x.displaced {
        if x.displacement < mark(y, width, c, c.nop) {
            return true;
        }
        return y.len() <= x.displacement as usize;
    }
    false
}

// The smallest k whose locator is wrong, or NOP where none is.
fn first_wrong(y: &[u8], width: u8, c: ControlWord) -> u8
    ensures { result ≡ lowest_wrong width c y.now }
{
    for k in 0..c.nop {
        if wrong_locator(y, width, c, k) {
            return k;
        }
    }
    c.nop
}

// A refusal number from 7 to 12 or 0, and with 11 the smallest k whose locator is wrong.
#[derive(Clone, Copy)]
pub struct Verdict {
    pub number: u32,
    pub wrong: u8,
}

fn plain(number: u32) -> Verdict
    ensures { (result.number ≡ number) × (result.wrong ≡ 0) }
{
    Verdict {
        number: number,
        wrong: 0,
    }
}

// The lowest number from 7 to 12 that applies.
pub fn judge(y: &[u8], c: ControlWord, m: Mode) -> Verdict
    ensures number_value { result.number ≡ first_of (reader_tests m c y.now) }
    ensures wrong_value { result.wrong ≡ wrong_with m.width c y.now result.number }
{
    if m.sequences <= c.sequence {
        return plain(7);
    }
    if wrong_flags(c) {
        return plain(8);
    }
    if wrong_la(y, m.width, c) {
        return plain(9);
    }
    let x = expansion_of(y, m.width, c);
    let fields = x.values;
    if !fields.right {
        return plain(10);
    }
    let k = first_wrong(y, m.width, c);
    if k < c.nop {
        return Verdict {
            number: 11,
            wrong: k,
        };
    }
    if wrong_displacement(y, m.width, c, fields) {
        return plain(12);
    }
    plain(0)
}

// Each piece's start and length; 0 from NOP on.
#[derive(Clone, Copy)]
struct Spans {
    starts: [u16; 64],
    lengths: [u16; 64],
}

fn piece_spans(y: &[u8], width: u8, c: ControlWord) -> Spans
    requires nop_bound { c.nop < 64 }
    requires y_value { any_below c.nop (wrong_locator width c y.now) ≡ false }
    ensures starts_value { result.starts ≡ filled_to c.nop (start_at width c y.now) }
    ensures lengths_value { result.lengths ≡ filled_to c.nop (length_at width c y.now) }
{
    let mut starts = [0u16; 64];
    let mut lengths = [0u16; 64];
    for k in 0..c.nop {
        let l = layout::locator(width, y, k);
        let before = mark(y, width, c, k);
        let i = usize::from(k);
        starts[i] = before + 1;
        lengths[i] = l - (before + 1);
    }
    Spans {
        starts: starts,
        lengths: lengths,
    }
}

fn answered_fields(x: Interpreted) -> ExpansionFields
    ensures { result ≡ answered x }
{
    ExpansionFields {
        class: x.class,
        program: x.program,
        displacement: x.displacement,
        access: x.access,
        ptype: x.ptype,
        services: x.services,
        marker: x.marker,
    }
}

// The PSD, from a place to La.
fn psd_part(start: u16, la: u8) -> Part
    requires { start ≤ 1000 }
    ensures { (result.start ≡ start) × (result.length ≡ la + 1 - start) }
{
    let from = start as u32;
    let end = la as u32 + 1;
    if end < from {
        return Part {
            start: from,
            length: 0,
        };
    }
    Part {
        start: from,
        length: end - from,
    }
}

// What an accepted PDU holds.
fn accepted_reading(y: &[u8], width: u8, c: ControlWord) -> Reading
    requires nop_bound { c.nop < 64 }
    requires y_value { any_below c.nop (wrong_locator width c y.now) ≡ false }
    ensures { result ≡ accepted width c y.now }
{
    let x = expansion_of(y, width, c);
    let v = x.values;
    let fields = answered_fields(v);
    let start = after_locators(width, c.nop) + x.length as u16;
    let psd = psd_part(start, c.la);
    let spans = piece_spans(y, width, c);
    let starts = spans.starts;
    let lengths = spans.lengths;
    Reading {
        refusal: 0,
        wrong: 0,
        control: c,
        fields: fields,
        psd: psd,
        starts: starts,
        lengths: lengths,
    }
}

fn no_control() -> ControlWord
    ensures { result ≡ no_control }
{
    ControlWord {
        mode: 0,
        stream: 0,
        sequence: 0,
        blend: 0,
        gain: 0,
        common: 0,
        latency: 0,
        pfirst: false,
        plast: false,
        start: 0,
        nop: 0,
        flag: false,
        la: 0,
    }
}

// A refusal with its number, and k where it is 11.
pub fn refused_reading(number: u32, k: u32) -> Reading
    ensures { result ≡ refused number k }
{
    let none = expansion::nothing(true);
    let fields = answered_fields(none);
    let control = no_control();
    Reading {
        refusal: number,
        wrong: k,
        control: control,
        fields: fields,
        psd: Part {
            start: 0,
            length: 0,
        },
        starts: [0; 64],
        lengths: [0; 64],
    }
}

// What a corrected PDU of a mode holds, or its refusal from 7 to 12.
fn read_listed(y: &[u8], c: ControlWord, m: Mode) -> Reading
    requires { c.nop < 64 }
    ensures { result ≡ listed_reading m c y.now }
{
    let v = judge(y, c, m);
    if v.number == 0 {
        return accepted_reading(y, m.width, c);
    }
    refused_reading(v.number, v.wrong as u32)
}

// What a corrected PDU holds, or its refusal from 5 on.
fn read_corrected(y: &[u8]) -> Reading
    ensures { result ≡ reading_by y.now (judged y.now) }
{
    let c = layout::control_word(y);
    let listing = modes::look_up(c.mode, c.stream);
    match listing {
        Listing::Listed(m) => read_listed(y, c, m),
        Listing::Refused(n) => refused_reading(n, 0),
    }
}

// Reads a corrected PDU; where it is refused, the header that it had before is put back.
fn read_or_restore(pdu: &mut [u8], before: &[u8; 96]) -> Reading
    ensures value { result ≡ reading_by pdu.old (judged pdu.old) }
    ensures pdu_after { pdu.new ≡ cond (eqb (judged pdu.old) 0) pdu.old (front_replaced pdu.old before.now) }
{
    let r = read_corrected(pdu);
    if r.refusal == 0 {
        return r;
    }
    header::put_front(pdu, before);
    r
}

// Reads a PDU without a receiver: its header is corrected in place, or it is refused with 3 to 5 or 7 to 12 and left as it was.
pub fn read(pdu: &mut [u8]) -> Reading
    ensures value { result ≡ reading_of pdu.old }
    ensures pdu_after { pdu.new ≡ read_pdu pdu.old }
{
    let before = header::header_of(pdu);
    let answer = correction::correct(pdu);
    match answer {
        Correction::Corrected(_) => read_or_restore(pdu, &before),
        Correction::Refused(n) => refused_reading(n, 0),
    }
}
