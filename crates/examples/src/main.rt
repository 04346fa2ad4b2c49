// Runs the examples of document 01 on the proved code, `writer`, `packet_log` and what these stand on, and writes through `host` what it answers.
#![tactic(auto)]

ghost use Rattle.std.specs.Prelude.{◌≡◌, ◌≤◌, length};

use correction::Correction;
use host::{Host, STDOUT};
use layout::ControlWord;
use settings::Settings;
use writer::Writer;

const EXPONENTS: [usize; 9] = [36, 203, 3, 220, 253, 211, 240, 176, 0];

fn main(rt: HostRuntime) {
    let host = &Host::new(rt);
    control_line(host);
    locators_line(
        host,
        b"(b) 2C 01 BC 02 read in 16 bits:",
        16,
        b"\0\0\0\0\0\0\0\0\0\0\0\0\0\0\x2c\x01\xbc\x02",
    );
    locators_line(
        host,
        b"(c) 2C C1 2B read in 12 bits:",
        12,
        b"\0\0\0\0\0\0\0\0\0\0\0\0\0\0\x2c\xc1\x2b",
    );
    crc_line(host, b"(d) CRC of 01: ", b"\x01");
    crc_line(host, b"(e) CRC of 80: ", b"\x80");
    crc_line(host, b"(f) CRC of 01 00: ", b"\x01\x00");
    generator_line(host);
    choices_line(
        host,
        b"(h) four of the nine zeroed, choices corrected to the generator in 4 bytes: ",
        4,
        0,
    );
    choices_line(
        host,
        b"(i) five of the nine zeroed, choices corrected to all zero in 4 bytes: ",
        5,
        511,
    );
    writing_lines(host);
    log_line(host);
    length_line(host);
}

fn say(host: &Host, text: &[u8]) {
    host.write_all(STDOUT, text);
}

fn end_line(host: &Host) {
    say(host, b"\n");
}

fn hex_byte(host: &Host, b: u8) {
    say(host, b" ");
    host.print_hex(STDOUT, u64::from(b), 2);
}

fn hex_word(host: &Host, w: u32) {
    say(host, b" ");
    host.print_hex(STDOUT, u64::from(w), 8);
}

// (a)
fn control_line(host: &Host) {
    let c = ControlWord {
        mode: 0,
        stream: 0,
        sequence: 1,
        blend: 2,
        gain: 0,
        common: 5,
        latency: 4,
        pfirst: true,
        plast: false,
        start: 33,
        nop: 2,
        flag: false,
        la: 17,
    };
    let b = layout::control_bytes(c);
    say(host, b"(a) control word:");
    for x in &b {
        hex_byte(host, *x);
    }
    end_line(host);
}

// (b), (c): the first two locators of a PDU.
fn locators_line(host: &Host, label: &[u8], width: u8, pdu: &[u8]) {
    say(host, label);
    say(host, b" ");
    host.print_decimal(STDOUT, u64::from(layout::locator(width, pdu, 0)));
    say(host, b" ");
    host.print_decimal(STDOUT, u64::from(layout::locator(width, pdu, 1)));
    end_line(host);
}

fn crc_line(host: &Host, label: &[u8], bytes: &[u8]) {
    say(host, label);
    host.print_hex(STDOUT, u64::from(crc::crc8(bytes)), 2);
    end_line(host);
}

// a to the power of an exponent, or 0 where the bit is set.
fn coefficient(bit: u32, exponent: usize) -> u8 {
    if bit == 1 {
        return 0;
    }
    field::power(exponent)
}

// The generator's coefficients in bytes 0 to 8, those of the mask's bits zeroed, the rest zero.
fn generator(mask: u32) -> [u8; 96]
    ensures { 96 ≡ length result }
{
    let mut word = [0u8; 96];
    let mut rest = mask;
    for (i, e) in EXPONENTS.iter().enumerate() {
        word[i] = coefficient(rest % 2, *e);
        rest /= 2;
    }
    word
}

// (g)
fn generator_line(host: &Host) {
    let word = generator(0);
    let s = header::syndromes(&word);
    say(host, b"(g) sums of the generator's coefficients:");
    for x in &s {
        hex_byte(host, *x);
    }
    end_line(host);
}

// Whether the word with the mask's bytes zeroed is corrected in four bytes to the wanted one.
fn corrected_to(mask: u32, wanted: u32) -> bool {
    let mut word = generator(mask);
    match correction::correct(&mut word) {
        Correction::Corrected(n) => n == 4 && word == generator(wanted),
        Correction::Refused(_) => false,
    }
}

// (h), (i): of the masks with this many bits set, how many are corrected to the wanted word.
fn choices_line(host: &Host, label: &[u8], set: u32, wanted: u32) {
    let mut right: u32 = 0;
    let mut all: u32 = 0;
    for mask in 0..512u32 {
        if mask.count_ones() == set {
            all += 1;
            if corrected_to(mask, wanted) {
                right += 1;
            }
        }
    }
    say(host, label);
    host.print_decimal(STDOUT, u64::from(right));
    say(host, b" of ");
    host.print_decimal(STDOUT, u64::from(all));
    end_line(host);
}

fn no_settings() -> Settings {
    Settings {
        blend: 0,
        gain: 0,
        common: 0,
        latency: 0,
        classed: false,
        class: 0,
        programmed: false,
        program: 0,
        displaced: false,
        typed: false,
        access: 0,
        ptype: 0,
        serviced: false,
        services: 0,
        marker: 0,
    }
}

fn number(host: &Host, label: &[u8], n: u64) {
    say(host, label);
    host.print_decimal(STDOUT, n);
}

// The PDU's locators of 16 bits, and its starting number.
fn locators_and_start(host: &Host, pdu: &[u8]) {
    let c = layout::control_word(pdu);
    say(host, b", locators");
    for k in 0..c.nop {
        number(host, b" ", u64::from(layout::locator(16, pdu, k)));
    }
    number(host, b", start ", u64::from(c.start));
    if c.plast {
        say(host, b", Plast");
    }
}

// Writes a PDU of 96 bytes with a PSD of so many bytes, and says what the call answers.
fn writing_line(
    host: &Host,
    label: &[u8],
    w: Writer,
    psd: usize,
    lengths: &[u16],
    count: usize,
) -> Writer
    requires { (psd ≤ 128) × (count ≤ 156) }
{
    let psds = [0u8; 128];
    let bytes = [0u8; 156];
    let mut pdu = [0u8; 96];
    let r = w.write(
        no_settings(),
        &psds[..psd],
        lengths,
        &bytes[..count],
        &mut pdu,
    );
    say(host, label);
    number(host, b" refusal ", u64::from(r.refusal));
    if r.refusal == 0 {
        number(host, b", ended ", u64::from(r.ended));
        number(host, b", sent ", r.writer.sent as u64);
        locators_and_start(host, &pdu);
    }
    end_line(host);
    r.writer
}

// (j) to (m)
fn writing_lines(host: &Host) {
    let one: [u16; 1] = [100];
    let fifty: [u16; 2] = [100, 50];
    let more: [u16; 2] = [100, 56];
    let opened = writer::open(0, 0, 0);
    let next = writing_line(host, b"(j) packet of 100:", opened.writer, 0, &one, 100);
    writing_line(host, b"(k) next, with one of 50:", next, 0, &fifty, 150);
    writing_line(host, b"(l) with 56 instead:", next, 0, &more, 156);
    writing_line(host, b"(m) PSD 78:", opened.writer, 78, &one, 100);
    writing_line(host, b"(m) PSD 79:", opened.writer, 79, &one, 100);
}

// (n)
fn log_line(host: &Host) {
    let mut words = [0u32; 3];
    packet_log::put_packet(&mut words, 0, 5, b"\x11\x22\x33\x44", b"");
    say(host, b"(n) packet 5, bytes 11 22 33 44:");
    for w in &words {
        hex_word(host, *w);
    }
    end_line(host);
}

// (n): length 95
fn length_line(host: &Host) {
    let mut pdu = [0u8; 95];
    let answer = correction::correct(&mut pdu);
    let number = match answer {
        Correction::Corrected(_) => 0,
        Correction::Refused(n) => n,
    };
    say(host, b"(n) length 95: ");
    host.print_decimal(STDOUT, u64::from(number));
    end_line(host);
}
