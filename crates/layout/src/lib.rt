// The control word and the locators of a PDU (document 01, "Control word, bytes 8 to 13"), on `bits` and `buffer`.
#![tactic(auto)]

ghost use Rattle.std.specs.Prelude.{◌≡◌, ◌+◌, ◌*◌, ◌/◌, ◌%◌, ◌<◌, ◌≤◌, length, get_or};
ghost use Rattle.buffer.specs.Buffer.{put_at};
ghost use Rattle.layout.specs.Control.{control_bytes, control_of, control_at};
ghost use Rattle.layout.specs.Locators.{bytes16, bytes12, locator_bytes, locator_size, locator16 as locator16_of, locator12 as locator12_of, locator_at};

// The control word, bytes 8 to 13.
#[repr(C)]
#[derive(Clone, Copy)]
pub struct ControlWord {
    pub mode: u8,
    pub stream: u8,
    pub sequence: u8,
    pub blend: u8,
    // Gain (core) or stream delay (enhanced).
    pub gain: u8,
    pub common: u8,
    pub latency: u8,
    pub pfirst: bool,
    pub plast: bool,
    pub start: u8,
    pub nop: u8,
    pub flag: bool,
    pub la: u8,
}

// Byte i of a PDU; 0 past its end.
pub fn byte_at(pdu: &[u8], i: usize) -> u8
    ensures { result ≡ get_or pdu.now i 0 }
{
    if i < pdu.len() {
        return pdu[i];
    }
    0
}

fn fields(b8: u8, b9: u8, b10: u8, b11: u8, b12: u8, b13: u8) -> ControlWord
    ensures { result ≡ control_of b8 b9 b10 b11 b12 b13 }
{
    ControlWord {
        mode: b8 % 16,
        stream: b8 / 16 % 4,
        sequence: b8 / 64 + 4 * (b9 % 2),
        blend: b9 / 2 % 4,
        gain: b9 / 8,
        common: b10 % 64,
        latency: b10 / 64 + 4 * (b11 % 2),
        pfirst: b11 / 2 % 2 == 1,
        plast: b11 / 4 % 2 == 1,
        start: b11 / 8 + 32 * (b12 % 2),
        nop: b12 / 2 % 64,
        flag: b12 / 128 % 2 == 1,
        la: b13,
    }
}

// The control word of a PDU.
pub fn control_word(pdu: &[u8]) -> ControlWord
    ensures { result ≡ control_at pdu.now }
{
    fields(
        byte_at(pdu, 8),
        byte_at(pdu, 9),
        byte_at(pdu, 10),
        byte_at(pdu, 11),
        byte_at(pdu, 12),
        byte_at(pdu, 13),
    )
}

fn byte8(mode: u8, stream: u8, sequence: u8) -> u8
    ensures { result ≡ mode % 16 + 16 * (stream % 4) + 64 * (sequence % 4) }
{
    mode % 16 + 16 * (stream % 4) + 64 * (sequence % 4)
}

fn byte9(sequence: u8, blend: u8, gain: u8) -> u8
    ensures { result ≡ sequence / 4 % 2 + 2 * (blend % 4) + 8 * (gain % 32) }
{
    sequence / 4 % 2 + 2 * (blend % 4) + 8 * (gain % 32)
}

fn byte10(common: u8, latency: u8) -> u8
    ensures { result ≡ common % 64 + 64 * (latency % 4) }
{
    common % 64 + 64 * (latency % 4)
}

fn byte11(latency: u8, pfirst: u8, plast: u8, start: u8) -> u8
    requires { (pfirst < 2) × (plast < 2) }
    ensures { result ≡ latency / 4 % 2 + 2 * pfirst + 4 * plast + 8 * (start % 32) }
{
    latency / 4 % 2 + 2 * pfirst + 4 * plast + 8 * (start % 32)
}

fn byte12(start: u8, nop: u8, flag: u8) -> u8
    requires { flag < 2 }
    ensures { result ≡ start / 32 % 2 + 2 * (nop % 64) + 128 * flag }
{
    start / 32 % 2 + 2 * (nop % 64) + 128 * flag
}

// Bytes 8 to 13 of a control word.
pub fn control_bytes(c: ControlWord) -> [u8; 6]
    ensures { result ≡ control_bytes c }
{
    let pfirst = u8::from(c.pfirst);
    let plast = u8::from(c.plast);
    let flag = u8::from(c.flag);
    [
        byte8(c.mode, c.stream, c.sequence),
        byte9(c.sequence, c.blend, c.gain),
        byte10(c.common, c.latency),
        byte11(c.latency, pfirst, plast, c.start),
        byte12(c.start, c.nop, flag),
        c.la,
    ]
}

#[tactic(auto, unfolding(crate::specs::Locators::locator16))]
fn locator16(pdu: &[u8], k: usize) -> u16
    requires { k < 256 }
    ensures { result ≡ locator16_of pdu.now k }
{
    let low = u16::from(byte_at(pdu, 14 + 2 * k));
    let high = u16::from(byte_at(pdu, 15 + 2 * k));
    low + 256 * high
}

#[tactic(auto, unfolding(crate::specs::Locators::locator12))]
fn locator12(pdu: &[u8], k: usize) -> u16
    requires { k < 256 }
    ensures { result ≡ locator12_of pdu.now k }
{
    let middle = u16::from(byte_at(pdu, 15 + 3 * (k / 2)));
    if k % 2 == 0 {
        let low = u16::from(byte_at(pdu, 14 + 3 * (k / 2)));
        return low + 256 * (middle % 16);
    }
    let high = u16::from(byte_at(pdu, 16 + 3 * (k / 2)));
    middle / 16 + 16 * high
}

// Locator k of a PDU, k from 0.
pub fn locator(width: u8, pdu: &[u8], k: u8) -> u16
    ensures { result ≡ locator_at width pdu.now k }
{
    if width == 16 {
        return locator16(pdu, usize::from(k));
    }
    locator12(pdu, usize::from(k))
}

// The low eight bits of a number from a place on, by the power of two there.
fn byte_from(x: u16, unit: u16) -> u8
    requires { 0 < unit }
    ensures { result ≡ x / unit % 256 }
{
    (x / unit % 256) as u8
}

// The top four bits of a locator of 12 bits, with the low four of the next above them.
fn middle(a: u16, b: u16) -> u8
    ensures { result ≡ a / 256 % 16 + 16 * (b % 16) }
{
    (a / 256 % 16 + 16 * (b % 16)) as u8
}

fn put_locators16(pdu: &mut [u8], locators: &[u16])
    requires { 14 + 2 * length locators.now ≤ length pdu.old }
    ensures { pdu.new ≡ put_at pdu.old 14 (bytes16 locators.now) }
{
    for (k, a) in locators.iter().enumerate() {
        pdu[14 + 2 * k] = byte_from(*a, 1);
        pdu[15 + 2 * k] = byte_from(*a, 256);
    }
}

fn put_locators12(pdu: &mut [u8], locators: &[u16])
    requires { 28 + 3 * length locators.now ≤ 2 * length pdu.old }
    ensures { pdu.new ≡ put_at pdu.old 14 (bytes12 locators.now) }
{
    let pairs = locators.len() / 2;
    for j in 0..pairs {
        let a = locators[2 * j];
        let b = locators[2 * j + 1];
        pdu[14 + 3 * j] = byte_from(a, 1);
        pdu[15 + 3 * j] = middle(a, b);
        pdu[16 + 3 * j] = byte_from(b, 16);
    }
    if locators.len() % 2 == 0 {
        return;
    }
    let last = locators[2 * pairs];
    pdu[14 + 3 * pairs] = byte_from(last, 1);
    pdu[15 + 3 * pairs] = middle(last, 0);
}

// Writes the locators into a PDU, from byte 14 on.
pub fn put_locators(width: u8, pdu: &mut [u8], locators: &[u16])
    requires { 14 + locator_size width (length locators.now) ≤ length pdu.old }
    ensures { pdu.new ≡ put_at pdu.old 14 (locator_bytes width locators.now) }
{
    if width == 16 {
        put_locators16(pdu, locators);
        return;
    }
    put_locators12(pdu, locators);
}

// How many bytes n locators take.
pub fn locator_size(width: u8, n: u8) -> usize
    ensures { result ≡ locator_size width n }
{
    if width == 16 {
        return (16 * usize::from(n) + 7) / 8;
    }
    (12 * usize::from(n) + 7) / 8
}
