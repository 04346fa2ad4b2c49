// CRC-8 with the divisor x^8 + x^5 + x^4 + 1, top bit of each byte first (document 01, "Expansion, PSD, pieces"); it stands on `bits` alone.
#![tactic(auto)]

ghost use Rattle.std.specs.Prelude.{◌≡◌, cond, ◌+◌, ◌-◌, ◌%◌, ◌<◌, ◌≤◌, eqb, length, drop};
ghost use Rattle.crc.specs.Crc.{crc_from};
ghost use Rattle.crc.specs.Ring.{word_at, push_high, push_low, next_high, next_low, far_high, far_low, shifts, red, val, horner, folded};

// Eight bytes from a place on, the first highest.
fn word(bytes: &[u8], i: usize) -> u64
    requires { i + 8 ≤ length bytes.now }
    ensures { result ≡ word_at bytes.now i }
{
    let a = u64::from(bytes[i + 7]) | (u64::from(bytes[i + 6]) * 256);
    let b = a | (u64::from(bytes[i + 5]) * 65536);
    let c = b | (u64::from(bytes[i + 4]) * 16777216);
    let d = c | (u64::from(bytes[i + 3]) * 4294967296);
    let e = d | (u64::from(bytes[i + 2]) * 1099511627776);
    let f = e | (u64::from(bytes[i + 1]) * 281474976710656);
    f | (u64::from(bytes[i]) * 72057594037927936)
}

fn push_high(h: u64, l: u64) -> u64
    ensures { (result ≡ push_high h l) × (result < 18446744073709551616) }
{
    h % 72057594037927936 * 256 + l / 72057594037927936
}

fn push_low(h: u64, l: u64, b: u8) -> u64
    ensures { (result ≡ push_low h l b) × (result < 18446744073709551616) }
{
    (l % 72057594037927936 * 256 + u64::from(b)) ^ (h / 72057594037927936 * 2)
}

fn next_high(h: u64, l: u64, a: u64) -> u64
    ensures { (result ≡ next_high h l a) × (result < 18446744073709551616) }
{
    (h % 9223372036854775808 * 2 + l / 9223372036854775808) ^ a
}

fn next_low(h: u64, l: u64, b: u64) -> u64
    ensures { (result ≡ next_low h l b) × (result < 18446744073709551616) }
{
    (l % 9223372036854775808 * 2) ^ (h / 9223372036854775808 * 2) ^ b
}

fn far_high(h: u64, l: u64, a: u64) -> u64
    ensures { (result ≡ far_high h l a) × (result < 18446744073709551616) }
{
    (h % 4611686018427387904 * 4 + l / 4611686018427387904) ^ a
}

fn far_low(h: u64, l: u64, b: u64) -> u64
    ensures { (result ≡ far_low h l b) × (result < 18446744073709551616) }
{
    (l % 4611686018427387904 * 4) ^ (h / 4611686018427387904 * 2) ^ b
}

// 128 bits as 64: x^64 is x^40 + x^32 + 1, and what passes x^64 by that is folded again.
fn fold64(h: u64, l: u64) -> u64
    ensures { (result ≡ folded 32 32 24 40 h l) × (result < 18446744073709551616) }
{
    let a = (h / 16777216) ^ (h / 4294967296);
    let b = (a / 16777216) ^ (a / 4294967296);
    let g = h ^ a ^ b;
    l ^ (g ^ (g % 4294967296 * 4294967296) ^ (g % 16777216 * 1099511627776))
}

// 64 bits as 32: x^32 is x^20 + x^16 + 1.
fn fold32(h: u64, l: u64) -> u64
    requires { (h < 4294967296) × (l < 4294967296) }
    ensures { (result ≡ folded 16 16 12 20 h l) × (result < 4294967296) }
{
    let a = (h / 4096) ^ (h / 65536);
    let b = (a / 4096) ^ (a / 65536);
    let g = h ^ a ^ b;
    l ^ (g ^ (g % 65536 * 65536) ^ (g % 4096 * 1048576))
}

// 32 bits as 16: x^16 is x^10 + x^8 + 1.
fn fold16(h: u64, l: u64) -> u64
    requires { (h < 65536) × (l < 65536) }
    ensures { (result ≡ folded 8 8 6 10 h l) × (result < 65536) }
{
    let a = (h / 64) ^ (h / 256);
    let b = (a / 64) ^ (a / 256);
    let g = h ^ a ^ b;
    l ^ (g ^ (g % 256 * 256) ^ (g % 64 * 1024))
}

// 16 bits as 8: x^8 is x^5 + x^4 + 1.
fn fold8(h: u64, l: u64) -> u64
    requires { (h < 256) × (l < 256) }
    ensures { (result ≡ folded 4 4 3 5 h l) × (result < 256) }
{
    let a = (h / 8) ^ (h / 16);
    let b = (a / 8) ^ (a / 16);
    let g = h ^ a ^ b;
    l ^ (g ^ (g % 16 * 16) ^ (g % 8 * 32))
}

// 64 bits modulo the divisor.
fn reduced64(w: u64) -> u8
    ensures { result ≡ red 64 w }
{
    let d = fold32(w / 4294967296, w % 4294967296);
    let s = fold16(d / 65536, d % 65536);
    fold8(s / 256, s % 256) as u8
}

// 128 bits modulo the divisor.
fn reduced(h: u64, l: u64) -> u8
    ensures { result ≡ val h l }
{
    reduced64(fold64(h, l))
}

// The CRC of the sixteen bytes of 128 bits: those times x^8, modulo the divisor.
fn finish(h: u64, l: u64) -> u8
    ensures { result ≡ shifts 8 (val h l) }
{
    reduced(push_high(h, l), push_low(h, l, 0))
}

// The CRC of 128 bits and of the bytes from a place on, 32 bytes a turn.
fn by_32(mut h: u64, mut l: u64, bytes: &[u8], from: usize) -> u8
    requires { (from ≤ length bytes.now) × ((length bytes.now - from) % 32 ≡ 0) }
    ensures { result ≡ shifts 8 (horner (val h l) (drop from bytes.now)) }
{
    for k in 0..(bytes.len() - from) / 32 {
        let i = from + 32 * k;
        let a = word(bytes, i);
        let b = word(bytes, i + 8);
        let c = next_high(a, b, word(bytes, i + 16));
        let d = next_low(a, b, word(bytes, i + 24));
        let x = far_high(h, l, c);
        l = far_low(h, l, d);
        h = x;
    }
    finish(h, l)
}

// The same where the bytes are a multiple of 16: 16 bytes if they are no multiple of 32, and then those.
fn by_16(h: u64, l: u64, bytes: &[u8], from: usize) -> u8
    requires { (from ≤ length bytes.now) × ((length bytes.now - from) % 16 ≡ 0) }
    ensures { result ≡ shifts 8 (horner (val h l) (drop from bytes.now)) }
{
    if (bytes.len() - from) % 32 == 0 {
        return by_32(h, l, bytes, from);
    }
    let a = word(bytes, from);
    let b = word(bytes, from + 8);
    by_32(next_high(h, l, a), next_low(h, l, b), bytes, from + 16)
}

// The same where the bytes up to a multiple of 16, taken one by one, are any number.
fn by_1(mut h: u64, mut l: u64, bytes: &[u8], from: usize) -> u8
    requires { from ≤ length bytes.now % 16 }
    ensures { result ≡ shifts 8 (horner (val h l) (drop from bytes.now)) }
{
    let head = bytes.len() % 16;
    for i in from..head {
        let x = push_high(h, l);
        l = push_low(h, l, bytes[i]);
        h = x;
    }
    by_16(h, l, bytes, head)
}

// The register after fewer than eight bytes, from any start: both fit in 64 bits.
fn few(start: u8, bytes: &[u8]) -> u8
    requires { length bytes.now < 8 }
    ensures { result ≡ crc_from start bytes.now }
{
    let mut w = u64::from(start);
    for b in bytes {
        w = (w ^ u64::from(*b)) * 256;
    }
    reduced64(w)
}

// The upper half of 128 bits that begin with h, and with the first eight bytes where the others are taken from place 8 on. Eight bytes below 128 bits are
// sixteen below the upper half of these, of which the lower half is eight.
fn first_high(h: u64, from: usize) -> u64
    ensures { result ≡ cond (eqb from 0) h (next_high 0 h 0) }
{
    if from == 0 {
        return h;
    }
    next_high(0, h, 0)
}

// The lower half.
fn first_low(h: u64, bytes: &[u8], from: usize) -> u64
    requires { 8 ≤ length bytes.now }
    ensures { result ≡ cond (eqb from 0) 0 (next_low 0 h (word_at bytes.now 0)) }
{
    if from == 0 {
        return 0;
    }
    next_low(0, h, word(bytes, 0))
}

// The register after all bytes, from any start: bits that stand for x^119 times the start have it as their CRC, as x^127 is 1. Of the bytes up to a multiple
// of 16, the first eight are taken at once.
pub fn crc8_from(start: u8, bytes: &[u8]) -> u8
    ensures { result ≡ crc_from start bytes.now }
{
    if bytes.len() < 8 {
        return few(start, bytes);
    }
    let h = u64::from(start) * 36028797018963968;
    let from = bytes.len() % 16 / 8 * 8;
    by_1(first_high(h, from), first_low(h, bytes, from), bytes, from)
}

// The CRC-8 of the bytes: the register starts at 0.
pub fn crc8(bytes: &[u8]) -> u8
    ensures { result ≡ crc_from 0 bytes.now }
{
    crc8_from(0, bytes)
}
