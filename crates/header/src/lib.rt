// The header code: syndromes, and parity by division with the generator (document 01, "Header code"); on `field` and `algebra`.
#![tactic(auto)]

ghost use Rattle.std.specs.Prelude.{◌≡◌, map, ◌+◌, ◌/◌, ◌%◌, ◌<◌, ◌≤◌, length, get_or, take, drop};
ghost use Rattle.field.specs.Field.{pow, times_a, Powers, Logarithms};
ghost use Rattle.header.specs.Horner.{points, horner_at, horner_step, values};
ghost use Rattle.header.specs.Packed.{pack, unpacked, low_coefficients, times_all, left_of, LeftOver};
ghost use Rattle.header.specs.Header.{syndromes as syndromes_of, distance, exponents, divide_step, parity_of, header_of, all_zero, is_code_word, front_replaced, length_refusal, with_parity};

// The exponents of the generator's nine coefficients, the constant's first.
const EXPONENTS: [u8; 9] = [36, 203, 3, 220, 253, 211, 240, 176, 0];

// The points of the eight sums S1 to S8: a to the powers 1 to 8.
const POINTS: [u8; 8] = [2, 4, 8, 16, 32, 64, 128, 29];

// The point of entry k of the sums.
fn point(k: usize) -> u8
    requires { k < 8 }
    ensures { result ≡ get_or points k 0 }
{
    POINTS[k]
}

// Entry k of the sums with byte b below: the entry times its point, plus b.
fn horner(powers: &[u8; 510], logarithms: &[u8; 256], s: [u8; 8], b: u8, k: usize) -> u8
    requires powers { Powers powers.now }
    requires logarithms { Logarithms logarithms.now }
    requires k_bound { k < 8 }
    ensures { result ≡ horner_at s b k }
{
    b ^ field::product_by(powers, logarithms, s[k], point(k))
}

// The eight sums with byte b below.
fn horner_step(powers: &[u8; 510], logarithms: &[u8; 256], s: [u8; 8], b: u8) -> [u8; 8]
    requires powers { Powers powers.now }
    requires logarithms { Logarithms logarithms.now }
    ensures { result ≡ horner_step s b }
{
    [
        horner(powers, logarithms, s, b, 0),
        horner(powers, logarithms, s, b, 1),
        horner(powers, logarithms, s, b, 2),
        horner(powers, logarithms, s, b, 3),
        horner(powers, logarithms, s, b, 4),
        horner(powers, logarithms, s, b, 5),
        horner(powers, logarithms, s, b, 6),
        horner(powers, logarithms, s, b, 7),
    ]
}

// The eight sums of eight bytes by Horner's rule, from the last down.
fn sums(powers: &[u8; 510], logarithms: &[u8; 256], bytes: &[u8]) -> [u8; 8]
    requires powers { Powers powers.now }
    requires logarithms { Logarithms logarithms.now }
    requires bytes_len { length bytes.now ≡ 8 }
    ensures { result ≡ values bytes.now }
{
    let mut s = [0u8; 8];
    for i in (0..8).rev() {
        let next = horner_step(powers, logarithms, s, bytes[i]);
        s = next;
    }
    s
}

// The exponent of the generator's coefficient k.
fn exponent(k: usize) -> usize
    requires { k < 9 }
    ensures { (result ≡ get_or exponents k 0) × (result < 256) }
{
    usize::from(EXPONENTS[k])
}

// A byte as a number of 64 bits.
pub fn wide(b: u8) -> u64
    ensures { (result ≡ b) × (result < 256) }
{
    b as u64
}

// The generator's coefficient k.
fn coefficient(powers: &[u8; 510], k: usize) -> u64
    requires powers { Powers powers.now }
    requires k_bound { k < 9 }
    ensures { (result ≡ pow (get_or exponents k 0)) × (result < 256) }
{
    wide(powers[exponent(k)])
}

// The generator's low eight coefficients, packed.
fn coefficients(powers: &[u8; 510]) -> u64
    requires { Powers powers.now }
    ensures { result ≡ pack low_coefficients }
{
    coefficient(powers, 0)
        + coefficient(powers, 1) * 256
        + coefficient(powers, 2) * 65536
        + coefficient(powers, 3) * 16777216
        + coefficient(powers, 4) * 4294967296
        + coefficient(powers, 5) * 1099511627776
        + coefficient(powers, 6) * 281474976710656
        + coefficient(powers, 7) * 72057594037927936
}

// X^8 modulo the generator, packed: its low coefficients, as the one at X^8 is 1.
fn x8() -> u64
    ensures { unpacked result ≡ left_of 0 }
{
    let powers = field::powers();
    coefficients(&powers)
}

// Each of the eight bytes of a word times a: bits 0 to 6 move up by one, and bit 7 becomes a^8.
fn doubled(w: u64) -> u64
    ensures { unpacked result ≡ map times_a (unpacked w) }
{
    ((w & 0x7f7f7f7f7f7f7f7f) * 2) ^ ((w & 0x8080808080808080) / 128 * 29)
}

// Each of the eight bytes of a word times n, a number of four bits.
fn by_half(w: u64, n: u64) -> u64
    requires { n < 16 }
    ensures { unpacked result ≡ times_all n (unpacked w) }
{
    let b = doubled(w);
    let c = doubled(b);
    let d = doubled(c);
    match n {
        0 => 0,
        1 => w,
        2 => b,
        3 => b ^ w,
        4 => c,
        5 => c ^ w,
        6 => c ^ b,
        7 => c ^ b ^ w,
        8 => d,
        9 => d ^ w,
        10 => d ^ b,
        11 => d ^ b ^ w,
        12 => d ^ c,
        13 => d ^ c ^ w,
        14 => d ^ c ^ b,
        _ => d ^ c ^ b ^ w,
    }
}

// Each of the eight bytes of a word times a byte.
pub fn by_byte(w: u64, b: u64) -> u64
    requires { b < 256 }
    ensures { unpacked result ≡ times_all b (unpacked w) }
{
    let high = doubled(doubled(doubled(doubled(w))));
    by_half(w, b % 16) ^ by_half(high, b / 16)
}

// X times a packed remainder, modulo the generator.
fn next(r: u64) -> u64
    ensures { unpacked result ≡ divide_step (unpacked r) 0 }
{
    (r % 72057594037927936 * 256) ^ by_byte(x8(), r / 72057594037927936)
}

// Eight bytes of a header from byte i on, packed.
pub fn word(header: &[u8], i: usize) -> u64
    requires { i + 8 ≤ length header.now }
    ensures { unpacked result ≡ take 8 (drop i header.now) }
{
    let a = wide(header[i]) | (wide(header[i + 1]) * 256);
    let b = a | (wide(header[i + 2]) * 65536);
    let c = b | (wide(header[i + 3]) * 16777216);
    let d = c | (wide(header[i + 4]) * 4294967296);
    let e = d | (wide(header[i + 5]) * 1099511627776);
    let f = e | (wide(header[i + 6]) * 281474976710656);
    f | (wide(header[i + 7]) * 72057594037927936)
}

// X^8 times v modulo the generator, packed: byte k of v times X^(8 + k), from those of a to h.
fn step(a: u64, b: u64, c: u64, d: u64, e: u64, f: u64, g: u64, h: u64, v: u64) -> u64
    requires a_value { (unpacked a ≡ left_of 0) × (unpacked b ≡ left_of 1) × (unpacked c ≡ left_of 2) × (unpacked d ≡ left_of 3) }
    requires e_value { (unpacked e ≡ left_of 4) × (unpacked f ≡ left_of 5) × (unpacked g ≡ left_of 6) × (unpacked h ≡ left_of 7) }
    ensures { LeftOver result (unpacked v) }
{
    by_byte(a, v % 256)
        ^ by_byte(b, v / 256 % 256)
        ^ by_byte(c, v / 65536 % 256)
        ^ by_byte(d, v / 16777216 % 256)
        ^ by_byte(e, v / 4294967296 % 256)
        ^ by_byte(f, v / 1099511627776 % 256)
        ^ by_byte(g, v / 281474976710656 % 256)
        ^ by_byte(h, v / 72057594037927936 % 256)
}

// The remainder of bytes 8 to 95 by the generator, packed: eight bytes a step, the highest first.
fn remainder(header: &[u8]) -> u64
    requires { length header.now ≡ 96 }
    ensures { unpacked result ≡ parity_of header.now }
{
    let a = x8();
    let b = next(a);
    let c = next(b);
    let d = next(c);
    let e = next(d);
    let f = next(e);
    let g = next(f);
    let h = next(g);
    let mut r: u64 = 0;
    for k in (1..12).rev() {
        let v = r ^ word(header, 8 * k);
        r = step(a, b, c, d, e, f, g, h, v);
    }
    r
}

// Byte k of a packed register, by the power of 256 there.
fn byte_from(r: u64, unit: u64) -> u8
    requires { 0 < unit }
    ensures { result ≡ r / unit % 256 }
{
    (r / unit % 256) as u8
}

// The eight bytes of a packed register.
pub fn unpack(r: u64) -> [u8; 8]
    ensures { result ≡ unpacked r }
{
    [
        byte_from(r, 1),
        byte_from(r, 256),
        byte_from(r, 65536),
        byte_from(r, 16777216),
        byte_from(r, 4294967296),
        byte_from(r, 1099511627776),
        byte_from(r, 281474976710656),
        byte_from(r, 72057594037927936),
    ]
}

// The parity of a header, by division with the generator.
pub fn parity(header: &[u8; 96]) -> [u8; 8]
    ensures { result ≡ parity_of header.now }
{
    let r = remainder(header);
    unpack(r)
}

// The remainder of a header by the generator: its parity bytes plus what they should be. It has the header's syndromes.
fn rest(header: &[u8]) -> [u8; 8]
    requires { length header.now ≡ 96 }
    ensures { values result ≡ syndromes_of header.now }
{
    unpack(word(header, 0) ^ remainder(header))
}

// The eight syndromes of a header, those of its remainder, from the lent tables.
pub fn syndromes_by(powers: &[u8; 510], logarithms: &[u8; 256], header: &[u8; 96]) -> [u8; 8]
    requires powers { Powers powers.now }
    requires logarithms { Logarithms logarithms.now }
    ensures { result ≡ syndromes_of header.now }
{
    let e = rest(header);
    if all_zero(e) {
        return [0; 8];
    }
    sums(powers, logarithms, &e)
}

// The eight syndromes of a header.
pub fn syndromes(header: &[u8; 96]) -> [u8; 8]
    ensures { result ≡ syndromes_of header.now }
{
    let powers = field::powers();
    let logarithms = field::logarithms();
    syndromes_by(&powers, &logarithms, header)
}

// The first 96 bytes of a PDU; a shorter one is filled up with zeros.
pub fn header_of(pdu: &[u8]) -> [u8; 96]
    ensures { result ≡ header_of pdu.now }
{
    let mut header = [0u8; 96];
    for i in 0..pdu.len().min(96) {
        header[i] = pdu[i];
    }
    header
}

// Whether a header is a code word, from the lent tables.
pub fn is_code_word_by(powers: &[u8; 510], logarithms: &[u8; 256], header: &[u8; 96]) -> bool
    requires powers { Powers powers.now }
    requires logarithms { Logarithms logarithms.now }
    ensures { result ≡ is_code_word header.now }
{
    all_zero(syndromes_by(powers, logarithms, header))
}

// Whether eight bytes are all zero.
pub fn all_zero(s: [u8; 8]) -> bool
    ensures { result ≡ all_zero s }
{
    for x in s {
        if x != 0 {
            return false;
        }
    }
    true
}

// In how many of 96 bytes two words differ.
fn differing(u: &[u8], v: &[u8]) -> u32
    requires u_len { length u.now ≡ 96 }
    requires v_len { length v.now ≡ 96 }
    ensures { result ≡ distance u.now v.now }
{
    let mut n = 0;
    for place in 0..96 {
        if u[place] != v[place] {
            n += 1;
        }
    }
    n
}

// In how many bytes two headers differ.
pub fn difference(u: &[u8; 96], v: &[u8; 96]) -> u32
    ensures { result ≡ distance u.now v.now }
{
    differing(u, v)
}

// Copies bytes over the first ones of a PDU, as many as it has room for.
pub fn put_front(pdu: &mut [u8], front: &[u8])
    ensures { pdu.new ≡ front_replaced pdu.old front.now }
{
    for i in 0..front.len().min(pdu.len()) {
        pdu[i] = front[i];
    }
}

// Writes the parity of a PDU into its bytes 0 to 7: 0, or 3 for a length outside 96 to 20,480.
pub fn write_parity(pdu: &mut [u8]) -> u32
    ensures value { result ≡ length_refusal (length pdu.old) }
    ensures pdu_after { pdu.new ≡ with_parity pdu.old }
{
    if pdu.len() < 96 {
        return 3;
    }
    if 20480 < pdu.len() {
        return 3;
    }
    let header = header_of(pdu);
    let p = parity(&header);
    put_front(pdu, &p);
    0
}
