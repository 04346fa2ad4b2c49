// Words of the packet log (document 01, "Receiver"), on `bits` and `buffer`.
#![tactic(auto)]

ghost use Rattle.std.specs.Prelude.{◌≡◌, ◌++◌, ◌+◌, ◌-◌, ◌*◌, ◌/◌, ◌<◌, ◌≤◌, min, length, get_or, drop};
ghost use Rattle.buffer.specs.Buffer.{put_at};
ghost use Rattle.packet_log.specs.Blocks.{four_at, eight_at, block_words};
ghost use Rattle.packet_log.specs.Log.{packet, psd, note, word, data_word, data_word_at, data_words, entry_words, Leaves};

// A word of a kind, from what stands in bits 29-16 and in bits 15-0.
fn word_of(kind: u32, high: u32, low: u32) -> u32
    requires { (kind ≤ 3) × (high ≤ 16383) × (low ≤ 65535) }
    ensures { result ≡ word kind high low }
{
    kind * 0x40000000 + high * 0x10000 + low
}

// Byte i of two slices, one after the other; 0 past them.
fn byte_of(first: &[u8], second: &[u8], i: usize) -> u32
    ensures { (result ≡ get_or (first.now ++ second.now) i 0) × (result < 256) }
{
    if i < first.len() {
        return u32::from(first[i]);
    }
    let j = i - first.len();
    if second.len() <= j {
        return 0;
    }
    u32::from(second[j])
}

// How many of the bytes that are left a data word has.
fn count_of(left: usize) -> u32
    ensures { (result ≡ min 3 left) × (result ≤ 3) }
{
    left.min(3) as u32
}

// The data word of the bytes of two slices from byte i on.
fn data_word(first: &[u8], second: &[u8], i: usize) -> u32
    requires i_in_bounds { i < length first.now + length second.now }
    requires second_len_bound { length first.now + length second.now ≤ 65535 }
    ensures { result ≡ data_word_at (first.now ++ second.now) i }
{
    let left = first.len() + second.len() - i;
    let high = count_of(left) * 0x100 + byte_of(first, second, i);
    let low = byte_of(first, second, i + 1) * 0x100 + byte_of(first, second, i + 2);
    word_of(1, high, low)
}

// The data word of three bytes of a slice from byte i on.
fn full_word(bytes: &[u8], i: usize) -> u32
    requires { i + 3 ≤ length bytes.now }
    ensures { result ≡ data_word 3 (get_or bytes.now i 0) (get_or bytes.now (i + 1) 0) (get_or bytes.now (i + 2) 0) }
{
    0x43000000
        + u32::from(bytes[i]) * 0x10000
        + (u32::from(bytes[i + 1]) * 0x100 + u32::from(bytes[i + 2]))
}

// Four bytes of a slice from byte i on as a number, the first highest.
fn four(bytes: &[u8], i: usize) -> u64
    requires { i + 4 ≤ length bytes.now }
    ensures { (result ≡ four_at bytes.now i) × (result < 4294967296) }
{
    let a = u64::from(bytes[i + 3]) | (u64::from(bytes[i + 2]) * 256);
    let b = a | (u64::from(bytes[i + 1]) * 65536);
    b | (u64::from(bytes[i]) * 16777216)
}

// Eight bytes of a slice from byte i on as a number, the first highest.
fn eight(bytes: &[u8], i: usize) -> u64
    requires { i + 8 ≤ length bytes.now }
    ensures { result ≡ eight_at bytes.now i }
{
    let a = four(bytes, i + 4) | (u64::from(bytes[i + 3]) * 4294967296);
    let b = a | (u64::from(bytes[i + 2]) * 1099511627776);
    let c = b | (u64::from(bytes[i + 1]) * 281474976710656);
    c | (u64::from(bytes[i]) * 72057594037927936)
}

// The data word of three bytes, given as a number.
fn full(v: u64) -> u32
    requires { v < 16777216 }
    ensures { result ≡ 0x43000000 + v }
{
    (0x43000000 + v) as u32
}

// Writes the four data words of twelve bytes, given as eight and four.
fn put_block(log: &mut [u32], at: usize, x: u64, y: u64)
    requires at_in_bounds { at + 4 ≤ length log.old }
    requires y_bound { y < 4294967296 }
    ensures { log.new ≡ put_at log.old at (block_words x y) }
{
    log[at] = full(x / 1099511627776);
    log[at + 1] = full(x / 65536 % 16777216);
    log[at + 2] = full(x % 65536 * 256 + y / 16777216);
    log[at + 3] = full(y % 16777216);
}

// Writes the full data words that a slice has from a byte on, four at a time. Answers how many.
fn put_blocks(log: &mut [u32], at: usize, bytes: &[u8], from: usize) -> usize
    requires from_in_bounds { from ≤ length bytes.now }
    requires bytes_len_bound { length bytes.now ≤ 65535 }
    requires from_in_bounds_2 { at + (length bytes.now - from) / 3 ≤ length log.old }
    ensures result_in_bounds { from + 3 * result ≤ length bytes.now }
    ensures leaves { Leaves log.old at bytes.now from log.new result }
{
    if bytes.len() < from + 12 {
        return 0;
    }
    let last = (bytes.len() - from - 12) / 12;
    let mut x = eight(bytes, from);
    let mut y = four(bytes, from + 8);
    for k in 0..last {
        put_block(&mut *log, at + 4 * k, x, y);
        let i = from + 12 * (k + 1);
        x = eight(bytes, i);
        y = four(bytes, i + 8);
    }
    put_block(&mut *log, at + 4 * last, x, y);
    4 * last + 4
}

// Writes the full data words that a slice has from a byte on, one at a time. Answers how many.
fn put_words(log: &mut [u32], at: usize, bytes: &[u8], from: usize) -> usize
    requires from_in_bounds { from ≤ length bytes.now }
    requires bytes_len_bound { length bytes.now ≤ 65535 }
    requires from_in_bounds_2 { at + (length bytes.now - from) / 3 ≤ length log.old }
    ensures value { result ≡ (length bytes.now - from) / 3 }
    ensures leaves { Leaves log.old at bytes.now from log.new result }
{
    let words = (bytes.len() - from) / 3;
    for k in 0..words {
        log[at + k] = full_word(bytes, from + 3 * k);
    }
    words
}

// Writes the full data words that a slice has from a byte on, whatever follows its bytes. Answers how many.
fn put_full(log: &mut [u32], at: usize, bytes: &[u8], from: usize) -> usize
    requires from_in_bounds { from ≤ length bytes.now }
    requires bytes_len_bound { length bytes.now ≤ 65535 }
    requires from_in_bounds_2 { at + (length bytes.now - from) / 3 ≤ length log.old }
    ensures value { result ≡ (length bytes.now - from) / 3 }
    ensures leaves { Leaves log.old at bytes.now from log.new result }
{
    let blocks = put_blocks(&mut *log, at, bytes, from);
    blocks + put_words(&mut *log, at + blocks, bytes, from + 3 * blocks)
}

// Writes the data word of the bytes of two slices from byte i on, if there is any. Answers how many.
fn put_one(log: &mut [u32], at: usize, first: &[u8], second: &[u8], i: usize) -> usize
    requires second_len_bound { length first.now + length second.now ≤ 65535 }
    requires second_in_bounds { at + length (data_words (drop i (first.now ++ second.now))) ≤ length log.old }
    ensures value { result ≡ min 1 (length first.now + length second.now - i) }
    ensures second_after { put_at log.new (at + result) (data_words (drop (i + 3 * result) (first.now ++ second.now))) ≡ put_at log.old at (data_words (drop i (first.now ++ second.now))) }
{
    if first.len() + second.len() <= i {
        return 0;
    }
    log[at] = data_word(first, second, i);
    1
}

// Writes the data words of the bytes of two slices from a place on: the full ones of the first, one more there, the full ones of the second, and
// one more. Answers how many.
fn put_data(log: &mut [u32], at: usize, first: &[u8], second: &[u8]) -> usize
    requires second_len_bound { length first.now + length second.now ≤ 65535 }
    requires second_in_bounds { at + length (data_words (first.now ++ second.now)) ≤ length log.old }
    ensures value { result ≡ length (data_words (first.now ++ second.now)) }
    ensures log_after { log.new ≡ put_at log.old at (data_words (first.now ++ second.now)) }
{
    let a = put_full(&mut *log, at, first, 0);
    let b = a + put_one(&mut *log, at + a, first, second, 3 * a);
    let i = 3 * b;
    if first.len() + second.len() <= i {
        return b;
    }
    let c = b + put_full(&mut *log, at + b, second, i - first.len());
    c + put_one(&mut *log, at + c, first, second, 3 * c)
}

// The same; where the first has no bytes, those of the second are all in one slice.
fn put_bytes(log: &mut [u32], at: usize, first: &[u8], second: &[u8]) -> usize
    requires second_len_bound { length first.now + length second.now ≤ 65535 }
    requires second_in_bounds { at + length (data_words (first.now ++ second.now)) ≤ length log.old }
    ensures value { result ≡ length (data_words (first.now ++ second.now)) }
    ensures log_after { log.new ≡ put_at log.old at (data_words (first.now ++ second.now)) }
{
    if first.len() == 0 {
        return put_data(log, at, second, first);
    }
    put_data(log, at, first, second)
}

// Writes a packet's entry from a place on; its bytes are those of two slices, one after the other. Answers how many words.
pub fn put_packet(log: &mut [u32], at: usize, number: u8, first: &[u8], second: &[u8]) -> usize
    requires second_len_bound { length first.now + length second.now ≤ 65535 }
    requires second_in_bounds { at + length (entry_words (packet number (first.now ++ second.now))) ≤ length log.old }
    ensures value { result ≡ length (entry_words (packet number (first.now ++ second.now))) }
    ensures log_after { log.new ≡ put_at log.old at (entry_words (packet number (first.now ++ second.now))) }
{
    let length = first.len() + second.len();
    log[at] = word_of(0, u32::from(number), length as u32);
    let n = put_bytes(&mut *log, at + 1, first, second);
    n + 1
}

// Writes a PSD entry from a place on. Answers how many words.
pub fn put_psd(log: &mut [u32], at: usize, bytes: &[u8]) -> usize
    requires bytes_len_bound { length bytes.now ≤ 65535 }
    requires bytes_in_bounds { at + length (entry_words (psd bytes.now)) ≤ length log.old }
    ensures value { result ≡ length (entry_words (psd bytes.now)) }
    ensures log_after { log.new ≡ put_at log.old at (entry_words (psd bytes.now)) }
{
    log[at] = word_of(2, 0, bytes.len() as u32);
    let n = put_bytes(&mut *log, at + 1, &bytes[..0], bytes);
    n + 1
}

// Writes a note of a cause at a piece, one word, at a place. Answers how many words.
pub fn put_note(log: &mut [u32], at: usize, cause: u8, piece: usize) -> usize
    requires piece_bound { piece ≤ 65535 }
    requires piece_in_bounds { at + length (entry_words (note cause piece)) ≤ length log.old }
    ensures value { result ≡ length (entry_words (note cause piece)) }
    ensures log_after { log.new ≡ put_at log.old at (entry_words (note cause piece)) }
{
    log[at] = word_of(3, u32::from(cause), piece as u32);
    1
}
