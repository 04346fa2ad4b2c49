// A running receiver written out as words, and read again (document 02, Ask 13), with its counts (Ask 14); on `receiver`.
#![tactic(auto)]

ghost use Rattle.std.specs.Prelude.{◌≡◌, true, cond, ◌+◌, ◌-◌, ◌*◌, ◌/◌, ◌%◌, ◌<◌, ◌≤◌, min, length, get_or, drop};
ghost use Rattle.buffer.specs.Buffer.{put_at};
ghost use Rattle.packet_log.specs.Log.{data_word_at, same_list};
ghost use Rattle.receiver.specs.Receiving.{no_receiver};
ghost use Rattle.snapshot.specs.Snapshot.{state_word, optional, mode_word, held_word, register_word, programs_word, sequence_word, head_words, byte_words, count_words, saved_words, save_number, saved, words_after, kind_in, value_in, has as has_kind, value_of, bytes_in, from_kind, receiver_in, is_form, wrong_words, loaded, carry_loaded};
ghost use Rattle.snapshot.specs.Steps.{kinds, begins_with, unused_clear, byte_fits, bytes_fit as fits_at, are_bytes, is_front, byte_in};

use receiver::{Opened, Receiver};

// The refusal number, 0 where there is none, and how many words were written.
#[repr(C)]
#[derive(Clone, Copy)]
pub struct Saved {
    pub refusal: u32,
    pub words: u32,
}

// Mode and stream.
fn mode_word(r: Receiver) -> u32
    ensures { result ≡ mode_word r }
{
    r.stream as u32 * 16 + r.mode as u32
}

// The last sequence.
fn sequence_word(r: Receiver) -> u32
    ensures { result ≡ sequence_word r }
{
    0x10000000 + r.sequence as u32
}

// Number and length of the held beginning.
fn held_word(r: Receiver) -> u32
    ensures { result ≡ held_word r }
{
    0x20000000 + (r.number as u32 * 0x10000 + r.held as u32)
}

// The register that the CRC of each piece starts with.
fn register_word(r: Receiver) -> u32
    ensures { result ≡ register_word r }
{
    0x30000000 + r.register as u32
}

// The applied services in force, with bit 3 set if known, else 0.
fn services_in_force(r: Receiver) -> u32
    ensures { (result ≡ cond r.serviced (8 + r.services) 0) × (result < 264) }
{
    if r.serviced {
        return 8 + r.services as u32;
    }
    0
}

// The entitled programs and the applied services in force.
fn programs_word(r: Receiver) -> u32
    ensures { result ≡ programs_word r }
{
    0x40000000 + (services_in_force(r) * 0x100 + r.entitled as u32)
}

// Writes a word at a place if it is there. Answers the place after it.
fn put_word(words: &mut [u32], at: usize, there: bool, word: u32) -> usize
    requires { at + length (optional there word) ≤ length words.old }
    ensures value { result ≡ at + length (optional there word) }
    ensures words_after { words.new ≡ put_at words.old at (optional there word) }
{
    if !there {
        return at;
    }
    words[at] = word;
    at + 1
}

// Writes the words before the held bytes, kinds 3 and 4 if they are there. Answers how many.
fn put_head(words: &mut [u32], r: Receiver, register: bool, programs: bool) -> usize
    requires { length (head_words (kinds register programs) r) ≤ length words.old }
    ensures value { result ≡ length (head_words (kinds register programs) r) }
    ensures words_after { words.new ≡ put_at words.old 0 (head_words (kinds register programs) r) }
{
    let a = put_word(&mut *words, 0, true, mode_word(r));
    let b = put_word(&mut *words, a, r.known, sequence_word(r));
    let c = put_word(&mut *words, b, r.held != 0, held_word(r));
    let d = put_word(&mut *words, c, register, register_word(r));
    put_word(&mut *words, d, programs, programs_word(r))
}

fn one(there: bool) -> usize
    ensures { (result ≡ cond there 1 0) × (result ≤ 1) }
{
    if there {
        return 1;
    }
    0
}

// How many words stand before the held bytes.
fn head_length(r: Receiver, register: bool, programs: bool) -> usize
    ensures { (result ≡ length (head_words (kinds register programs) r)) × (result ≤ 5) }
{
    1 + one(r.known) + one(r.held != 0) + one(register) + one(programs)
}

// Byte i, 0 past the end.
fn byte_at(bytes: &[u8], i: usize) -> u32
    ensures { (result ≡ get_or bytes.now i 0) × (result < 256) }
{
    if bytes.len() <= i {
        return 0;
    }
    bytes[i] as u32
}

// How many of the bytes that are left a word has.
fn count_of(left: usize) -> u32
    ensures { (result ≡ min 3 left) × (result ≤ 3) }
{
    if left < 3 {
        return left as u32;
    }
    3
}

// The word of kind 5 of the bytes from byte i on.
fn byte_word(bytes: &[u8], i: usize) -> u32
    requires { i < length bytes.now }
    ensures { result ≡ data_word_at bytes.now i + 0x10000000 }
{
    let high = count_of(bytes.len() - i) * 0x100 + byte_at(bytes, i);
    let low = byte_at(bytes, i + 1) * 0x100 + byte_at(bytes, i + 2);
    0x50000000 + (high * 0x10000 + low)
}

// Writes the words of kind 5 of bytes from a place on.
fn put_bytes(words: &mut [u32], at: usize, bytes: &[u8])
    requires { at + (length bytes.now + 2) / 3 ≤ length words.old }
    ensures { words.new ≡ put_at words.old at (byte_words bytes.now) }
{
    for j in 0..bytes.len().div_ceil(3) {
        words[at + j] = byte_word(bytes, 3 * j);
    }
}

// Of kind 6: the high bits of a count.
fn high_word(count: u32) -> u32
    ensures { result ≡ state_word 6 (count / 0x10000) }
{
    0x60000000 + count / 0x10000
}

// Of kind 6: the low bits of a count.
fn low_word(count: u32) -> u32
    ensures { result ≡ state_word 6 (count % 0x10000) }
{
    0x60000000 + count % 0x10000
}

// Of kind 6: the last number.
fn last_word(last: u8) -> u32
    ensures { result ≡ state_word 6 last }
{
    0x60000000 + last as u32
}

// How many words the counts have.
fn counts_length(r: Receiver) -> usize
    ensures { (result ≡ length (count_words r)) × (result ≤ 5) }
{
    if r.delivered != 0 {
        return 5;
    }
    0
}

// Writes the words of the counts from a place on, none before the first delivery.
fn put_counts(words: &mut [u32], at: usize, r: Receiver)
    requires { at + length (count_words r) ≤ length words.old }
    ensures { words.new ≡ put_at words.old at (count_words r) }
{
    if r.delivered == 0 {
        return;
    }
    words[at] = high_word(r.delivered);
    words[at + 1] = low_word(r.delivered);
    words[at + 2] = high_word(r.missing);
    words[at + 3] = low_word(r.missing);
    words[at + 4] = last_word(r.last);
}

fn not_saved(number: u32) -> Saved
    ensures { result ≡ record { refusal = number; words = 0 } }
{
    Saved {
        refusal: number,
        words: 0,
    }
}

// Writes a receiver out, with the bytes that it holds in the carry. Refused with 1 or 2, as a call is, or with 26 for a word buffer that is too short.
pub fn save(r: Receiver, carry: &[u8], words: &mut [u32]) -> Saved
    ensures value { result ≡ saved carry.now words.old r }
    ensures words_after { words.new ≡ words_after carry.now words.old r }
{
    let n = r.state_refusal(carry.len());
    if n != 0 {
        return not_saved(n);
    }
    let held = r.held as usize;
    let head = head_length(r, true, true);
    let bytes = (held + 2) / 3;
    let count = head + bytes + counts_length(r);
    if words.len() < count {
        return not_saved(26);
    }
    let at = put_head(&mut *words, r, true, true);
    put_bytes(&mut *words, at, &carry[..held]);
    put_counts(&mut *words, at + bytes, r);
    Saved {
        refusal: 0,
        words: count as u32,
    }
}

// Where the first word of a kind stands, the count of words where there is none.
fn place_of(words: &[u32], kind: u32) -> usize
    ensures { (drop result words.now ≡ from_kind kind words.now) × (result ≤ length words.now) }
{
    for (i, w) in words.iter().enumerate() {
        if *w / 0x10000000 == kind {
            return i;
        }
    }
    words.len()
}

// Whether there is a word of a kind.
fn has(words: &[u32], kind: u32) -> bool
    ensures { result ≡ has_kind kind words.now }
{
    if words.len() <= place_of(words, kind) {
        return false;
    }
    true
}

// The other bits of the first word of a kind, 0 where there is none.
fn value_of(words: &[u32], kind: u32) -> u32
    ensures { result ≡ value_of kind words.now }
{
    let at = place_of(words, kind);
    if words.len() <= at {
        return 0;
    }
    words[at] % 0x10000000
}

// Bits 15-0 of word i, 0 past the end.
fn half_at(words: &[u32], i: usize) -> u32
    ensures { (result ≡ get_or words.now i 0 % 0x10000) × (result < 0x10000) }
{
    if words.len() <= i {
        return 0;
    }
    words[i] % 0x10000
}

// The count whose high bits are in word i, and its low ones in the next.
fn count_at(words: &[u32], i: usize) -> u32
    requires { i < 5 }
    ensures { result ≡ get_or words.now i 0 % 0x10000 * 0x10000 + get_or words.now (i + 1) 0 % 0x10000 }
{
    half_at(words, i) * 0x10000 + half_at(words, i + 1)
}

// The receiver that words say.
fn receiver_in(words: &[u32]) -> Receiver
    ensures { result ≡ receiver_in words.now }
{
    let state = value_of(words, 0);
    let sequence = value_of(words, 1);
    let held = value_of(words, 2);
    let register = value_of(words, 3);
    let programs = value_of(words, 4);
    let counts = &words[place_of(words, 6)..];
    Receiver {
        mode: (state % 16) as u8,
        stream: (state / 16 % 4) as u8,
        register: (register % 0x100) as u8,
        entitled: (programs % 0x100) as u8,
        known: has(words, 1),
        sequence: (sequence % 8) as u8,
        held: (held % 0x10000) as u16,
        number: (held / 0x10000 % 64) as u8,
        serviced: programs / 0x800 % 2 == 1,
        services: (programs / 0x100 % 8) as u8,
        delivered: count_at(counts, 0),
        missing: count_at(counts, 2),
        last: (half_at(counts, 4) % 0x100) as u8,
    }
}

// Whether words begin with others.
fn begins(words: &[u32], front: &[u32]) -> bool
    ensures { result ≡ begins_with front.now words.now }
{
    if words.len() < front.len() {
        return false;
    }
    for (i, word) in front.iter().enumerate() {
        if words[i] != *word {
            return false;
        }
    }
    true
}

// Whether the bytes that a word of n bytes does not use are zero.
fn unused_zero(n: u32, w: u32) -> bool
    ensures { result ≡ unused_clear n w }
{
    if n == 1 {
        return w % 0x10000 == 0;
    }
    if n == 2 {
        return w % 0x100 == 0;
    }
    true
}

// Whether a word is of kind 5 and has n bytes.
fn byte_fits(n: u32, w: u32) -> bool
    requires { n ≤ 3 }
    ensures { result ≡ byte_fits n w }
{
    if w / 0x1000000 != 0x50 + n {
        return false;
    }
    unused_zero(n, w)
}

// Whether a word may stand where so many bytes are still to come.
fn fits(left: usize, w: u32) -> bool
    ensures { result ≡ fits_at left w }
{
    if left == 0 {
        return false;
    }
    byte_fits(count_of(left), w)
}

// How many bytes are still to come after it.
fn left_after(left: usize) -> usize
    ensures { result ≡ left - 3 }
{
    if left < 3 {
        return 0;
    }
    left - 3
}

// Whether the words from a place on are those of so many bytes.
fn is_rest(words: &[u32], from: usize, held: usize) -> bool
    ensures { result ≡ are_bytes held (drop from words.now) }
{
    let mut left = held;
    for i in from..words.len() {
        if !fits(left, words[i]) {
            return false;
        }
        left = left_after(left);
    }
    left == 0
}

// Whether words are those before a receiver's counts, kinds 3 and 4 if they are there.
fn is_front(words: &[u32], r: Receiver, register: bool, programs: bool) -> bool
    ensures { result ≡ is_front (kinds register programs) r words.now }
{
    let mut head = [0u32; 5];
    let n = put_head(&mut head, r, register, programs);
    if !begins(words, &head[..n]) {
        return false;
    }
    is_rest(words, n, r.held as usize)
}

// Whether words are those of a receiver's counts.
fn is_counts(words: &[u32], r: Receiver) -> bool
    ensures { result ≡ same_list (count_words r) words.now }
{
    let mut counts = [0u32; 5];
    put_counts(&mut counts, 0, r);
    let n = counts_length(r);
    if words.len() != n {
        return false;
    }
    begins(words, &counts[..n])
}

// Whether words are of this form, by the receiver that they say: it has these very words.
fn is_form(words: &[u32], r: Receiver) -> bool
    requires { r ≡ receiver_in words.now }
    ensures { result ≡ is_form words.now }
{
    let end = place_of(words, 6);
    if !is_counts(&words[end..], r) {
        return false;
    }
    is_front(&words[..end], r, has(words, 3), has(words, 4))
}

// Whether words are not of this form, or a field is outside its range.
fn is_wrong(words: &[u32], r: Receiver) -> bool
    requires { r ≡ receiver_in words.now }
    ensures { result ≡ wrong_words words.now }
{
    if !is_form(words, r) {
        return true;
    }
    r.state_refusal(4096) != 0
}

// Byte k of a word of kind 5.
fn byte_in(w: u32, k: usize) -> u8
    ensures { result ≡ byte_in w k }
{
    if k == 0 {
        return (w / 0x10000 % 0x100) as u8;
    }
    if k == 1 {
        return (w / 0x100 % 0x100) as u8;
    }
    (w % 0x100) as u8
}

// Copies the bytes of the words of kind 5 from a place on to the front of the carry.
fn take_bytes(carry: &mut [u8], words: &[u32], from: usize, held: usize)
    requires held_in_bounds { held ≤ length carry.old }
    requires words_value { are_bytes held (drop from words.now) ≡ true }
    ensures { carry.new ≡ put_at carry.old 0 (bytes_in (drop from words.now)) }
{
    for j in 0..held {
        carry[j] = byte_in(words[from + j / 3], j % 3);
    }
}

fn not_loaded(number: u32) -> Opened
    ensures { result ≡ record { refusal = number; receiver = no_receiver } }
{
    Opened {
        refusal: number,
        receiver: Receiver {
            mode: 255,
            stream: 0,
            register: 0,
            entitled: 0,
            known: false,
            sequence: 0,
            held: 0,
            number: 0,
            serviced: false,
            services: 0,
            delivered: 0,
            missing: 0,
            last: 0,
        },
    }
}

// Reads a receiver again: the bytes that it holds are put first into the carry, and the rest of it stays. Refused with 2 for a carry that is too short, or with 25
// for words not of this form or a field outside its range.
pub fn load(words: &[u32], carry: &mut [u8]) -> Opened
    ensures value { result ≡ loaded words.now carry.old }
    ensures carry_after { carry.new ≡ carry_loaded words.now carry.old }
{
    if carry.len() < 4096 {
        return not_loaded(2);
    }
    let r = receiver_in(words);
    if is_wrong(words, r) {
        return not_loaded(25);
    }
    let from = head_length(r, has(words, 3), has(words, 4));
    let end = place_of(words, 6);
    take_bytes(&mut *carry, &words[..end], from, r.held as usize);
    Opened {
        refusal: 0,
        receiver: r,
    }
}
