// Core and enhanced side by side (document 02, Ask 11): two logs of one frame joined by packet number; on `packet_log` and `refusal`.
#![tactic(auto)]

ghost use Rattle.std.specs.Prelude.{◌≡◌, true, ◌+◌, ◌-◌, ◌/◌, ◌%◌, ◌<◌, ◌≤◌, leb, length, get_or, drop};
ghost use Rattle.std.proofs.Math.Seq.{slice};
ghost use Rattle.buffer.specs.Buffer.{put_at};
ghost use Rattle.packet_log.specs.Log.{kind_of};
ghost use Rattle.join.specs.Join.{high as high_of, low as low_of, number as number_of, is_log, counted_from, rising as rising_numbers, out_of_order, join_refusal, join_answer, result_after};
ghost use Rattle.join.specs.Scan.{head_fits_as, unused_zero, data_fits, fits as fits_at, left_after, is_packet, numbers, data_run, from_number, Placed, partner, first_joined, joined_words};

// The refusal number, 0 where there is none, and how many words were written.
#[repr(C)]
#[derive(Clone, Copy)]
pub struct Joined {
    pub refusal: u32,
    pub words: usize,
}

fn kind(w: u32) -> u32
    ensures { result ≡ kind_of w }
{
    w / 0x40000000
}

// Bits 29-16.
fn high(w: u32) -> u32
    ensures { result ≡ high_of w }
{
    w / 0x10000 % 0x4000
}

// Bits 15-0.
fn low(w: u32) -> u32
    ensures { (result ≡ low_of w) × (result < 65536) }
{
    w % 0x10000
}

// Whether a packet's number is in its bits and its length 1 to 4,096.
fn packet_fits(h: u32, l: u32) -> bool
    ensures { result ≡ head_fits_as 0 h l }
{
    if 64 <= h {
        return false;
    }
    if l == 0 {
        return false;
    }
    l <= 4096
}

// Whether PSD has a length and nothing above it.
fn psd_fits(h: u32, l: u32) -> bool
    ensures { result ≡ head_fits_as 2 h l }
{
    if h != 0 {
        return false;
    }
    1 <= l
}

// Whether a word of a kind begins an entry.
fn head_fits(k: u32, h: u32, l: u32) -> bool
    requires { k ≤ 3 }
    ensures { result ≡ head_fits_as k h l }
{
    match k {
        0 => packet_fits(h, l),
        1 => false,
        2 => psd_fits(h, l),
        _ => true,
    }
}

// Whether the bytes that a data word of n bytes does not use are zero.
fn unused_zero(n: u32, l: u32) -> bool
    ensures { result ≡ unused_zero n l }
{
    if n == 1 {
        return l == 0;
    }
    if n == 2 {
        return l % 256 == 0;
    }
    true
}

// Whether a word is a data word of n bytes.
fn data_fits(n: u32, w: u32) -> bool
    ensures { result ≡ data_fits n w }
{
    if kind(w) != 1 {
        return false;
    }
    if high(w) / 256 != n {
        return false;
    }
    unused_zero(n, low(w))
}

// Whether a word may stand where so many bytes are still to come.
fn fits(left: u32, w: u32) -> bool
    ensures { result ≡ fits_at left w }
{
    if left == 0 {
        return head_fits(kind(w), high(w), low(w));
    }
    if left < 3 {
        return data_fits(left, w);
    }
    data_fits(3, w)
}

// How many bytes are still to come after it.
fn left_after(left: u32, w: u32) -> u32
    ensures { result ≡ left_after left w }
{
    if left == 0 {
        if kind(w) == 3 {
            return 0;
        }
        return low(w);
    }
    if left < 3 {
        return 0;
    }
    left - 3
}

// Whether words are a log.
fn is_log(log: &[u32]) -> bool
    ensures { result ≡ is_log log.now }
{
    let mut left: u32 = 0;
    for w in log {
        if !fits(left, *w) {
            return false;
        }
        left = left_after(left, *w);
    }
    left == 0
}

// Whether a word is a packet's first.
fn is_packet(w: u32) -> bool
    ensures { result ≡ is_packet w }
{
    kind(w) == 0
}

// Bits 21-16.
fn number(w: u32) -> u32
    ensures { (result ≡ number_of w) × (result < 64) }
{
    w / 0x10000 % 64
}

// A number counted from the first, modulo 64.
fn counted(first: u32, n: u32) -> u32
    requires { (first < 64) × (n < 64) }
    ensures { result ≡ counted_from first n }
{
    (n + 64 - first) % 64
}

// The place of the first packet from a place on, or the log's length.
fn next_packet(log: &[u32], from: usize) -> usize
    requires { from ≤ length log.now }
    ensures lower_bound { (from ≤ result) × (result ≤ length log.now) }
    ensures log_value { numbers (drop result log.now) ≡ numbers (drop from log.now) }
    ensures result_value { result < length log.now → is_packet (get_or log.now result 0) ≡ true }
{
    for i in from..log.len() {
        if is_packet(log[i]) {
            return i;
        }
    }
    log.len()
}

// Whether the packet numbers of a log, counted from its first, rise strictly.
fn rising(log: &[u32]) -> bool
    ensures { result ≡ rising_numbers (numbers log.now) }
{
    let start = next_packet(log, 0);
    if log.len() <= start {
        return true;
    }
    let first = number(log[start]);
    let mut last: u32 = 0;
    for i in start + 1..log.len() {
        let w = log[i];
        if is_packet(w) {
            let n = counted(first, number(w));
            if n <= last {
                return false;
            }
            last = n;
        }
    }
    true
}

// The place after the data words from a place on.
fn run_end(log: &[u32], from: usize) -> usize
    requires { from ≤ length log.now }
    ensures lower_bound { (from ≤ result) × (result ≤ length log.now) }
    ensures log_value { data_run (drop from log.now) ≡ slice from result log.now }
{
    for i in from..log.len() {
        if kind(log[i]) != 1 {
            return i;
        }
    }
    log.len()
}

// Keeps the place of a packet's first word by its number; another word changes nothing.
fn keep_place(places: &mut [usize], log: &[u32], i: usize)
    requires i_in_bounds { i < length log.now }
    requires placed { Placed places.old log.now (i + 1) }
    ensures { Placed places.new log.now i }
{
    let w = log[i];
    if !is_packet(w) {
        return;
    }
    let n = number(w) as usize;
    places[n] = i;
}

// The place of the first packet of each number, the log's length where there is none.
fn places_in(log: &[u32]) -> [usize; 64]
    ensures { Placed result log.now 0 }
{
    let mut places = [log.len(); 64];
    for i in (0..log.len()).rev() {
        keep_place(&mut places, log, i);
    }
    places
}

// The place of the first packet of a number, or the log's length, from the places of all.
fn place_of(log: &[u32], places: &[usize], n: u32) -> usize
    requires n_bound { n < 64 }
    requires placed { Placed places.now log.now 0 }
    ensures { (result ≤ length log.now) × (drop result log.now ≡ from_number n log.now) }
{
    places[n as usize]
}

// How many words the enhanced packet of a number has, 0 where there is none.
fn partner_length(enhanced: &[u32], places: &[usize], n: u32) -> usize
    requires n_bound { n < 64 }
    requires placed { Placed places.now enhanced.now 0 }
    ensures { (result ≡ length (partner enhanced.now n)) × (result ≤ length enhanced.now) }
{
    let i = place_of(enhanced, places, n);
    if enhanced.len() <= i {
        return 0;
    }
    run_end(enhanced, i + 1) - i
}

// How many words come of the core log's word at a place.
fn length_at(core: &[u32], enhanced: &[u32], places: &[usize], i: usize) -> usize
    requires i_in_bounds { i < length core.now }
    requires placed { Placed places.now enhanced.now 0 }
    ensures value { result ≡ length (first_joined enhanced.now (drop i core.now)) }
    ensures upper_bound { result ≤ length core.now + length enhanced.now }
{
    let w = core[i];
    if !is_packet(w) {
        return 0;
    }
    run_end(core, i + 1) - i + partner_length(enhanced, places, number(w))
}

// Whether the result's words have room.
fn has_room(core: &[u32], enhanced: &[u32], places: &[usize], room: usize) -> bool
    requires room_bound { room ≤ 0x1fffffffffffffff }
    requires placed { Placed places.now enhanced.now 0 }
    ensures { result ≡ leb (length (joined_words enhanced.now core.now)) room }
{
    let mut words: usize = 0;
    for i in 0..core.len() {
        words += length_at(core, enhanced, places, i);
        if room < words {
            return false;
        }
    }
    true
}

// All words of src into dst, from a place on.
fn put_words(dst: &mut [u32], at: usize, src: &[u32])
    requires { at + length src.now ≤ length dst.old }
    ensures { dst.new ≡ put_at dst.old at src.now }
{
    for (j, word) in src.iter().enumerate() {
        dst[at + j] = *word;
    }
}

// Writes the enhanced packet of a number, if any, bit 29 set in its first word. Answers the place after it.
fn put_partner(res: &mut [u32], at: usize, enhanced: &[u32], places: &[usize], n: u32) -> usize
    requires n_in_bounds { at + length (partner enhanced.now n) ≤ length res.old }
    requires n_bound { n < 64 }
    requires placed { Placed places.now enhanced.now 0 }
    ensures value { result ≡ at + length (partner enhanced.now n) }
    ensures res_after { res.new ≡ put_at res.old at (partner enhanced.now n) }
{
    let i = place_of(enhanced, places, n);
    if enhanced.len() <= i {
        return at;
    }
    let end = run_end(enhanced, i + 1);
    res[at] = enhanced[i] | 0x20000000;
    put_words(&mut *res, at + 1, &enhanced[i + 1..end]);
    at + (end - i)
}

// Writes what comes of the core log's word at a place. Answers the place after it.
fn put_at(
    res: &mut [u32],
    at: usize,
    core: &[u32],
    enhanced: &[u32],
    places: &[usize],
    i: usize,
) -> usize
    requires i_in_bounds { i < length core.now }
    requires core_in_bounds { at + length (first_joined enhanced.now (drop i core.now)) ≤ length res.old }
    requires placed { Placed places.now enhanced.now 0 }
    ensures value { result ≡ at + length (first_joined enhanced.now (drop i core.now)) }
    ensures res_after { res.new ≡ put_at res.old at (first_joined enhanced.now (drop i core.now)) }
{
    let w = core[i];
    if !is_packet(w) {
        return at;
    }
    let end = run_end(core, i + 1);
    put_words(&mut *res, at, &core[i..end]);
    put_partner(res, at + (end - i), enhanced, places, number(w))
}

// Writes the result's words. Answers how many.
fn put_joined(res: &mut [u32], core: &[u32], enhanced: &[u32], places: &[usize]) -> usize
    requires core_in_bounds { length (joined_words enhanced.now core.now) ≤ length res.old }
    requires placed { Placed places.now enhanced.now 0 }
    ensures value { result ≡ length (joined_words enhanced.now core.now) }
    ensures res_after { res.new ≡ put_at res.old 0 (joined_words enhanced.now core.now) }
{
    let mut at: usize = 0;
    for i in 0..core.len() {
        at = put_at(&mut *res, at, core, enhanced, places, i);
    }
    at
}

// Whether there is a core packet and the numbers of a log do not rise.
fn out_of_order(core: &[u32], enhanced: &[u32]) -> bool
    ensures { result ≡ out_of_order (numbers core.now) (numbers enhanced.now) }
{
    if core.len() <= next_packet(core, 0) {
        return false;
    }
    if !rising(core) {
        return true;
    }
    !rising(enhanced)
}

// The refusal number of two logs and so much room, 0 for none.
fn refusal(core: &[u32], enhanced: &[u32], places: &[usize], room: usize) -> u32
    requires room_bound { room ≤ 0x1fffffffffffffff }
    requires placed { Placed places.now enhanced.now 0 }
    ensures { result ≡ join_refusal core.now enhanced.now room }
{
    if !is_log(core) {
        return 23;
    }
    if !is_log(enhanced) {
        return 23;
    }
    if out_of_order(core, enhanced) {
        return 24;
    }
    if !has_room(core, enhanced, places, room) {
        return 13;
    }
    0
}

// Joins two logs of one frame by packet number: each core packet's words, and after them those of the enhanced one of its number, bit 29 set in
// its first. Refused with 23 for words that are no log, 24 for numbers that do not rise, 13 for a result buffer that is too short.
pub fn join(core: &[u32], enhanced: &[u32], res: &mut [u32]) -> Joined
    ensures value { result ≡ join_answer core.now enhanced.now (length res.old) }
    ensures res_after { res.new ≡ result_after core.now enhanced.now res.old }
{
    let places = places_in(enhanced);
    let n = refusal(core, enhanced, &places, res.len());
    if n != 0 {
        return Joined {
            refusal: n,
            words: 0,
        };
    }
    let words = put_joined(res, core, enhanced, &places);
    Joined { refusal: 0, words }
}
