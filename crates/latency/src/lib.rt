// A bench for latency settings (document 02, Ask 7), on `modes` and `buffer`: from the counts of packets ended in each PDU, at which latency a packet waits at
// every tick that takes one.
#![tactic(auto)]

ghost use Rattle.std.specs.Prelude.{◌≡◌, cond, ◌+◌, ◌-◌, ◌*◌, ◌<◌, ◌≤◌, min, eqb, length};
ghost use Rattle.buffer.specs.Buffer.{put_at};
ghost use Rattle.latency.specs.Latency.{spacing as ticks_apart, added as added_at, taken as taken_at, is_dry, left, ticks, tally, runs_dry, smallest_of, waiting_from, over_most, counts_refused, spacing_of, answer, trial_with, trial, shown_count, shown_ticks, row_after};
ghost use Rattle.latency.specs.Bench.{Tried};

use modes::{Listing, Mode};

// The ticks from one PDU to the next, or the refusal number.
#[derive(Clone, Copy)]
pub enum Spacing {
    Every(usize),
    Refused(u32),
}

// The smallest latency from 0 to 7 without a dry tick, none since all eight have one, or the refusal number.
#[derive(Clone, Copy)]
pub enum Answer {
    Smallest(u8),
    AllDry,
    Refused(u32),
}

// What is told of ticks: how many are dry, the first of them, 0 where none is, and the most packets that wait.
#[derive(Clone, Copy)]
pub struct Tally {
    pub dry: usize,
    pub first: usize,
    pub most: usize,
}

// What a latency does with the counts: the refusal number, 0 where there is none; how many ticks are run; and what is told of them. All others
// are 0 where it is refused.
#[repr(C)]
#[derive(Clone, Copy)]
pub struct Trial {
    pub refusal: u32,
    pub ticks: u32,
    pub dry: u32,
    pub first: u32,
    pub most: u32,
}

// The refusal number, 0 where there is none, and at how many ticks the packets that wait are shown.
#[repr(C)]
#[derive(Clone, Copy)]
pub struct Shown {
    pub refusal: u32,
    pub count: u32,
}

// The ticks from one PDU to the next.
fn ticks_apart(m: Mode) -> usize
    ensures { result ≡ ticks_apart m }
{
    if m.sequences == 8 {
        return 4;
    }
    32
}

// Whether a count is over 63.
fn over_most(counts: &[u32]) -> bool
    ensures { result ≡ over_most counts.now }
{
    for count in counts {
        if 63 < *count {
            return true;
        }
    }
    false
}

// Whether there are no counts, more than 4,096, or one over 63.
fn counts_refused(counts: &[u32]) -> bool
    ensures { result ≡ counts_refused counts.now }
{
    if counts.len() == 0 {
        return true;
    }
    if 4096 < counts.len() {
        return true;
    }
    over_most(counts)
}

// The ticks from one PDU to the next for a mode and stream. Refused with 5 for those that the table has not, then with 21 for no counts, more than
// 4,096, or one over 63.
pub fn spacing_for(mode: u8, stream: u8, counts: &[u32]) -> Spacing
    ensures { result ≡ spacing_of mode stream counts.now }
{
    match modes::look_up(mode, stream) {
        Listing::Refused(n) => Spacing::Refused(n),
        Listing::Listed(m) => {
            if counts_refused(counts) {
                return Spacing::Refused(21);
            }
            Spacing::Every(ticks_apart(m))
        }
    }
}

// The packets that a tick adds: at tick 0 and every n ticks one PDU's count.
fn added(counts: &[u32], n: usize, t: usize) -> usize
    requires n_nonzero { 0 < n }
    requires t_bound { t < ticks n counts.now }
    ensures { result ≡ added_at n counts.now t }
{
    if t % n == 0 {
        return counts[t / n] as usize;
    }
    0
}

// The first tick at which a latency takes a packet.
fn start(v: u8) -> usize
    ensures { result ≡ 2 * v }
{
    2 * usize::from(v)
}

// How many packets a tick takes where so many wait.
fn taken(v: u8, t: usize, waiting: usize) -> usize
    ensures { (result ≡ taken_at v t waiting) × (result ≤ waiting) }
{
    if t < start(v) {
        return 0;
    }
    if waiting == 0 {
        return 0;
    }
    1
}

// Whether a tick is dry where so many packets wait.
pub fn is_dry(v: u8, t: usize, waiting: usize) -> bool
    ensures { result ≡ is_dry v t waiting }
{
    if t < start(v) {
        return false;
    }
    waiting == 0
}

// 1 for a dry tick, else 0.
fn one_if(dry: bool) -> usize
    ensures { result ≡ cond dry 1 0 }
{
    if dry {
        return 1;
    }
    0
}

// The first dry tick after one more, which may be dry.
fn first_of(before: Tally, t: usize, dry: bool) -> usize
    ensures { result ≡ cond (eqb before.dry 0) (cond dry t before.first) before.first }
{
    if before.dry != 0 {
        return before.first;
    }
    if dry {
        return t;
    }
    before.first
}

// What is told of all ticks of a latency: n for each count.
fn run(counts: &[u32], n: usize, v: u8) -> Tally
    requires { Tried n counts.now }
    ensures { result ≡ tally n counts.now v (ticks n counts.now) }
{
    let mut q = Tally {
        dry: 0,
        first: 0,
        most: 0,
    };
    let mut kept: usize = 0;
    let end = counts.len() * n;
    for t in 0..end {
        let waiting = kept + added(counts, n, t);
        let dry = is_dry(v, t, waiting);
        q = Tally {
            dry: q.dry + one_if(dry),
            first: first_of(q, t, dry),
            most: q.most.max(waiting),
        };
        kept = waiting - taken(v, t, waiting);
    }
    q
}

// Whether a latency has a dry tick.
fn runs_dry(counts: &[u32], n: usize, v: u8) -> bool
    requires { Tried n counts.now }
    ensures { result ≡ runs_dry n counts.now v }
{
    let q = run(counts, n, v);
    0 < q.dry
}

// The smallest latency from 0 to 7 without a dry tick, if any.
fn smallest_of(counts: &[u32], n: usize) -> Answer
    requires { Tried n counts.now }
    ensures { result ≡ smallest_of n counts.now 0 8 }
{
    for v in 0..8 {
        if !runs_dry(counts, n, v) {
            return Answer::Smallest(v);
        }
    }
    Answer::AllDry
}

// Tries the latencies 0 to 7 of a mode and stream on the counts of packets ended in each PDU: the smallest without a dry tick, if any; or refused
// with 5 or 21.
pub fn smallest(mode: u8, stream: u8, counts: &[u32]) -> Answer
    ensures { result ≡ answer mode stream counts.now }
{
    match spacing_for(mode, stream, counts) {
        Spacing::Refused(k) => Answer::Refused(k),
        Spacing::Every(n) => smallest_of(counts, n),
    }
}

// What a latency does with counts n ticks apart.
fn trial_of(counts: &[u32], n: usize, v: u8) -> Trial
    requires { Tried n counts.now }
    ensures { result ≡ trial_with (ticks n counts.now) (tally n counts.now v (ticks n counts.now)) }
{
    let q = run(counts, n, v);
    Trial {
        refusal: 0,
        ticks: (counts.len() * n) as u32,
        dry: q.dry as u32,
        first: q.first as u32,
        most: q.most as u32,
    }
}

// Tries one latency, any that a byte can be: how many ticks are run and how many are dry, the first of these, and the most packets that wait; or
// refused with 5 or 21.
pub fn try_latency(mode: u8, stream: u8, counts: &[u32], v: u8) -> Trial
    ensures { result ≡ trial mode stream counts.now v }
{
    match spacing_for(mode, stream, counts) {
        Spacing::Refused(k) => Trial {
            refusal: k,
            ticks: 0,
            dry: 0,
            first: 0,
            most: 0,
        },
        Spacing::Every(n) => trial_of(counts, n, v),
    }
}

// The packets that wait after so many ticks.
fn left_after(counts: &[u32], n: usize, v: u8, first: usize) -> usize
    requires tried { Tried n counts.now }
    requires first_bound { first ≤ ticks n counts.now }
    ensures { result ≡ left n counts.now v first }
{
    let mut kept: usize = 0;
    for t in 0..first {
        let waiting = kept + added(counts, n, t);
        kept = waiting - taken(v, t, waiting);
    }
    kept
}

// How many ticks are shown from one on, where so many are run and there is so much room.
fn shown_count(end: usize, first: usize, room: usize) -> usize
    ensures { result ≡ min room (end - first) }
{
    room.min(end.saturating_sub(first))
}

// Shows the packets that wait at so many ticks from one on.
fn show(counts: &[u32], n: usize, v: u8, first: usize, count: usize, row: &mut [u32])
    requires tried { Tried n counts.now }
    requires count_bound { (first + count ≤ ticks n counts.now) × (count ≤ length row.old) }
    ensures { row.new ≡ put_at row.old 0 (waiting_from n counts.now v first count) }
{
    let mut kept = left_after(counts, n, v, first);
    for k in 0..count {
        let t = first + k;
        let waiting = kept + added(counts, n, t);
        row[k] = waiting as u32;
        kept = waiting - taken(v, t, waiting);
    }
}

// Shows the packets that wait from a tick on, at as many ticks as there are and as there is room for. Answers how many.
fn show_from(counts: &[u32], n: usize, v: u8, first: usize, row: &mut [u32]) -> usize
    requires { Tried n counts.now }
    ensures value { result ≡ shown_count n counts.now first (length row.old) }
    ensures row_after { row.new ≡ put_at row.old 0 (waiting_from n counts.now v first (shown_count n counts.now first (length row.old))) }
{
    let count = shown_count(counts.len() * n, first, row.len());
    if count == 0 {
        return 0;
    }
    show(counts, n, v, first, count, row);
    count
}

// Shows in a lent row the packets that wait at each tick from one on, after any adding and before any is taken: at as many ticks as the run has
// and as there is room for. Answers how many; or refused with 5 or 21, and the row stays.
pub fn show_waiting(
    mode: u8,
    stream: u8,
    counts: &[u32],
    v: u8,
    first: usize,
    row: &mut [u32],
) -> Shown
    ensures value { result ≡ shown_ticks mode stream counts.now first (length row.old) }
    ensures row_after { row.new ≡ row_after mode stream counts.now v first row.old }
{
    match spacing_for(mode, stream, counts) {
        Spacing::Refused(k) => Shown {
            refusal: k,
            count: 0,
        },
        Spacing::Every(n) => {
            let count = show_from(counts, n, v, first, row);
            Shown {
                refusal: 0,
                count: count as u32,
            }
        }
    }
}
