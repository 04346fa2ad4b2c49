// Reassembly of packets from the pieces of PDUs (document 01, "Receiver"), withheld ones too (document 02, Ask 10), with delivered and missing counted
// (Ask 14); on `layout` and `packet_log`.
#![tactic(auto)]

ghost use Rattle.std.specs.Prelude.{◌≡◌, true, false, cond, List, ◌++◌, ℕ, ◌+◌, ◌-◌, ◌*◌, ◌≤◌, ◌<◌, eqb, length, take, get_or};
ghost use Rattle.buffer.specs.Buffer.{put_at};
ghost use Rattle.packet_log.specs.Log.{log_words};
ghost use Rattle.layout.specs.Control.{piece_number};
ghost use Rattle.reassembly.specs.Reassembly.{following, in_sequence, nothing, dropped, finished, piece_step, pieces_step, psd_entries, continuing_step, contents_step, received};
ghost use Rattle.reassembly.specs.Rights.{under};
ghost use Rattle.reassembly.specs.Run.{last_of, continued_by, first_cause, ends_at, begun, partial_of, piece_of, Did, Room, Marked, place_at, piece_at, pieces_from, Parsed, said_of, memory_by};
ghost use Rattle.reassembly.specs.Tally.{gap, counted};
ghost use Rattle.reassembly.specs.Count.{count_finish, count_piece, with_piece, with_words, count_from, count_psd, count_continuing, count_contents, count_all, Bounded};

// What is held and where the log stands, in the course of a step. The bytes are the first ones of the carry buffer; held length 0 means nothing
// held, with number 0.
#[derive(Clone, Copy)]
pub struct Run {
    pub held: usize,
    pub number: u8,
    pub at: usize,
}

// What a receiver remembers between PDUs. A field not known or not held is 0.
#[derive(Clone, Copy)]
pub struct State {
    pub known: bool,
    pub last: u8,
    pub held: usize,
    pub number: u8,
}

// What a PDU's header says. PSD runs from `psd` to La. Program and applied services are 0 where not sent or not interpreted.
#[derive(Clone, Copy)]
pub struct Head {
    pub sequence: u8,
    pub pfirst: bool,
    pub plast: bool,
    pub start: u8,
    pub psd: usize,
    pub nop: usize,
    pub program: u8,
    pub services: u8,
}

// The packets delivered, those missing between them, and the last delivered number (document 02, Ask 14); with delivered 0 the other two are 0.
#[derive(Clone, Copy)]
pub struct Tally {
    pub delivered: u64,
    pub missing: u64,
    pub last: u8,
}

// What a piece comes to: log words, bytes held after it, and whether it delivers a packet.
#[derive(Clone, Copy)]
pub struct PieceCount {
    pub words: usize,
    pub held: usize,
    pub delivers: bool,
}

// Log words counted before they are written, and the tally after them.
#[derive(Clone, Copy)]
pub struct Forecast {
    pub words: usize,
    pub tally: Tally,
}

// The sequence after one: 0 follows the last of its range.
fn next_sequence(range: u8, last: u8) -> u8
    requires { last < 255 }
    ensures { result ≡ following range last }
{
    let next = last + 1;
    if next == range {
        return 0;
    }
    next
}

// Step 1: is the sequence not known, or the next?
pub fn in_sequence(known: bool, last: u8, range: u8, sequence: u8) -> bool
    requires { last < 255 }
    ensures { result ≡ in_sequence range (last_of known last) sequence }
{
    if known {
        return sequence == next_sequence(range, last);
    }
    true
}

// Step 2: is nothing held, or what is held continued?
fn continued(held: usize, number: u8, pfirst: bool, start: u8) -> bool
    ensures { result ≡ continued_by held number pfirst start }
{
    let before = (usize::from(start) + 63) % 64;
    (held == 0) | (pfirst & (usize::from(number) == before))
}

// The note with which a PDU begins: 1 out of sequence, 4 not continued, 0 none.
fn first_cause(state: State, range: u8, head: Head) -> u8
    requires { state.last < 255 }
    ensures { result ≡ first_cause state range head }
{
    if in_sequence(state.known, state.last, range, head.sequence) {
        if continued(state.held, state.number, head.pfirst, head.start) {
            return 0;
        }
        return 4;
    }
    1
}

// The number of piece k: the starting number plus k, minus 1 if Pfirst, modulo 64.
fn piece_number(pfirst: bool, start: u8, k: usize) -> u8
    requires { k ≤ 63 }
    ensures { result ≡ piece_number pfirst start k }
{
    if pfirst {
        return ((usize::from(start) + 63 + k) % 64) as u8;
    }
    ((usize::from(start) + k) % 64) as u8
}

// Does a piece with so many pieces after it end its packet?
fn ends_here(plast: bool, left: usize) -> bool
    ensures { result ≡ ends_at plast left }
{
    if left == 0 {
        return !plast;
    }
    true
}

// Packet bytes, n with what was held: too long, delivered or held.
fn count_finish(ends: bool, n: usize) -> PieceCount
    requires { n ≤ 100000 }
    ensures { result ≡ count_finish ends n }
{
    if 4096 < n {
        return PieceCount {
            words: 1,
            held: 0,
            delivers: false,
        };
    }
    if ends {
        return PieceCount {
            words: 1 + (n + 2) / 3,
            held: 0,
            delivers: true,
        };
    }
    PieceCount {
        words: 0,
        held: n,
        delivers: false,
    }
}

// A piece of n bytes.
fn count_piece(held: usize, continues: bool, ends: bool, cause: u8, n: usize) -> PieceCount
    requires { (n ≤ 65535) × (held ≤ 4096) }
    ensures { result ≡ count_piece held continues ends cause n }
{
    if cause != 0 {
        return PieceCount {
            words: 1,
            held: 0,
            delivers: false,
        };
    }
    if !continues {
        return count_finish(ends, n);
    }
    if held == 0 {
        return PieceCount {
            words: 1,
            held: 0,
            delivers: false,
        };
    }
    count_finish(ends, held + n)
}

// A note, which leaves nothing held. This is so whatever the carry buffer holds.
fn drop_noted(log: &mut [u32], at: usize, cause: u8, piece: usize) -> Run
    requires piece_bound { piece ≤ 65535 }
    requires room { Room (dropped cause piece) at log.old }
    ensures { (c : List ℕ) → Did (dropped cause piece) at c log.old c log.new result }
{
    let m = packet_log::put_note(&mut *log, at, cause, piece);
    Run {
        held: 0,
        number: 0,
        at: at + m,
    }
}

// A packet's bytes are the first `from` of the carry buffer and a piece: too long, delivered, or held behind what the carry buffer holds.
fn finish(
    n: u8,
    k: usize,
    ends: bool,
    from: usize,
    piece: &[u8],
    at: usize,
    carry: &mut [u8],
    log: &mut [u32],
) -> Run
    requires from_bound { from ≤ 4096 }
    requires in_bounds { 4096 ≤ length carry.old }
    requires k_bound { k ≤ 63 }
    requires piece_len_bound { length piece.now ≤ 20480 }
    requires room { Room (finished n k ends (take from carry.old ++ piece.now)) at log.old }
    ensures { Did (finished n k ends (take from carry.old ++ piece.now)) at carry.old log.old carry.new log.new result }
{
    let total = from + piece.len();
    if 4096 < total {
        return drop_noted(&mut *log, at, 5, k);
    }
    if ends {
        let m = packet_log::put_packet(&mut *log, at, n, &carry[..from], piece);
        return Run {
            held: 0,
            number: 0,
            at: at + m,
        };
    }
    buffer::put_bytes(&mut *carry, from, piece);
    Run {
        held: total,
        number: n,
        at: at,
    }
}

// Step 4 for piece k, of packet number n. Cause 0: taken; else it is noted with its cause (2: wrong CRC).
fn one_piece(
    run: Run,
    n: u8,
    k: usize,
    continues: bool,
    ends: bool,
    cause: u8,
    piece: &[u8],
    carry: &mut [u8],
    log: &mut [u32],
) -> Run
    requires held_bound { run.held ≤ 4096 }
    requires in_bounds { 4096 ≤ length carry.old }
    requires k_bound { k ≤ 63 }
    requires piece_len_bound { length piece.now ≤ 20480 }
    requires room { Room (piece_step n k continues ends (partial_of run.held run.number carry.old) (piece_of cause piece.now)) run.at log.old }
    ensures { Did (piece_step n k continues ends (partial_of run.held run.number carry.old) (piece_of cause piece.now)) run.at carry.old log.old carry.new log.new result }
{
    let held = run.held;
    let at = run.at;
    if cause != 0 {
        return drop_noted(&mut *log, at, cause, k);
    }
    if !continues {
        return finish(n, k, ends, 0, piece, at, &mut *carry, &mut *log);
    }
    if held == 0 {
        return drop_noted(&mut *log, at, 3, k);
    }
    finish(n, k, ends, held, piece, at, &mut *carry, &mut *log)
}

// Step 4 for piece k of a PDU. `marks` are La and then each locator.
fn piece_at(
    run: Run,
    head: Head,
    marks: [u16; 64],
    k: usize,
    continues: bool,
    cause: u8,
    pdu: &[u8],
    carry: &mut [u8],
    log: &mut [u32],
) -> Run
    requires held_bound { run.held ≤ 4096 }
    requires in_bounds { 4096 ≤ length carry.old }
    requires pdu_len_bound { length pdu.now ≤ 20480 }
    requires k_lt_nop { (k < head.nop) × Marked pdu.now marks head.nop }
    requires room { Room (piece_step (piece_number head.pfirst head.start k) k continues (ends_at head.plast (head.nop - (k + 1))) (partial_of run.held run.number carry.old) (piece_of cause (piece_at pdu.now marks k))) run.at log.old }
    ensures { Did (piece_step (piece_number head.pfirst head.start k) k continues (ends_at head.plast (head.nop - (k + 1))) (partial_of run.held run.number carry.old) (piece_of cause (piece_at pdu.now marks k))) run.at carry.old log.old carry.new log.new result }
{
    let a = usize::from(marks[k]) + 1;
    let e = usize::from(marks[k + 1]);
    let n = piece_number(head.pfirst, head.start, k);
    let ends = ends_here(head.plast, head.nop - (k + 1));
    one_piece(
        run,
        n,
        k,
        continues,
        ends,
        cause,
        &pdu[a..e],
        &mut *carry,
        &mut *log,
    )
}

// Step 4 for each piece; `causes` says of each whether it is taken.
fn pieces(
    run: Run,
    head: Head,
    marks: [u16; 64],
    causes: [u8; 64],
    pdu: &[u8],
    carry: &mut [u8],
    log: &mut [u32],
) -> Run
    requires held_bound { (run.held ≤ 4096) × (run.held ≡ 0 → run.number ≡ 0) }
    requires in_bounds { 4096 ≤ length carry.old }
    requires pdu_len_bound { length pdu.now ≤ 20480 }
    requires marked { Marked pdu.now marks head.nop }
    requires room { Room (pieces_step (piece_number head.pfirst head.start) 0 head.pfirst head.plast (partial_of run.held run.number carry.old) (pieces_from pdu.now marks causes 0 head.nop)) run.at log.old }
    ensures { Did (pieces_step (piece_number head.pfirst head.start) 0 head.pfirst head.plast (partial_of run.held run.number carry.old) (pieces_from pdu.now marks causes 0 head.nop)) run.at carry.old log.old carry.new log.new result }
{
    let mut cur = run;
    let mut continues = head.pfirst;
    for k in 0..head.nop {
        cur = piece_at(
            cur,
            head,
            marks,
            k,
            continues,
            causes[k],
            pdu,
            &mut *carry,
            &mut *log,
        );
        continues = false;
    }
    cur
}

// Steps 1 and 2: a note, if any, drops what is held. This is so whatever the carry buffer holds.
fn begin(state: State, range: u8, head: Head, log: &mut [u32]) -> Run
    requires last_bound { state.last < 255 }
    requires room { Room (begun (first_cause state range head) nothing) 0 log.old }
    ensures { (c : List ℕ) → state.held ≤ length c → (state.held ≡ 0 → state.number ≡ 0) → Did (begun (first_cause state range head) (partial_of state.held state.number c)) 0 c log.old c log.new result }
{
    let cause = first_cause(state, range, head);
    if cause == 0 {
        return Run {
            held: state.held,
            number: state.number,
            at: 0,
        };
    }
    drop_noted(&mut *log, 0, cause, 0)
}

// Step 3: PSD, if any. Answers how many words.
fn put_extra(log: &mut [u32], at: usize, bytes: &[u8]) -> usize
    requires bytes_len_bound { length bytes.now ≤ 20480 }
    requires bytes_in_bounds { at + length (log_words (psd_entries bytes.now)) ≤ length log.old }
    ensures value { result ≡ length (log_words (psd_entries bytes.now)) }
    ensures log_after { log.new ≡ put_at log.old at (log_words (psd_entries bytes.now)) }
{
    if bytes.len() == 0 {
        return 0;
    }
    packet_log::put_psd(&mut *log, at, bytes)
}

// Steps 3 and 4 of a PDU that is not withheld.
fn contents(
    run: Run,
    head: Head,
    marks: [u16; 64],
    causes: [u8; 64],
    pdu: &[u8],
    carry: &mut [u8],
    log: &mut [u32],
) -> Run
    requires held_bound { (run.held ≤ 4096) × (run.held ≡ 0 → run.number ≡ 0) }
    requires in_bounds { 4096 ≤ length carry.old }
    requires parsed { Parsed head pdu.now marks }
    requires room { Room (contents_step false (said_of head marks causes pdu.now) (partial_of run.held run.number carry.old)) run.at log.old }
    ensures { Did (contents_step false (said_of head marks causes pdu.now) (partial_of run.held run.number carry.old)) run.at carry.old log.old carry.new log.new result }
{
    let at = run.at;
    let psd = head.psd;
    let end = usize::from(marks[0]) + 1;
    let m = put_extra(&mut *log, at, &pdu[psd..end]);
    let next = Run {
        held: run.held,
        number: run.number,
        at: at + m,
    };
    pieces(next, head, marks, causes, pdu, &mut *carry, &mut *log)
}

// The piece that continues what is held, if there is one. No other is looked at.
fn continuing(
    run: Run,
    head: Head,
    marks: [u16; 64],
    causes: [u8; 64],
    pdu: &[u8],
    carry: &mut [u8],
    log: &mut [u32],
) -> Run
    requires held_bound { (run.held ≤ 4096) × (run.held ≡ 0 → run.number ≡ 0) }
    requires in_bounds { 4096 ≤ length carry.old }
    requires pdu_len_bound { length pdu.now ≤ 20480 }
    requires marked { Marked pdu.now marks head.nop }
    requires room { Room (continuing_step (piece_number head.pfirst head.start 0) head.plast (partial_of run.held run.number carry.old) (pieces_from pdu.now marks causes 0 head.nop)) run.at log.old }
    ensures { Did (continuing_step (piece_number head.pfirst head.start 0) head.plast (partial_of run.held run.number carry.old) (pieces_from pdu.now marks causes 0 head.nop)) run.at carry.old log.old carry.new log.new result }
{
    if run.held == 0 {
        return run;
    }
    if head.nop == 0 {
        return run;
    }
    piece_at(
        run,
        head,
        marks,
        0,
        true,
        causes[0],
        pdu,
        &mut *carry,
        &mut *log,
    )
}

// Steps 3 and 4 of a withheld PDU: note 8 in place of its PSD, and the piece that continues what is held.
fn withhold(
    run: Run,
    head: Head,
    marks: [u16; 64],
    causes: [u8; 64],
    pdu: &[u8],
    carry: &mut [u8],
    log: &mut [u32],
) -> Run
    requires held_bound { (run.held ≤ 4096) × (run.held ≡ 0 → run.number ≡ 0) }
    requires in_bounds { 4096 ≤ length carry.old }
    requires parsed { Parsed head pdu.now marks }
    requires room { Room (contents_step true (said_of head marks causes pdu.now) (partial_of run.held run.number carry.old)) run.at log.old }
    ensures { Did (contents_step true (said_of head marks causes pdu.now) (partial_of run.held run.number carry.old)) run.at carry.old log.old carry.new log.new result }
{
    let at = run.at;
    let m = packet_log::put_note(&mut *log, at, 8, 0);
    let next = Run {
        held: run.held,
        number: run.number,
        at: at + m,
    };
    continuing(next, head, marks, causes, pdu, &mut *carry, &mut *log)
}

// Steps 1 to 4 on an accepted PDU, withheld or not. The log is written from its first word on.
pub fn accept(
    state: State,
    range: u8,
    head: Head,
    withheld: bool,
    marks: [u16; 64],
    causes: [u8; 64],
    pdu: &[u8],
    carry: &mut [u8],
    log: &mut [u32],
) -> Run
    requires last_bound { state.last < 255 }
    requires held_bound { (state.held ≤ 4096) × (state.held ≡ 0 → state.number ≡ 0) }
    requires in_bounds { 4096 ≤ length carry.old }
    requires parsed { Parsed head pdu.now marks }
    requires room { Room (received range (memory_by state carry.old) (under withheld (said_of head marks causes pdu.now))) 0 log.old }
    ensures { Did (received range (memory_by state carry.old) (under withheld (said_of head marks causes pdu.now))) 0 carry.old log.old carry.new log.new result }
{
    let first = begin(state, range, head, &mut *log);
    if withheld {
        return withhold(first, head, marks, causes, pdu, &mut *carry, &mut *log);
    }
    contents(first, head, marks, causes, pdu, &mut *carry, &mut *log)
}

// What a delivery of number n adds to missing (document 02, Ask 14): its number minus the last minus 1, modulo 64, but nothing where it is the first.
fn missed_before(t: Tally, n: u8) -> u64
    requires { t.last ≤ 63 }
    ensures { (result ≡ cond (eqb t.delivered 0) 0 (gap t.last n)) × (result ≤ 63) }
{
    if t.delivered == 0 {
        return 0;
    }
    (n as u64 + 63 - t.last as u64) % 64
}

// A delivery of number n.
fn count_delivery(t: Tally, n: u8) -> Tally
    requires { (t.delivered ≤ 5000000000) × (t.missing ≤ 5000000000) × (t.last ≤ 63) }
    ensures { result ≡ counted t n }
{
    let missed = missed_before(t, n);
    Tally {
        delivered: t.delivered + 1,
        missing: t.missing + missed,
        last: n,
    }
}

// So many words more.
fn add_words(x: Forecast, n: usize) -> Forecast
    requires { (x.words ≤ 1) × (n ≤ 22000) }
    ensures { result ≡ with_words x n }
{
    let tally = x.tally;
    Forecast {
        words: x.words + n,
        tally: tally,
    }
}

// A piece of packet number n more.
fn add_piece(x: Forecast, p: PieceCount, n: u8) -> Forecast
    requires { Bounded 63 x × (p.words ≤ 1400) }
    ensures { result ≡ with_piece x p n }
{
    let words = x.words + p.words;
    let tally = x.tally;
    if p.delivers {
        return Forecast {
            words: words,
            tally: count_delivery(tally, n),
        };
    }
    Forecast {
        words: words,
        tally: tally,
    }
}

// All pieces.
fn count_pieces(
    held: usize,
    head: Head,
    marks: [u16; 64],
    causes: [u8; 64],
    x: Forecast,
) -> Forecast
    requires held_bound { (held ≤ 4096) × (head.nop ≤ 63) × Bounded 0 x }
    requires by_index { (k : ℕ) → k < head.nop → place_at marks k < get_or marks (k + 1) 0 }
    ensures { result ≡ count_from (piece_number head.pfirst head.start) marks causes head.plast 0 head.nop head.pfirst held x }
{
    let mut continues = head.pfirst;
    let mut kept = held;
    let mut sum = x;
    for k in 0..head.nop {
        let a = usize::from(marks[k]) + 1;
        let e = usize::from(marks[k + 1]);
        let ends = ends_here(head.plast, head.nop - (k + 1));
        let p = count_piece(kept, continues, ends, causes[k], e - a);
        let n = piece_number(head.pfirst, head.start, k);
        sum = add_piece(sum, p, n);
        kept = p.held;
        continues = false;
    }
    sum
}

// The words of a PSD of n bytes.
fn count_psd(n: usize) -> usize
    requires { n ≤ 65536 }
    ensures { (result ≡ count_psd n) × (result ≤ 22000) }
{
    if n == 0 {
        return 0;
    }
    1 + (n + 2) / 3
}

// The piece that continues so many held bytes, if there is one.
fn count_continuing(
    held: usize,
    head: Head,
    marks: [u16; 64],
    causes: [u8; 64],
    x: Forecast,
) -> Forecast
    requires held_bound { (held ≤ 4096) × (head.nop ≤ 63) × Bounded 0 x }
    requires by_index { (k : ℕ) → k < head.nop → place_at marks k < get_or marks (k + 1) 0 }
    ensures { result ≡ count_continuing head marks causes held x }
{
    if held == 0 {
        return x;
    }
    if head.nop == 0 {
        return x;
    }
    let a = usize::from(marks[0]) + 1;
    let e = usize::from(marks[1]);
    let ends = ends_here(head.plast, head.nop - 1);
    let p = count_piece(held, true, ends, causes[0], e - a);
    let n = piece_number(head.pfirst, head.start, 0);
    add_piece(x, p, n)
}

// Steps 3 and 4, of a PDU that is withheld or not, with so many bytes held.
fn count_contents(
    held: usize,
    head: Head,
    withheld: bool,
    marks: [u16; 64],
    causes: [u8; 64],
    x: Forecast,
) -> Forecast
    requires held_bound { (held ≤ 4096) × (head.nop ≤ 63) × (head.psd ≤ place_at marks 0) }
    requires words_bound { (x.words ≤ 1) × Bounded 0 x }
    requires by_index { (k : ℕ) → k < head.nop → place_at marks k < get_or marks (k + 1) 0 }
    ensures { result ≡ count_contents withheld head marks causes held x }
{
    if withheld {
        return count_continuing(held, head, marks, causes, add_words(x, 1));
    }
    let extra = count_psd(usize::from(marks[0]) + 1 - head.psd);
    count_pieces(held, head, marks, causes, add_words(x, extra))
}

// The words that an accepted PDU writes, counted before any is written, and the tally after it.
pub fn forecast_for(
    state: State,
    range: u8,
    head: Head,
    withheld: bool,
    marks: [u16; 64],
    causes: [u8; 64],
    tally: Tally,
) -> Forecast
    requires last_bound { (state.last < 255) × (state.held ≤ 4096) }
    requires nop_bound { (head.nop ≤ 63) × (head.psd ≤ place_at marks 0) }
    requires by_index { (k : ℕ) → k < head.nop → place_at marks k < get_or marks (k + 1) 0 }
    requires delivered_bound { (tally.delivered ≤ 4294967295) × (tally.missing ≤ 4294967295) × (tally.last ≤ 63) }
    ensures { result ≡ count_all withheld state range head marks causes tally }
{
    if first_cause(state, range, head) == 0 {
        let x = Forecast {
            words: 0,
            tally: tally,
        };
        return count_contents(state.held, head, withheld, marks, causes, x);
    }
    let x = Forecast {
        words: 1,
        tally: tally,
    };
    count_contents(0, head, withheld, marks, causes, x)
}
