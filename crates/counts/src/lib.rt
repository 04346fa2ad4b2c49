// What a run counts, as one row of numbers with a place for each count, and the lines that sum it up; on `loss`, `outcome` and `causes`.
#![tactic(auto)]

ghost use Rattle.std.specs.Prelude.{◌≡◌, length};

use loss::Loss;
use outcome::Outcome;
use receiver::Receiver;
use text::Line;
use words::Word;

const RECEIVED: usize = 0;

const LOST: usize = 1;

// Headers that were corrected, and bytes of theirs.
const HEADERS: usize = 2;

const BYTES: usize = 3;

const PACKETS: usize = 4;

const PSD: usize = 5;

// The place for the refusals with number 0; those with the other numbers follow.
const REFUSED: usize = 6;

// The place for the refusals with number 6.
const OTHERS: usize = 12;

// The place for the refusals with number 20.
const DIFFERING: usize = 26;

// How many numbers there are of refusals.
const REFUSALS: u32 = 28;

// The place for the notes of cause 0; those of the other causes follow.
const NOTES: usize = 34;

// How many causes there are of notes.
const CAUSES: u32 = 9;

// The places for the notes 2, 3, 5, 7 and 8: a wrong CRC, nothing held, too long, right in both copies and different, withheld.
const WRONG_CRCS: usize = 36;

const NOTHING_HELD: usize = 37;

const TOO_LONG: usize = 39;

const RIGHT_IN_BOTH: usize = 41;

const WITHHELD: usize = 42;

// PDUs whose last piece was held.
const HELD: usize = 43;

// 1 where a beginning is held after the last PDU, else 0.
const HOLDS: usize = 44;

// The loss column after the last PDU (document 02, Ask 14), and the last delivered number.
const DELIVERED: usize = 45;

const MISSING: usize = 46;

const LAST: usize = 47;

// Every count 0.
pub fn none() -> [u64; 48]
    ensures { 48 ≡ length result }
{
    [0; 48]
}

// The count at a place, 0 where there is none.
pub fn at(counts: &[u64], place: usize) -> u64 {
    counts.get(place).copied().unwrap_or(0)
}

// Adds to the count at a place, if there is one.
pub fn add(counts: &mut [u64], place: usize, more: u64) {
    if let Some(count) = counts.get_mut(place) {
        *count = count.wrapping_add(more);
    }
}

// Puts a number at a place, if there is one.
pub fn set(counts: &mut [u64], place: usize, number: u64) {
    if let Some(count) = counts.get_mut(place) {
        *count = number;
    }
}

// What is counted by its number, with a line for each number.
#[derive(Clone, Copy, Debug, PartialEq, Eq)]
enum Numbered {
    Refusals,
    Notes,
}

impl Numbered {
    // How many numbers there are.
    fn many(self) -> u32 {
        match self {
            Numbered::Refusals => REFUSALS,
            Numbered::Notes => CAUSES,
        }
    }

    // The place of the count of a number; one that is past the last counts as 0.
    fn place(self, number: u32) -> usize {
        match self {
            Numbered::Refusals if number < REFUSALS => REFUSED + number as usize,
            Numbered::Refusals => REFUSED,
            Numbered::Notes if number < CAUSES => NOTES + number as usize,
            Numbered::Notes => NOTES,
        }
    }

    // The sum of the counts of all numbers.
    fn sum(self, counts: &[u64]) -> u64 {
        let mut total: u64 = 0;
        for number in 0..self.many() {
            total = total.wrapping_add(at(counts, self.place(number)));
        }
        total
    }

    // The count of a number in a line; nothing where it is 0.
    fn put_line<const N: usize>(self, lines: &mut Line<N>, number: u32, count: u64) {
        if count == 0 {
            return;
        }
        match self {
            Numbered::Refusals => {
                lines.fill(b"barzhilup log:   refused with @ (", &[u64::from(number)]);
                lines.put(causes::refusal(number));
                lines.fill(b"): @\n", &[count]);
            }
            Numbered::Notes => {
                lines.put(b"barzhilup log:   note ");
                lines.put(causes::note(number));
                lines.fill(b": @\n", &[count]);
            }
        }
    }

    // A line for each count but 0.
    fn put_lines<const N: usize>(self, lines: &mut Line<N>, counts: &[u64]) {
        for number in 0..self.many() {
            self.put_line(lines, number, at(counts, self.place(number)));
        }
    }
}

// Counts the bytes of a header that were corrected.
fn add_corrected(counts: &mut [u64], bytes: u32) {
    if bytes != 0 {
        add(counts, HEADERS, 1);
        add(counts, BYTES, u64::from(bytes));
    }
}

// Counts a PDU whose last piece is held, 1, or is not, 0.
fn hold(counts: &mut [u64], held: u64) {
    set(counts, HOLDS, held);
    add(counts, HELD, held);
}

// Keeps the loss column.
fn set_loss(counts: &mut [u64], l: Loss) {
    set(counts, DELIVERED, u64::from(l.delivered));
    set(counts, MISSING, u64::from(l.missing));
    set(counts, LAST, u64::from(l.last));
}

// The loss column that was kept.
pub fn loss(counts: &[u64]) -> Loss {
    Loss {
        delivered: (at(counts, DELIVERED) % 4294967296) as u32,
        missing: (at(counts, MISSING) % 4294967296) as u32,
        last: (at(counts, LAST) % 256) as u8,
    }
}

// Begins to count after what a receiver's record has: a beginning that is held, or none, and the loss column.
pub fn begin(counts: &mut [u64], receiver: Receiver) {
    set(counts, HOLDS, u64::from(receiver.held != 0));
    set_loss(counts, loss::of_record(receiver));
}

// Counts what came of a PDU. After one that is lost or refused nothing is held.
pub fn add_outcome(counts: &mut [u64], o: Outcome) {
    let receiver = o.receiver;
    set_loss(counts, loss::of_record(receiver));
    hold(counts, u64::from(receiver.held != 0));
    match o.kind {
        outcome::LOST => add(counts, LOST, 1),
        outcome::REFUSED => add(counts, Numbered::Refusals.place(o.number), 1),
        _ => {
            add(counts, RECEIVED, 1);
            add_corrected(counts, o.number);
        }
    }
}

fn add_word(counts: &mut [u64], w: Word) {
    match w.kind {
        words::PACKET => add(counts, PACKETS, 1),
        words::PSD => add(counts, PSD, 1),
        words::NOTE => add(counts, Numbered::Notes.place(w.high), 1),
        _ => {}
    }
}

// Counts the entries of a PDU's log.
pub fn add_log(counts: &mut [u64], log: &[u32]) {
    for &word in log {
        add_word(counts, words::split(word));
    }
}

// How many pieces were delivered or noted.
fn settled(counts: &[u64]) -> u64 {
    let noted = at(counts, NOTHING_HELD).wrapping_add(at(counts, TOO_LONG));
    let wrong = noted.wrapping_add(at(counts, WRONG_CRCS));
    wrong.wrapping_add(at(counts, PACKETS))
}

// Counts a PDU that was received with others in one call, whose receiver after it is not known: the bytes of its header that were corrected, its pieces, and the
// entries of its log, with the loss column after it. A piece that was looked at and is neither delivered nor noted is held (document 01, "Receiver", step 4).
pub fn add_received(counts: &mut [u64], corrected: u32, pieces: u64, log: &[u32], l: Loss) {
    set_loss(counts, l);
    add(counts, RECEIVED, 1);
    add_corrected(counts, corrected);
    let looked = words::looked_at(pieces, at(counts, HOLDS) != 0, log);
    let before = settled(counts);
    add_log(counts, log);
    let more = settled(counts).wrapping_sub(before);
    hold(counts, looked.wrapping_sub(more));
}

// How many PDUs were refused.
pub fn refused(counts: &[u64]) -> u64 {
    Numbered::Refusals.sum(counts)
}

// How many PDUs were refused with 6: those of another mode or stream.
pub fn others(counts: &[u64]) -> u64 {
    at(counts, OTHERS)
}

// Whether PDUs were refused, and none was received.
pub fn is_none_received(counts: &[u64]) -> bool {
    (at(counts, RECEIVED) == 0) & (refused(counts) != 0)
}

// Whether more pairs were refused with 20, since their copies are not those of one PDU, than PDUs were received.
pub fn is_out_of_step(counts: &[u64]) -> bool {
    at(counts, RECEIVED) < at(counts, DIFFERING)
}

// How many pieces had a right CRC: such a one is delivered or held, or its note is 3 or 5 (document 01, "Receiver", step 4) or 7 (document 02, Ask 5).
fn right_crcs(counts: &[u64]) -> u64 {
    let alone = at(counts, NOTHING_HELD).wrapping_add(at(counts, TOO_LONG));
    let noted = alone.wrapping_add(at(counts, RIGHT_IN_BOTH));
    let taken = at(counts, PACKETS).wrapping_add(at(counts, HELD));
    noted.wrapping_add(taken)
}

// Whether pieces had a wrong CRC, and none a right one.
pub fn is_every_crc_wrong(counts: &[u64]) -> bool {
    (at(counts, WRONG_CRCS) != 0) & (right_crcs(counts) == 0)
}

// Whether pieces had a right CRC, and more than 16 times as many a wrong one. By another register than the file's a damaged piece may have a
// right CRC by chance, one in 256, and no other has.
pub fn is_nearly_every_crc_wrong(counts: &[u64]) -> bool {
    let wrong = at(counts, WRONG_CRCS);
    let right = right_crcs(counts);
    if wrong == 0 {
        return false;
    }
    (right != 0) & (right <= (wrong - 1) / 16)
}

// How many of the received PDUs were withheld (document 02, Ask 10), within a line; nothing where none was.
fn put_withheld<const N: usize>(lines: &mut Line<N>, counts: &[u64]) {
    let count = at(counts, WITHHELD);
    if count != 0 {
        lines.fill(b", of these withheld @", &[count]);
    }
}

// The counts of PDUs, and those of refusals.
fn put_pdus<const N: usize>(lines: &mut Line<N>, pdus: u64, counts: &[u64]) {
    lines.fill(
        b"barzhilup log: PDUs @: received @",
        &[pdus, at(counts, RECEIVED)],
    );
    put_withheld(lines, counts);
    lines.fill(
        b", lost @, refused @\n",
        &[at(counts, LOST), refused(counts)],
    );
    Numbered::Refusals.put_lines(lines, counts);
}

// The counts of what was corrected and of what was logged, and those of notes.
fn put_logged<const N: usize>(lines: &mut Line<N>, counts: &[u64]) {
    lines.fill(
        b"barzhilup log: headers corrected @, bytes corrected @
barzhilup log: packets @, PSD entries @, notes @
",
        &[
            at(counts, HEADERS),
            at(counts, BYTES),
            at(counts, PACKETS),
            at(counts, PSD),
            Numbered::Notes.sum(counts),
        ],
    );
    Numbered::Notes.put_lines(lines, counts);
}

// The loss column after the last PDU, and when it is exact.
fn put_loss<const N: usize>(lines: &mut Line<N>, counts: &[u64]) {
    lines.fill(
        b"barzhilup log: delivered @, missing @; missing is exact from the first packet delivered to the last where each PDU comes or is marked lost once, in turn, and fewer than 64 packets are missing between two delivered\n",
        &[at(counts, DELIVERED), at(counts, MISSING)],
    );
}

// What was received and logged.
pub fn put_summary<const N: usize>(lines: &mut Line<N>, pdus: u64, counts: &[u64]) {
    put_pdus(lines, pdus, counts);
    put_logged(lines, counts);
    put_loss(lines, counts);
}

// What a receiver got by itself, in a line with its name.
pub fn put_alone<const N: usize>(lines: &mut Line<N>, name: &[u8], counts: &[u64]) {
    let received = at(counts, RECEIVED);
    lines.put(name);
    lines.fill(
        b" alone: PDUs came @, received @",
        &[received.wrapping_add(refused(counts)), received],
    );
    put_withheld(lines, counts);
    lines.fill(
        b"; headers corrected @, bytes corrected @; packets @, missing @\n",
        &[
            at(counts, HEADERS),
            at(counts, BYTES),
            at(counts, PACKETS),
            at(counts, MISSING),
        ],
    );
}
