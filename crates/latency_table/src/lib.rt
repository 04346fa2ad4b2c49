// The table of latencies that were tried (document 02, Ask 7), on `latency` and `text`: a line for each, and the smallest without a dry tick.
#![tactic(auto)]

use latency::{Answer, Trial};
use text::Line;

// A text at the right end of so many places.
fn put_right<const N: usize>(line: &mut Line<N>, width: usize, words: &[u8]) {
    for _ in words.len()..width {
        line.put(b" ");
    }
    line.put(words);
}

fn put_number<const N: usize>(line: &mut Line<N>, width: usize, number: u32) {
    let mut digits = Line::<20>::new();
    digits.put_decimal(u64::from(number));
    put_right(line, width, digits.bytes());
}

// The first dry tick; a dash where none is dry.
fn put_first<const N: usize>(line: &mut Line<N>, width: usize, trial: Trial) {
    if trial.dry == 0 {
        put_right(line, width, b"-");
    } else {
        put_number(line, width, trial.first);
    }
}

// The line of a latency.
fn put_line<const N: usize>(line: &mut Line<N>, latency: u8, trial: Trial) {
    put_number(&mut *line, 7, u32::from(latency));
    put_number(&mut *line, 11, trial.dry);
    put_first(&mut *line, 16, trial);
    put_number(&mut *line, 22, trial.most);
    line.put(b"\n");
}

// The lines of the latencies 0 to 7.
fn put_lines<const N: usize>(line: &mut Line<N>, mode: u8, stream: u8, counts: &[u32]) {
    for v in 0..8u8 {
        put_line(&mut *line, v, latency::try_latency(mode, stream, counts, v));
    }
}

// How many packets there are.
pub fn packets_of(counts: &[u32]) -> u64 {
    let mut sum: u64 = 0;
    for &count in counts {
        sum = sum.wrapping_add(u64::from(count));
    }
    sum
}

// What was found, as words.
pub fn put_answer<const N: usize>(line: &mut Line<N>, answer: Answer) {
    match answer {
        Answer::Smallest(v) => line.fill(
            b"smallest latency without a dry tick: @\n",
            &[u64::from(v)],
        ),
        _ => line.put(b"every latency from 0 to 7 has a dry tick\n"),
    }
}

// The ticks from one PDU to the next, of so many ticks for so many counts.
fn apart(ticks: u32, counts: usize) -> u64 {
    u64::from(ticks).checked_div(counts as u64).unwrap_or(0)
}

// The table.
pub fn put<const N: usize>(
    line: &mut Line<N>,
    mode: u8,
    stream: u8,
    counts: &[u32],
    answer: Answer,
) {
    let first = latency::try_latency(mode, stream, counts, 0);
    line.fill(
        b"mode @, stream @: a PDU every @ ticks\nPDUs @, packets @, ticks @\n\nlatency  dry ticks  first dry tick  most packets waiting\n",
        &[
            u64::from(mode),
            u64::from(stream),
            apart(first.ticks, counts.len()),
            counts.len() as u64,
            packets_of(counts),
            u64::from(first.ticks),
        ],
    );
    put_lines(&mut *line, mode, stream, counts);
    line.put(b"\n");
    put_answer(line, answer);
}
