// A run by batches (document 02, Ask 1): each turn reads a frame, some records joined in a buffer, has its PDUs received in one
// call, and writes what came of each. Where the call stops, at a PDU that is refused or at an empty record, this one and those behind it in the frame are
// received by calls of their own, as in a run without batches. So the log is the same for every count of records in a frame.
ghost use Rattle.std.specs.Prelude.{◌≤◌, length};
ghost use Rattle.io.specs.Counts.{IsPrefixLen};

use ahead_logging::{Live, Way};
use batch::Batch;
use host::{Fd, Host};
use logging::output::Block;
use logging::{Ending, Onto, Run, Task};
use outcome::Outcome;
use receiver::Receiver;
use records::Stop;
use std::num::NonZeroU32;
use text::Line;

// The room of a frame.
const ROOM: usize = 151550;

// The most records of a frame.
const MOST: usize = 64;

// The bytes of a frame as they came, where the words of each of its PDUs end in its log, that log, and the block.
#[derive(Drop)]
struct Buffers {
    came: Line<ROOM>,
    ends: [usize; MOST],
    log: [u32; 50000],
    block: Block,
}

// Where the words of the PDUs before a place end: at the log's start for the first one.
fn start_of(ends: &[usize], place: usize) -> usize {
    match place.checked_sub(1) {
        Some(last) => ends.get(last).copied().unwrap_or(0),
        None => 0,
    }
}

// The words of the PDU at a place, none where the log has not all of them.
fn words_of<'a>(log: &'a [u32], ends: &[usize], place: usize) -> &'a [u32] {
    let end = start_of(ends, place.wrapping_add(1));
    log.get(start_of(ends, place)..end).unwrap_or(&[])
}

// A frame: how many records it has, how many bytes, and why no record can be read after them.
#[derive(Clone, Copy)]
struct Frame {
    count: usize,
    bytes: usize,
    stop: Option<Stop>,
}

// Reads records to the frame's start and their lengths to the list's, as many as the list has places for; not where the frame has less room than the longest
// PDU has.
fn read(host: &Host, input: Fd, frame: &mut [u8], lengths: &mut [usize]) -> Frame
    ensures prefix_len { IsPrefixLen result.bytes frame.new }
    ensures prefix_len_2 { IsPrefixLen result.count lengths.new }
{
    let mut bytes: usize = 0;
    for count in 0..lengths.len() {
        if frame.len() - bytes < records::LONGEST {
            return Frame {
                count,
                bytes,
                stop: None,
            };
        }
        match records::read_pdu(host, input, &mut frame[bytes..]).whole() {
            Ok(length) => {
                lengths[count] = length;
                bytes += length;
            }
            Err(stop) => {
                return Frame {
                    count,
                    bytes,
                    stop: Some(stop),
                };
            }
        }
    }
    Frame {
        count: lengths.len(),
        bytes,
        stop: None,
    }
}

// Receives the PDUs of a frame in one call, which notes where the words of each end.
fn call(
    receiver: Receiver,
    carry: &mut [u8],
    frame: &mut [u8],
    lengths: &[usize],
    buffers: &mut Buffers,
) -> Batch {
    buffers.came.clear();
    buffers.came.put(frame);
    batch::receive_with_ends(
        receiver,
        carry,
        frame,
        lengths,
        &mut buffers.log,
        &mut buffers.ends,
    )
}

// Writes what came of a PDU that a call took, the one at a place of a frame, from a byte of it on, with its log, and counts it.
fn kept(
    host: &Host,
    onto: Onto,
    run: Run,
    place: usize,
    at: usize,
    pdu: &[u8],
    buffers: &mut Buffers,
    counts: &mut [u64],
) -> Result<(), Ending> {
    let log = words_of(&buffers.log, &buffers.ends, place);
    let came = buffers.came.bytes().get(at..).unwrap_or(&[]);
    let corrected = header::difference(&header::header_of(came), &header::header_of(pdu));
    let l = loss::after(counts::loss(counts), log);
    let o = Outcome {
        kind: outcome::RECEIVED,
        number: corrected,
        wrong: 0,
        length: pdu.len(),
        words: log.len(),
        receiver: loss::in_record(run.receiver, l),
    };
    if !onto
        .sink
        .keep(host, run.pdus, o, None, log, &mut buffers.block)
    {
        return Err(Ending::Unwritten);
    }
    let pieces = u64::from(layout::control_word(pdu).nop);
    counts::add_received(counts, corrected, pieces, log, l);
    onto.beside
        .keep(host, counts, run.pdus, log, &mut buffers.block)?;
    Ok(())
}

// All records of a frame, of which a call took so many, until one cannot be written: what came of these is written, and each of the others is received by a call
// of its own.
fn each(
    host: &Host,
    onto: Onto,
    start: Run,
    taken: usize,
    carry: &mut [u8],
    frame: &mut [u8],
    lengths: &[usize],
    buffers: &mut Buffers,
    counts: &mut [u64],
) -> Run {
    let mut run = start;
    let mut at: usize = 0;
    for (place, &length) in lengths.iter().enumerate() {
        let end = at + length.min(frame.len() - at);
        let pdu = &mut frame[at..end];
        run = if place < taken {
            let kept = kept(host, onto, run, place, at, pdu, buffers, counts);
            run.after(run.receiver, kept)
        } else {
            alone(host, onto, run, carry, pdu, buffers, counts)
        };
        if run.ending.is_some() {
            break;
        }
        at = end;
    }
    run
}

// Receives a PDU by a call of its own, and writes what came of it.
fn alone(
    host: &Host,
    onto: Onto,
    run: Run,
    carry: &mut [u8],
    pdu: &mut [u8],
    buffers: &mut Buffers,
    counts: &mut [u64],
) -> Run {
    onto.received(
        host,
        carry,
        pdu,
        b"",
        &mut buffers.log,
        &mut buffers.block,
        counts,
        run,
    )
}

// Receives a frame, and writes what came of it.
fn received(
    host: &Host,
    onto: Onto,
    run: Run,
    carry: &mut [u8],
    frame: &mut [u8],
    lengths: &[usize],
    buffers: &mut Buffers,
    counts: &mut [u64],
) -> Run {
    let b = call(run.receiver, carry, frame, lengths, buffers);
    let start = Run::new(b.receiver, run.pdus);
    each(
        host, onto, start, b.taken, carry, frame, lengths, buffers, counts,
    )
}

// The run after a frame: its file is past the records of the frame, with their lengths; where all of these are received, the run ends by why no more were read.
fn after(live: Live, run: Run, f: Frame) -> Live {
    let heads = f.count.wrapping_mul(2);
    let next = live.past(f.bytes.wrapping_add(heads) as u64);
    match f.stop {
        Some(stop) if run.ending.is_none() => next.with_run(run.ended_by(Ending::Records(stop))),
        _ => next.with_run(run),
    }
}

// Reads a frame and receives it; stops where a record cannot be read. Nothing of the file is read ahead.
fn turn(
    host: &Host,
    task: Task,
    carry: &mut [u8],
    frame: &mut [u8],
    lengths: &mut [usize],
    buffers: &mut Buffers,
    counts: &mut [u64],
    live: Live,
) -> Live {
    let f = read(host, live.ahead.fd, frame, lengths);
    let run = received(
        host,
        task.onto,
        live.run,
        carry,
        &mut frame[..f.bytes],
        &lengths[..f.count],
        buffers,
        counts,
    );
    after(live, run, f)
}

// All turns.
fn all_turns(
    host: &Host,
    task: Task,
    path: &[u8],
    carry: &mut [u8],
    lengths: &mut [usize],
    buffers: &mut Buffers,
    counts: &mut [u64],
    start: Live,
) -> Live {
    let mut frame = [0u8; ROOM];
    let mut live = start;
    let mut shown = host.time();
    for _ in 0..u64::MAX {
        let next = turn(
            host, task, carry, &mut frame, lengths, buffers, counts, live,
        );
        live = live.saved(host, task, path, carry, next);
        if !live.is_going() {
            break;
        }
        shown = live.progress(host, shown);
    }
    live
}

// Logs all PDUs by frames of so many records, and saves how the run stands in the file of a path after each, if there is one. What stopped it before the end, the
// run tells, and the host why.
fn log_frames(
    host: &Host,
    task: Task,
    path: &[u8],
    many: usize,
    carry: &mut [u8],
    counts: &mut [u64],
    start: Live,
) -> Live {
    let mut lengths = [0usize; MOST];
    let mut buffers = Buffers {
        came: Line::new(),
        ends: [0; MOST],
        log: [0; 50000],
        block: Block::new(),
    };
    if !task.begin(host) {
        return start.unwritten();
    }
    let last = all_turns(
        host,
        task,
        path,
        carry,
        &mut lengths[..many.min(MOST)],
        &mut buffers,
        counts,
        start,
    );
    last.ended(host, task)
}

// Logs all PDUs: each by a call of its own where no frames are asked for, as `ahead_logging::log_all` does; else by frames of so many records, at most 64, of a
// file of which nothing is read ahead.
pub fn log_all(
    host: &Host,
    task: Task,
    way: Way,
    batch: Option<NonZeroU32>,
    carry: &mut [u8],
    buf: &mut [u8],
    counts: &mut [u64],
    start: Live,
) -> Live {
    match batch {
        Some(many) => log_frames(
            host,
            task,
            way.path,
            many.get() as usize,
            carry,
            counts,
            start,
        ),
        None => ahead_logging::log_all(host, task, way, carry, buf, counts, start),
    }
}
