// A run that reads ahead: each turn takes the next record from a lent buffer, and its marks, gives its PDU to the receiver, and writes its log; on `resync` and
// `logging`. Where bytes are passed over at which no record begins, a PDU is logged as lost, so that nothing is joined across them.
#![tactic(auto)]

use ahead::Ahead;
use host::Host;
use logging::output::Block;
use logging::{Ending, Run, Task, marks};
use options::Command;
use receiver::Receiver;
use records::Stop;
use resync::{Came, Next, Wanted};
use text::Line;

// How many places at which bytes are passed over have a line each.
const LINES: u64 = 5;

// How a file is read: whether bytes at which no record begins are passed over, the file's label, and the path of the file in which the state is saved, of no bytes
// where there is none.
#[derive(Clone, Copy, Debug)]
pub struct Way<'a> {
    pub resync: bool,
    pub from: &'a [u8],
    pub path: &'a [u8],
}

// The marks of a PDU, the words of its log, and the block.
#[derive(Drop)]
struct Buffers {
    places: [u8; 65535],
    log: [u32; 8400],
    block: Block,
}

// A run so far, what is read ahead, at how many places bytes were passed over, and how many bytes.
#[derive(Clone, Copy)]
pub struct Live {
    pub run: Run,
    pub ahead: Ahead,
    pub places: u64,
    pub passed: u64,
}

impl Live {
    // A run before its first turn.
    pub fn new(run: Run, ahead: Ahead) -> Live {
        Live {
            run,
            ahead,
            places: 0,
            passed: 0,
        }
    }

    // The same with another run.
    pub fn with_run(self, run: Run) -> Live {
        Live { run, ..self }
    }

    // The same after so many bytes that were read of its file otherwise than ahead.
    pub fn past(self, bytes: u64) -> Live {
        Live {
            ahead: self.ahead.past(bytes),
            ..self
        }
    }

    // The same after a reading, with the bytes that were passed over in it.
    fn with_reading(self, n: Next) -> Live {
        let (places, passed) = match n.came {
            Came::Passed(bytes) => (1, bytes),
            Came::Record { .. } | Came::Stopped(_) => (0, 0),
        };
        Live {
            ahead: n.ahead,
            places: self.places.wrapping_add(places),
            passed: self.passed.wrapping_add(passed),
            ..self
        }
    }

    // Whether the run goes on.
    pub fn is_going(self) -> bool {
        self.run.ending.is_none()
    }

    // How far the run is, where somebody looks on.
    pub fn progress(self, host: &Host, shown: Option<u64>) -> Option<u64> {
        logging::progress(host, self.run.pdus, shown)
    }

    // The run after another turn, whose state is saved in the file of a path, if there is one.
    pub fn saved(self, host: &Host, task: Task, path: &[u8], carry: &[u8], next: Live) -> Live {
        next.with_run(task.saved(host, path, carry, self.run.pdus, next.run))
    }

    // The run after all turns: what stands after all PDUs is written, if all are logged.
    pub fn ended(self, host: &Host, task: Task) -> Live {
        self.with_run(task.onto.ended(host, self.run))
    }

    // The run where the log could not be written.
    pub fn unwritten(self) -> Live {
        self.with_run(self.run.ended_by(Ending::Unwritten))
    }
}

// The next record, or bytes that are passed over where that is asked for: records are known by PDUs of the receiver's mode and stream.
fn next_of(host: &Host, resync: bool, receiver: Receiver, ahead: Ahead, buf: &mut [u8]) -> Next {
    if !resync {
        return resync::read_next(host, ahead, buf);
    }
    let wanted = Wanted {
        mode: Some(receiver.mode),
        stream: Some(receiver.stream),
    };
    resync::resync_next(host, ahead, buf, wanted)
}

// Says that bytes before a place of the file are passed over, with its label, after so many such places.
fn say_passed(host: &Host, from: &[u8], bytes: u64, place: u64, places: u64) {
    if LINES < places {
        return;
    }
    if places == LINES {
        options::say(
            host,
            Command::Log,
            b": further places passed over are counted only\n",
        );
        return;
    }
    let mut line = Line::<4800>::new();
    line.put(from);
    line.fill(
        b": passed over @ bytes, from byte @ to byte @: no record begins there\n",
        &[bytes, place.wrapping_sub(bytes), place],
    );
    host.write_all(host::STDERR, line.bytes());
}

// Says so of a reading in which bytes were passed over.
fn say_reading(host: &Host, from: &[u8], n: Next, places: u64) {
    if let Came::Passed(bytes) = n.came {
        say_passed(host, from, bytes, n.ahead.offset, places);
    }
}

// Receives the PDU between two places of the buffer, with its marks.
fn received(
    host: &Host,
    task: Task,
    start: usize,
    end: usize,
    carry: &mut [u8],
    buf: &mut [u8],
    buffers: &mut Buffers,
    counts: &mut [u64],
    run: Run,
) -> Run {
    match marks::next(host, task.marks, &mut buffers.places) {
        Err(fault) => run.ended_by(Ending::Marks(fault)),
        Ok(n) => match buf.get_mut(start..end) {
            Some(pdu) => task.onto.received(
                host,
                carry,
                pdu,
                &buffers.places[..n],
                &mut buffers.log,
                &mut buffers.block,
                counts,
                run,
            ),
            None => run,
        },
    }
}

// The run after a reading: a record is received, bytes that are passed over are a lost PDU, and after the last record no marks may be left.
fn taken(
    host: &Host,
    task: Task,
    n: Next,
    carry: &mut [u8],
    buf: &mut [u8],
    buffers: &mut Buffers,
    counts: &mut [u64],
    run: Run,
) -> Run {
    let (start, length) = match n.came {
        Came::Record { from, length } => (from, length),
        Came::Passed(_) => (0, 0),
        Came::Stopped(stop) => {
            return run.ended_by(marks::last(host, task.marks, &mut buffers.places, stop));
        }
    };
    let end = start.wrapping_add(length);
    received(host, task, start, end, carry, buf, buffers, counts, run)
}

// Reads on and takes what came, and says where bytes were passed over.
fn turn(
    host: &Host,
    task: Task,
    way: Way,
    carry: &mut [u8],
    buf: &mut [u8],
    buffers: &mut Buffers,
    counts: &mut [u64],
    live: Live,
) -> Live {
    let n = next_of(host, way.resync, live.run.receiver, live.ahead, buf);
    say_reading(host, way.from, n, live.places);
    let run = taken(host, task, n, carry, buf, buffers, counts, live.run);
    let next = live.with_reading(n).with_run(run);
    live.saved(host, task, way.path, carry, next)
}

// All turns.
fn all_turns(
    host: &Host,
    task: Task,
    way: Way,
    carry: &mut [u8],
    buf: &mut [u8],
    buffers: &mut Buffers,
    counts: &mut [u64],
    start: Live,
) -> Live {
    let mut live = start;
    let mut shown = host.time();
    for _ in 0..u64::MAX {
        live = turn(host, task, way, carry, buf, buffers, counts, live);
        if !live.is_going() {
            break;
        }
        shown = live.progress(host, shown);
    }
    live
}

// Logs all PDUs after what is read ahead in the buffer, and saves how the run stands after each, where that is asked for. What stopped it before the end, the run
// tells, and the host why.
pub fn log_all(
    host: &Host,
    task: Task,
    way: Way,
    carry: &mut [u8],
    buf: &mut [u8],
    counts: &mut [u64],
    start: Live,
) -> Live {
    let mut buffers = Buffers {
        places: [0; 65535],
        log: [0; 8400],
        block: Block::new(),
    };
    if !task.begin(host) {
        return start.unwritten();
    }
    let last = all_turns(host, task, way, carry, buf, &mut buffers, counts, start);
    last.ended(host, task)
}

// Passes over so many records, and places at which bytes are passed over, where `resync` is set, for a receiver of whose mode and stream records are known.
// Answers what is read ahead then, or why there is no next record.
pub fn pass_over(
    host: &Host,
    resync: bool,
    receiver: Receiver,
    many: u64,
    start: Ahead,
    buf: &mut [u8],
) -> Result<Ahead, Stop> {
    let mut ahead = start;
    for _ in 0..many {
        let n = next_of(host, resync, receiver, ahead, buf);
        if let Came::Stopped(stop) = n.came {
            return Err(stop);
        }
        ahead = n.ahead;
    }
    Ok(ahead)
}
