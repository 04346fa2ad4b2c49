// A drive that two receivers recorded, record for record: each turn reads a copy of a PDU from each file, receives the two, and writes the log (document 02,
// Ask 5); on `copies`, `logging` and `apart`. Each file is also received alone (`apart`).
#![tactic(auto)]

ghost use Rattle.std.specs.Prelude.{◌≡◌, length};
ghost use Rattle.io.specs.Counts.{IsPrefixLen};

use copies::{Pieces, Taken};
use host::{Fd, Host};
use logging::output::Block;
use logging::{Ending, Onto};
use receiver::Receiver;
use reception::Refused;
use records::Stop;

// Every count 0, and nothing remembered: the rows of `apart`, and after them what a comparison with the packets that were sent keeps.
pub fn no_counts() -> [u64; 164023]
    ensures { 164023 ≡ length result }
{
    [0; 164023]
}

// Where the two copies come from, and where the log goes.
#[derive(Clone, Copy, Debug)]
pub struct Task {
    pub first: Fd,
    pub second: Fd,
    pub onto: Onto,
}

// A file so far: why it gives no more copies, unless it does, and how many bytes stand before its next record.
#[derive(Clone, Copy, Debug)]
pub struct Side {
    pub stop: Option<Stop>,
    pub at: u64,
}

// A file after a reading, and how many bytes of a copy stand in the buffer, 0 where it did not come.
#[derive(Clone, Copy)]
struct Reading {
    side: Side,
    length: usize,
}

// A run so far: why it ends, unless it goes on: by `Stop::End` where all copies of both files are read and logged, by `Stop::Cut` where all are but one file ends
// inside a record. How many PDUs were logged, the pair's receiver, and the two files.
#[derive(Clone, Copy)]
pub struct Run {
    pub ending: Option<Ending>,
    pub pdus: u64,
    pub first: Side,
    pub second: Side,
    pub receiver: Receiver,
}

// The carries, the words of the log of two copies, and the block.
#[derive(Drop)]
struct Buffers {
    carries: [u8; 12288],
    log: [u32; 8400],
    block: Block,
}

impl Side {
    // An open file before its first reading.
    fn new(host: &Host, fd: Fd) -> Side {
        Side {
            stop: None,
            at: logging::offset(host, fd),
        }
    }

    // Whether the file cannot be read, though it is not at its end.
    fn is_failed(self) -> bool {
        matches!(self.stop, Some(Stop::Long | Stop::Failed))
    }

    // The file where no copy comes of it.
    fn without(self) -> Reading
        ensures { 0 ≡ result.length }
    {
        Reading {
            side: self,
            length: 0,
        }
    }

    // Reads the next copy to the buffer's start; not after one that did not come.
    fn read(self, host: &Host, fd: Fd, buf: &mut [u8]) -> Reading
        ensures { IsPrefixLen result.length buf.new }
    {
        if self.stop.is_some() {
            return self.without();
        }
        match records::read_pdu(host, fd, buf).whole() {
            Ok(length) => Reading {
                side: Side {
                    stop: None,
                    at: self.at.wrapping_add(2).wrapping_add(length as u64),
                },
                length,
            },
            Err(stop) => Side {
                stop: Some(stop),
                ..self
            }
            .without(),
        }
    }
}

// Why a run ends by what came of reading its files: it goes on while one of them gives a copy.
fn ending_of(first: Side, second: Side) -> Option<Ending> {
    if first.is_failed() | second.is_failed() {
        return Some(Ending::Records(Stop::Failed));
    }
    match (first.stop, second.stop) {
        (None, _) | (_, None) => None,
        (Some(Stop::End), Some(Stop::End)) => Some(Ending::Records(Stop::End)),
        _ => Some(Ending::Records(Stop::Cut)),
    }
}

// Counts the records of a PDU that were read, and its pieces.
fn add_copies(rows: &mut [u64], run: Run, p: Pieces) {
    counts::add(
        rows,
        apart::FIRST_RECORDS,
        u64::from(run.first.stop.is_none()),
    );
    counts::add(
        rows,
        apart::SECOND_RECORDS,
        u64::from(run.second.stop.is_none()),
    );
    counts::add(rows, apart::FROM_FIRST, p.first);
    counts::add(rows, apart::FROM_SECOND, p.second);
    counts::add(rows, apart::ALIKE, p.alike);
}

impl Run {
    // The run before the first turn, from a receiver that is opened.
    fn new(host: &Host, task: Task, receiver: Receiver) -> Run {
        Run {
            ending: None,
            pdus: 0,
            first: Side::new(host, task.first),
            second: Side::new(host, task.second),
            receiver,
        }
    }

    // The run where it ends.
    fn ended_by(self, ending: Ending) -> Run {
        Run {
            ending: Some(ending),
            ..self
        }
    }

    // The run after a reading of both files.
    fn with_sides(self, first: Side, second: Side) -> Run {
        Run {
            ending: ending_of(first, second),
            first,
            second,
            ..self
        }
    }

    // Writes what came of two copies, and counts it in the first row; stops where it cannot be written.
    fn stored(
        self,
        host: &Host,
        onto: Onto,
        t: Taken,
        buffers: &mut Buffers,
        rows: &mut [u64],
    ) -> Run {
        let o = t.outcome;
        let words = words::written(&buffers.log, o.words);
        let ending = onto
            .keep(
                host,
                self.pdus,
                o,
                t.source,
                words,
                &mut buffers.block,
                rows,
            )
            .err();
        if ending == Some(Ending::Unwritten) {
            return self.ended_by(Ending::Unwritten);
        }
        add_copies(rows, self, t.pieces);
        Run {
            ending,
            pdus: self.pdus.wrapping_add(1),
            receiver: o.receiver,
            ..self
        }
    }
}

// Says that a PDU is refused, if it is.
fn report(
    host: &Host,
    receiver: Receiver,
    first: &mut [u8],
    second: &mut [u8],
    t: Taken,
    rows: &[u64],
    pdu: u64,
) {
    let o = t.outcome;
    if o.kind != outcome::REFUSED {
        return;
    }
    let came = copies::control_of(receiver, first, second);
    let before = Refused {
        all: counts::refused(rows),
        others: counts::others(rows),
    };
    reception::say_copies(host, pdu, o, came, before);
}

// Receives two copies, each alone and then as a pair with the first carry, and says where the PDU is refused.
fn received(
    host: &Host,
    first: &mut [u8],
    second: &mut [u8],
    buffers: &mut Buffers,
    rows: &mut [u64],
    run: Run,
) -> Taken {
    apart::both(
        run.receiver,
        &mut buffers.carries,
        first,
        second,
        &mut buffers.log,
        rows,
    );
    let t = copies::of_copies(
        run.receiver,
        &mut buffers.carries,
        first,
        second,
        &mut buffers.log,
    );
    report(host, run.receiver, first, second, t, rows, run.pdus);
    t
}

// Reads two copies and takes them; stops where neither file gives another. Where the reading of the first failed just now, the second is not read, since the
// host says why the last thing failed.
fn turn(
    host: &Host,
    task: Task,
    first: &mut [u8],
    second: &mut [u8],
    buffers: &mut Buffers,
    rows: &mut [u64],
    run: Run,
) -> Run {
    let one = run.first.read(host, task.first, first);
    let other = if one.side.is_failed() {
        run.second.without()
    } else {
        run.second.read(host, task.second, second)
    };
    let next = run.with_sides(one.side, other.side);
    if next.ending.is_some() {
        return next;
    }
    let t = received(
        host,
        &mut first[..one.length],
        &mut second[..other.length],
        buffers,
        rows,
        next,
    );
    next.stored(host, task.onto, t, buffers, rows)
}

// All turns.
fn all_turns(host: &Host, task: Task, buffers: &mut Buffers, rows: &mut [u64], start: Run) -> Run {
    let mut first = [0u8; records::LONGEST];
    let mut second = [0u8; records::LONGEST];
    let mut run = start;
    let mut shown = host.time();
    for _ in 0..u64::MAX {
        run = turn(host, task, &mut first, &mut second, buffers, rows, run);
        if run.ending.is_some() {
            break;
        }
        shown = logging::progress(host, run.pdus, shown);
    }
    run
}

// Writes what stands after all PDUs, if all are logged.
fn ended(host: &Host, onto: Onto, run: Run) -> Run {
    if (run.ending != Some(Ending::Records(Stop::End))) || onto.sink.end(host, run.pdus) {
        return run;
    }
    run.ended_by(Ending::Unwritten)
}

// Logs all PDUs, from a receiver that is opened, and counts them. What stopped it before the end, the run tells, and the host why.
pub fn log_all(host: &Host, task: Task, receiver: Receiver, rows: &mut [u64]) -> Run {
    let mut buffers = Buffers {
        carries: [0; 12288],
        log: [0; 8400],
        block: Block::new(),
    };
    let start = Run::new(host, task, receiver);
    if !task.onto.sink.begin(host) {
        return start.ended_by(Ending::Unwritten);
    }
    let run = all_turns(host, task, &mut buffers, rows, start);
    ended(host, task.onto, run)
}
