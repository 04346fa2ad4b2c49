// The readings of a packet log's CSV, from its first line to its last: each goes over the PDUs, and draws what its task says; on `drawing` and `files`.
#![tactic(auto)]

use drawing::Task;
use drive::{Drive, Pdu};
use gaps::Gaps;
use host::{Fd, Host};
use log_csv::{Entry, Fate, Lines, Stop, Wrong};
use options::Command;
use overview::Stretch;
use text::Line;

// How a reading stands: it goes on; all lines are read; a line is wrong; a line cannot be read, or the picture cannot be written, and the host says why.
#[derive(Clone, Copy, Debug, PartialEq, Eq)]
pub enum State {
    Going,
    Read,
    Wrong(Wrong),
    NotRead,
    NotWritten,
}

// A reading so far: how it stands, how many lines were read, what is read ahead, the drive, its gaps, and the stretch of the overview.
#[derive(Clone, Copy, Debug)]
pub struct Run {
    pub state: State,
    pub count: u64,
    pub lines: Lines,
    pub drive: Drive,
    pub gaps: Gaps,
    pub stretch: Stretch,
}

// The stretch after a PDU.
fn stretched(task: Task, s: Stretch, pdu: Pdu) -> Stretch {
    let own = if task.is_beyond(s, pdu.number) {
        Stretch::new(task.scale.stretch_of(pdu.number), s.peak())
    } else {
        s
    };
    own.with_pdu(
        matches!(pdu.fate, Fate::Lost),
        matches!(pdu.fate, Fate::Refused(_)),
    )
}

// Whether a line may say less than it did: it says nothing, or ends with a number. The last one is whole if that is the count of PDUs.
fn is_part(drive: Drive, entry: Result<Entry, Wrong>) -> bool {
    match entry {
        Err(_) => true,
        Ok(Entry::Pdu { loss, .. }) => loss.is_some(),
        Ok(Entry::End { pdus }) => pdus < drive.count,
        Ok(_) => false,
    }
}

impl Run {
    fn new(input: Fd) -> Run {
        Run {
            state: State::Going,
            count: 0,
            lines: Lines::new(input),
            drive: Drive::new(),
            gaps: Gaps::new(),
            stretch: Stretch::new(0, 0),
        }
    }

    // The reading where it stands otherwise.
    pub fn stopped(self, state: State) -> Run {
        Run { state, ..self }
    }

    // The reading after the drive's last PDU, if there is one: all of its lines are taken.
    fn passed<const N: usize>(self, host: &Host, task: Task, block: &mut Line<N>) -> Run {
        let Some(pdu) = self.drive.last() else {
            return self;
        };
        let shown = self.gaps.estimated(pdu, task.pace);
        let turn = self.gaps.turn_of(pdu);
        let written = task.put(host, block, self.stretch, shown, turn);
        Run {
            state: if written {
                State::Going
            } else {
                State::NotWritten
            },
            gaps: self.gaps.after(pdu, task.pace),
            stretch: stretched(task, self.stretch, pdu),
            ..self
        }
    }

    // Takes a line: a PDU is passed when the next one begins, since what it delivered is known then.
    fn taken<const N: usize>(
        self,
        host: &Host,
        task: Task,
        block: &mut Line<N>,
        lines: Lines,
        entry: Entry,
    ) -> Run {
        let drive = match self.drive.with(entry) {
            Ok(drive) => drive,
            Err(wrong) => return self.stopped(State::Wrong(wrong)),
        };
        let after = match entry {
            Entry::Pdu { .. } => self.passed(host, task, block),
            _ => self,
        };
        Run {
            count: self.count.wrapping_add(1),
            lines,
            drive,
            ..after
        }
    }

    // Draws the last stretch, and settles the totals.
    fn finished<const N: usize>(self, host: &Host, task: Task, block: &mut Line<N>) -> Run {
        let written = task.draw_stretch(host, block, self.stretch);
        let mut drive = self.drive;
        drive.totals = self.gaps.settled(drive.totals);
        Run {
            state: if written & (self.state == State::Going) {
                State::Read
            } else {
                State::NotWritten
            },
            drive,
            ..self
        }
    }

    // Where no line is read: passes the last PDU at the file's end, or says why the reading stops.
    fn ended<const N: usize>(
        self,
        host: &Host,
        task: Task,
        block: &mut Line<N>,
        stop: Stop,
    ) -> Run {
        match stop {
            Stop::Long => self.stopped(State::Wrong(Wrong::TooLong)),
            Stop::Failed => self.stopped(State::NotRead),
            Stop::End if self.count == 0 => self.stopped(State::Wrong(Wrong::NoFirst)),
            Stop::End => self.passed(host, task, block).finished(host, task, block),
        }
    }

    // Whether a line is the beginning of one, with which the file is cut: it lacks its end and may say less than it did, the first line is there, and the last
    // is not.
    fn is_cut(self, ended: bool, entry: Result<Entry, Wrong>) -> bool {
        !ended & is_part(self.drive, entry) & (self.count != 0) & !self.drive.whole
    }

    // Takes a line, which may lack its end; one that is cut is left out.
    fn with_line<const N: usize>(
        self,
        host: &Host,
        task: Task,
        block: &mut Line<N>,
        lines: Lines,
        line: log_csv::Line,
    ) -> Run {
        let entry = Entry::read(line.text, self.count, self.drive.is_counted());
        if self.is_cut(line.ended, entry) {
            return self.ended(host, task, block, Stop::End);
        }
        match entry {
            Ok(entry) => self.taken(host, task, block, lines, entry),
            Err(wrong) => self.stopped(State::Wrong(wrong)),
        }
    }

    // Reads a line and takes it.
    fn turn<const N: usize>(
        self,
        host: &Host,
        task: Task,
        buf: &mut [u8],
        block: &mut Line<N>,
    ) -> Run {
        let mut lines = self.lines;
        match lines.next(host, buf) {
            Ok(line) => self.with_line(host, task, block, lines, line),
            Err(stop) => self.ended(host, task, block, stop),
        }
    }
}

// All lines.
fn all_lines<const N: usize>(
    host: &Host,
    task: Task,
    buf: &mut [u8],
    block: &mut Line<N>,
    start: Run,
) -> Run {
    let mut run = start;
    let mut shown = host.time();
    for _ in 0..u64::MAX {
        run = run.turn(host, task, buf, block);
        if run.state != State::Going {
            break;
        }
        shown = files::progress(host, Command::Coverage, run.count, shown);
    }
    run
}

// Reads the CSV from its start, and draws what the task says, after what waits in the block.
pub fn read_all<const N: usize>(
    host: &Host,
    task: Task,
    buf: &mut [u8],
    block: &mut Line<N>,
) -> Run {
    let start = Run::new(task.input);
    if !host.go_to(task.input, task.start) {
        return start.stopped(State::NotRead);
    }
    all_lines(host, task, buf, block, start)
}
