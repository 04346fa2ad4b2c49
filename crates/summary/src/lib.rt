// The summary of a drive again, from the CSV of its log, on `drive`, `counts` and `files`: each line is counted as what it tells of was counted in the run.
#![tactic(auto)]

use drive::Drive;
use host::{Fd, Host};
use log_csv::{Cause, Entry, Fate, Lines, Loss, Stop, Wrong};
use options::Command;
use outcome::Outcome;
use receiver::Receiver;
use text::Line;

// The first words of entries of a log: of a packet, of PSD, and of a note with cause 0 (document 01, "Receiver").
const PACKET: u32 = 0;

const PSD: u32 = 0x80000000;

const NOTE: u32 = 0xC0000000;

// Why lines are not counted: one is wrong; one cannot be read, and the system says why; or the log is an older one that has no loss column.
#[derive(Clone, Copy, Debug, PartialEq, Eq)]
enum Fault {
    Wrong,
    Failed,
    Uncounted,
}

impl From<Wrong> for Fault {
    fn from(_wrong: Wrong) -> Fault {
        Fault::Wrong
    }
}

// A receiver with the loss column of a PDU's line.
fn receiver_of(loss: Option<Loss>) -> Receiver {
    let receiver = receiver::open(0, 0, 0).receiver;
    match loss {
        Some(loss) => Receiver {
            delivered: loss.delivered,
            missing: loss.missing,
            ..receiver
        },
        None => receiver,
    }
}

// What came of a PDU, by its line.
fn outcome_of(fate: Fate, loss: Option<Loss>) -> Outcome {
    let (kind, number) = match fate {
        Fate::Received { corrected, .. } => (outcome::RECEIVED, corrected),
        Fate::Lost => (outcome::LOST, 0),
        Fate::Refused(number) => (outcome::REFUSED, number),
    };
    Outcome {
        kind,
        number,
        wrong: 0,
        length: 0,
        words: 0,
        receiver: receiver_of(loss),
    }
}

// The word of a note, by its cause, 0 for one that is not known.
fn note_of(cause: Option<Cause>) -> u32 {
    match cause {
        Some(cause) => NOTE + cause as u32 * 0x10000,
        None => NOTE,
    }
}

// Counts what a line says, besides the first and the last.
fn add(counts: &mut [u64], entry: Entry) {
    match entry {
        Entry::Title { .. } | Entry::End { .. } => {}
        Entry::Pdu { fate, loss, .. } => counts::add_outcome(counts, outcome_of(fate, loss)),
        Entry::Packet { .. } => counts::add_log(counts, &[PACKET]),
        Entry::Psd { .. } => counts::add_log(counts, &[PSD]),
        Entry::Note { cause, .. } => counts::add_log(counts, &[note_of(cause)]),
    }
}

// A reading so far: the lines that follow, how many were read, and the drive that these tell of.
#[derive(Clone, Copy, Debug)]
struct Run {
    lines: Lines,
    count: u64,
    drive: Drive,
}

impl Run {
    // Whether a line lacks its end and may so say less than it did: not the last line of a log, if that has the count of PDUs.
    fn is_cut(self, ended: bool, entry: Result<Entry, Wrong>) -> bool {
        let last = match entry {
            Ok(Entry::End { pdus }) => pdus == self.drive.count,
            _ => false,
        };
        !ended & !last & !self.drive.whole
    }

    // How the reading ends where no line is read: all lines are counted, or all that a cut has left.
    fn ended(self, stop: Stop) -> Result<(), Fault> {
        match stop {
            Stop::Failed => Err(Fault::Failed),
            Stop::Long => Err(Fault::Wrong),
            Stop::End if self.count == 0 => Err(Fault::Wrong),
            Stop::End => Ok(()),
        }
    }

    // Takes a line, if it is in its place.
    fn take(&mut self, counts: &mut [u64], entry: Entry) -> Result<(), Fault> {
        let drive = self.drive.with(entry)?;
        if let Entry::Title { counted: false } = entry {
            return Err(Fault::Uncounted);
        }
        add(counts, entry);
        self.drive = drive;
        self.count = self.count.wrapping_add(1);
        Ok(())
    }

    // Reads a line and counts what it says; one that is cut is left out. Answers whether the reading goes on.
    fn turn(&mut self, host: &Host, buf: &mut [u8], counts: &mut [u64]) -> Result<bool, Fault> {
        let line = match self.lines.next(host, buf) {
            Ok(line) => line,
            Err(stop) => {
                self.ended(stop)?;
                return Ok(false);
            }
        };
        let entry = Entry::read(line.text, self.count, self.drive.is_counted());
        if self.is_cut(line.ended, entry) {
            self.ended(Stop::End)?;
            return Ok(false);
        }
        self.take(counts, entry?)?;
        Ok(true)
    }

    // Reads all lines, of which no file has as many as there may be turns.
    fn read(&mut self, host: &Host, buf: &mut [u8], counts: &mut [u64]) -> Result<(), Fault> {
        for _ in 0..u64::MAX {
            if !self.turn(host, buf, counts)? {
                return Ok(());
            }
        }
        Ok(())
    }
}

// Says what is wrong with the file of a label, after so many lines.
fn say_wrong(host: &Host, label: &[u8], fault: Fault, count: u64) {
    match fault {
        Fault::Failed => host.fail(label),
        Fault::Wrong => files::say_number(
            host,
            label,
            b": line ",
            count.wrapping_add(1),
            b" is none of the CSV of barzhilup log, or not in its place\n",
        ),
        Fault::Uncounted => files::say(
            host,
            label,
            b": is an older log, without delivered and missing: they are not known\n",
        ),
    }
}

// Says that the log of a label is not whole, unless it is.
fn say_unless(host: &Host, whole: bool, label: &[u8]) {
    if !whole {
        files::say(host, label, b": has no last line: the log is not whole\n");
    }
}

// Writes the lines of the summary to standard output. Answers whether they are written; if not, says why.
fn written(host: &Host, pdus: u64, counts: &[u64]) -> bool {
    let mut lines = Line::<4096>::new();
    counts::put_summary(&mut lines, pdus, counts);
    files::print_usage(host, Command::Log, lines.bytes())
}

// The summary of the CSV in an open file, whose label this is, on standard output: of all that was logged, also where the CSV is cut, which is said. Answers
// whether it is written; what went wrong is said.
pub fn of_file(host: &Host, fd: Fd, label: &[u8]) -> bool {
    let mut buf = io::large_buffer();
    let mut counts = counts::none();
    let mut run = Run {
        lines: Lines::new(fd),
        count: 0,
        drive: Drive::new(),
    };
    match run.read(host, &mut buf, &mut counts) {
        Ok(()) => {
            say_unless(host, run.drive.whole, label);
            written(host, u64::from(run.drive.count), &counts)
        }
        Err(fault) => {
            say_wrong(host, label, fault, run.count);
            false
        }
    }
}
