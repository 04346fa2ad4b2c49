// The turns of a run, whatever PDUs are read from: each is given to the receiver, and its log is written, and the files beside it; on `reception`, `formats`,
// `counts`, `saved_state` and `beside`.
#![tactic(auto)]

pub mod marks;
pub mod output;

use beside::Beside;
use copies::Source;
use host::{Fd, Host};
use options::Command;
use outcome::Outcome;
use output::{Block, Sink};
use receiver::Receiver;
use reception::Refused;
use records::Stop;
use saved_state::State;

// Why a run ends: what stops its records, where all PDUs are read and logged after `Stop::End`; its marks; that the log could not be written, or the state
// not be saved; or the files beside the log.
#[derive(Clone, Copy, Debug, PartialEq, Eq)]
pub enum Ending {
    Records(Stop),
    Marks(marks::Fault),
    Unwritten,
    Unsaved,
    Beside(beside::Fault),
}

impl From<Stop> for Ending {
    fn from(stop: Stop) -> Ending {
        Ending::Records(stop)
    }
}

impl From<marks::Fault> for Ending {
    fn from(fault: marks::Fault) -> Ending {
        Ending::Marks(fault)
    }
}

impl From<beside::Fault> for Ending {
    fn from(fault: beside::Fault) -> Ending {
        Ending::Beside(fault)
    }
}

// A run so far: why it ends, unless it goes on; its receiver, and how many PDUs are logged, with those before this run.
#[derive(Clone, Copy)]
pub struct Run {
    pub ending: Option<Ending>,
    pub receiver: Receiver,
    pub pdus: u64,
}

impl Run {
    // A run that goes on.
    pub fn new(receiver: Receiver, pdus: u64) -> Run {
        Run {
            ending: None,
            receiver,
            pdus,
        }
    }

    // The run where it ends.
    pub fn ended_by(self, ending: Ending) -> Run {
        Run {
            ending: Some(ending),
            ..self
        }
    }

    // The run after a PDU, by its receiver and by what came of keeping it: it is logged unless the log could not be written.
    pub fn after(self, receiver: Receiver, kept: Result<(), Ending>) -> Run {
        let ending = kept.err();
        let logged = ending != Some(Ending::Unwritten);
        Run {
            ending,
            receiver,
            pdus: self.pdus.wrapping_add(u64::from(logged)),
        }
    }

    // Whether all PDUs are read and logged.
    pub fn is_whole(self) -> bool {
        self.ending == Some(Ending::Records(Stop::End))
    }
}

// Where the log goes, and the files beside it.
#[derive(Clone, Copy, Debug)]
pub struct Onto {
    pub sink: Sink,
    pub beside: Beside,
}

impl Onto {
    // Writes what came of a PDU, counted from 0, with its log, and counts it, and writes the files beside the log.
    pub fn keep(
        self,
        host: &Host,
        pdu: u64,
        o: Outcome,
        source: Option<Source>,
        log: &[u32],
        block: &mut Block,
        counts: &mut [u64],
    ) -> Result<(), Ending> {
        if !self.sink.keep(host, pdu, o, source, log, block) {
            return Err(Ending::Unwritten);
        }
        counts::add_outcome(counts, o);
        counts::add_log(counts, log);
        self.beside.keep(host, counts, pdu, log, block)?;
        Ok(())
    }

    // Receives a PDU with its marked places, and keeps what came of it.
    pub fn received(
        self,
        host: &Host,
        carry: &mut [u8],
        pdu: &mut [u8],
        places: &[u8],
        log: &mut [u32],
        block: &mut Block,
        counts: &mut [u64],
        run: Run,
    ) -> Run {
        let before = Refused {
            all: counts::refused(counts),
            others: counts::others(counts),
        };
        let o = reception::receive(
            host,
            run.receiver,
            carry,
            pdu,
            places,
            &mut *log,
            run.pdus,
            before,
        );
        let words = words::written(log, o.words);
        let kept = self.keep(host, run.pdus, o, None, words, block, counts);
        run.after(o.receiver, kept)
    }

    // Writes what stands after all PDUs, if all are logged.
    pub fn ended(self, host: &Host, run: Run) -> Run {
        if !run.is_whole() || self.sink.end(host, run.pdus) {
            return run;
        }
        run.ended_by(Ending::Unwritten)
    }
}

// Where the marks of PDUs come from, if there are any, where their log goes, and how many bytes of it were written before this run.
#[derive(Clone, Copy, Debug)]
pub struct Task {
    pub marks: Option<Fd>,
    pub onto: Onto,
    pub bytes: u64,
}

impl Task {
    // Writes what stands before all PDUs, if nothing of the log is written yet. Answers whether that went well.
    pub fn begin(self, host: &Host) -> bool {
        self.bytes != 0 || self.onto.sink.begin(host)
    }

    // Saves how a run stands after so many PDUs in the file of a path, if there is one, and more are logged and all of their log is written (document 02, Ask 13).
    pub fn saved(self, host: &Host, path: &[u8], carry: &[u8], before: u64, run: Run) -> Run {
        if (path.len() == 0) | (run.pdus == before) | (run.ending == Some(Ending::Unwritten)) {
            return run;
        }
        let state = State {
            receiver: run.receiver,
            pdus: run.pdus,
            bytes: self.bytes.wrapping_add(offset(host, self.onto.sink.fd)),
        };
        if state.save(host, path, carry) {
            return run;
        }
        run.ended_by(Ending::Unsaved)
    }
}

// How many bytes of an open file stand before the next one that is read or written, 0 where it has no places.
pub fn offset(host: &Host, fd: Fd) -> u64 {
    host.place(fd).unwrap_or(0)
}

// How far the work is, once a second, where somebody looks on, as `files::progress` has it.
pub fn progress(host: &Host, pdus: u64, shown: Option<u64>) -> Option<u64> {
    files::progress(host, Command::Log, pdus, shown)
}
