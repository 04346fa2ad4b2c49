// A run of the writer in which settings and PSD may change from PDU to PDU; on `sending`, `schedule` and `psd_stream`.
#![tactic(auto)]

use files::Label;
use host::Host;
use named_settings::Given;
use options::Command;
use packets::window::Window;
use psd_stream::Supply;
use records::Stop;
use schedule::{Change, Fault};
use sending::{Buffers, Course, Extra, Run, Way, trial};
use writer::Writer;

// A broadcast so far: its run; what is given of the settings of the last PDU, the change that comes next, if one does, and how many have come; and the supply
// of PSD.
#[derive(Clone, Copy)]
pub struct Broadcast<'a> {
    pub run: Run,
    pub given: Given,
    pub next: Option<Change<'a>>,
    pub changes: u64,
    pub supply: Supply,
}

impl<'a> Broadcast<'a> {
    // The broadcast before its first PDU, of the packets of a window, with what is given of the settings before the first change of a text.
    pub fn new(
        writer: Writer,
        window: Window,
        text: &'a [u8],
        given: Given,
        supply: Supply,
    ) -> Broadcast<'a> {
        Broadcast {
            run: Run::new(writer, window),
            given,
            next: schedule::first(text, given).unwrap_or(None),
            changes: 0,
            supply,
        }
    }

    // Sends all packets in PDUs of a length: lengths over 20,480 are refused. The buffer has the PSD. The turns are so many that no run uses them up: a proved
    // loop has to end, and nothing says that a file does.
    pub fn send(self, host: &Host, way: Way, psd: &mut [u8], length: usize) -> Broadcast<'a> {
        let mut buffers = Buffers::new(length);
        let mut now = self;
        let mut shown = host.time();
        for _ in 0..u64::MAX {
            now = now.turn(host, way, psd, &mut buffers);
            if now.run.course != Course::Going {
                return now;
            }
            shown = files::progress(host, Command::Generate, now.run.pdus, shown);
        }
        now
    }

    // Reads ahead and sends a PDU; stops where no packet waits.
    fn turn(self, host: &Host, way: Way, psd: &mut [u8], buffers: &mut Buffers) -> Broadcast<'a> {
        let window = buffers.filled(host, way.from, self.run.window);
        if window.is_empty() {
            return self.with_run(self.run.ended(window));
        }
        self.due(host, way, psd, window, buffers)
    }

    // Sends a PDU from the packets that wait, with the settings and the PSD that are due; stops where its PSD cannot be read.
    fn due(
        self,
        host: &Host,
        way: Way,
        psd: &mut [u8],
        window: Window,
        buffers: &mut Buffers,
    ) -> Broadcast<'a> {
        let ready = self.changed().supplied(host, psd);
        if ready.supply.stop == Some(Stop::Failed) {
            return ready.with_run(ready.run.stopped(Course::Failed));
        }
        ready.sent(host, way, psd, window, buffers)
    }

    // The broadcast with the settings of its next PDU.
    fn changed(self) -> Broadcast<'a> {
        match self.next {
            Some(change) if change.pdu == self.run.pdus => Broadcast {
                given: change.given,
                next: change.next().unwrap_or(None),
                changes: self.changes.wrapping_add(1),
                ..self
            },
            _ => self,
        }
    }

    // The broadcast with the PSD of its next PDU in the buffer.
    fn supplied(self, host: &Host, psd: &mut [u8]) -> Broadcast<'a> {
        let writer = self.run.writer;
        let room = limits::room_for(writer.mode, writer.stream, self.given.settings());
        Broadcast {
            supply: self.supply.next(host, room, psd),
            ..self
        }
    }

    fn with_run(self, run: Run) -> Broadcast<'a> {
        Broadcast { run, ..self }
    }

    // Sends a PDU from the packets that wait.
    fn sent(
        self,
        host: &Host,
        way: Way,
        psd: &[u8],
        window: Window,
        buffers: &mut Buffers,
    ) -> Broadcast<'a> {
        let extra = Extra {
            settings: self.given.settings(),
            psd: psd_stream::part(psd, self.supply.length),
        };
        let run = self.run.sent(host, way, extra, window, buffers);
        if run.course != Course::Going {
            return self.with_run(run);
        }
        Broadcast {
            run,
            supply: self.supply.counted(),
            ..self
        }
    }
}

// What settings are tried with: a writer, the length of PDUs, and a supply of PSD with its buffer.
#[derive(Clone, Copy)]
pub struct Probe<'a> {
    pub writer: Writer,
    pub length: usize,
    pub supply: Supply,
    pub psd: &'a [u8],
}

impl<'a> Probe<'a> {
    // Whether the writer takes what is given of settings, with as much PSD as there may be; if not, says why.
    pub fn takes(self, host: &Host, label: &[u8], given: Given) -> bool {
        let settings = given.settings();
        let room = limits::room_for(self.writer.mode, self.writer.stream, settings);
        let extra = Extra {
            settings,
            psd: psd_stream::part(self.psd, self.supply.tried(room)),
        };
        trial::is_taken(host, label, extra, self.length, self.writer)
    }

    // Whether the writer takes a change of settings; if not, says why with the number of its line.
    fn takes_change(self, host: &Host, label: &[u8], change: Change) -> bool {
        let line = label_of(label, change.line);
        self.takes(host, line.bytes(), change.given)
    }

    // Whether every change of a text is right, and the writer takes it; says so of the first that is not. Each change has a byte of the text at least.
    pub fn takes_all(self, host: &Host, label: &[u8], text: &[u8], given: Given) -> bool {
        let mut next = schedule::first(text, given);
        for _ in text {
            match next {
                Ok(None) => return true,
                Ok(Some(change)) => {
                    if !self.takes_change(host, label, change) {
                        return false;
                    }
                    next = change.next();
                }
                Err(fault) => {
                    say_fault(host, label, fault);
                    return false;
                }
            }
        }
        true
    }
}

// The label of a line of the changes.
fn label_of(label: &[u8], line: u64) -> Label {
    let mut words = Label::new();
    schedule::put_label(&mut words, label, line);
    words
}

// Says what is wrong with a line of the changes.
fn say_fault(host: &Host, label: &[u8], fault: Fault) {
    let line = label_of(label, fault.line);
    let words = fault.words();
    files::say(host, line.bytes(), words.bytes());
}
