// A run of the writer: packets are read ahead, and each turn sends a PDU; on `writer`, `packets` and `limits`.
#![tactic(auto)]

pub mod trial;

use host::{Fd, Host};
use limits::Request;
use packets::window::{Rows, Window};
use settings::Settings;
use writer::{Writer, Written};

// The labels of the file of packets and of that of PDUs, and where PDUs go, if they are kept.
#[derive(Clone, Copy)]
pub struct Way<'a> {
    pub from: &'a [u8],
    pub onto: &'a [u8],
    pub output: Option<Fd>,
}

// What a PDU has beside packets: its settings and its PSD.
#[derive(Clone, Copy)]
pub struct Extra<'a> {
    pub settings: Settings,
    pub psd: &'a [u8],
}

// The packets that wait, and the PDU, of a length.
#[derive(Drop)]
pub struct Buffers {
    rows: Rows,
    pdu: [u8; trial::OVER],
    length: usize,
}

impl Buffers {
    // Buffers for PDUs of a length: lengths over 20,480 are refused.
    pub fn new(length: usize) -> Buffers {
        Buffers {
            rows: Rows::new(),
            pdu: [0; trial::OVER],
            length,
        }
    }

    // The packets of a window with those that are read ahead, if what waits may not fill a PDU.
    pub fn filled(&mut self, host: &Host, label: &[u8], window: Window) -> Window {
        window.filled(host, label, &mut self.rows)
    }
}

// How a run stands: it goes on, all is sent, or something went wrong, which is said.
#[derive(Clone, Copy, Debug, PartialEq, Eq)]
pub enum Course {
    Going,
    Done,
    Failed,
}

// A run so far: how it stands, its writer, and the packets that wait.
#[derive(Clone, Copy)]
pub struct Run {
    pub course: Course,
    pub writer: Writer,
    pub window: Window,
    // How many packets ended in the last PDU.
    pub ended: u32,
    // How many packets, bytes of packets, PDUs and bytes of PDUs are sent.
    pub packets: u64,
    pub octets: u64,
    pub pdus: u64,
    pub size: u64,
}

impl Run {
    // A run before its first PDU, of the packets of a window.
    pub fn new(writer: Writer, window: Window) -> Run {
        Run {
            course: Course::Going,
            writer,
            window,
            ended: 0,
            packets: 0,
            octets: 0,
            pdus: 0,
            size: 0,
        }
    }

    // Reads ahead and sends a PDU; stops where no packet waits.
    pub fn turn(self, host: &Host, way: Way, extra: Extra, buffers: &mut Buffers) -> Run {
        let window = buffers.filled(host, way.from, self.window);
        if window.is_empty() {
            return self.ended(window);
        }
        self.sent(host, way, extra, window, buffers)
    }

    // Sends a PDU from the packets that wait, and drops those that ended; stops at a refusal, or where the PDU cannot be written.
    pub fn sent(
        self,
        host: &Host,
        way: Way,
        extra: Extra,
        window: Window,
        buffers: &mut Buffers,
    ) -> Run {
        let size = trial::size_for(buffers.length);
        let offered = buffers.rows.offered(window);
        let joined = buffers.rows.joined(window);
        let room = &mut buffers.pdu[..];
        let pdu = &mut room[..size];
        let written = self
            .writer
            .write(extra.settings, extra.psd, offered, joined, pdu);
        if written.refusal != 0 {
            let request = trial::request(self.writer, size, extra.settings);
            trial::say_refused(host, way.onto, written.refusal, request);
            return self.stopped(Course::Failed);
        }
        if !is_kept(host, way, pdu) {
            return self.stopped(Course::Failed);
        }
        let next = window.without(&buffers.rows, written.ended);
        self.advanced(written, window, next, size)
    }

    // The run at its end.
    pub fn stopped(self, course: Course) -> Run {
        Run {
            course,
            ended: 0,
            ..self
        }
    }

    // The run at its end, where no packet of a window waits: all went well if its file was read to its end.
    pub fn ended(self, window: Window) -> Run {
        let course = if window.is_broken() {
            Course::Failed
        } else {
            Course::Done
        };
        Run {
            window,
            ..self.stopped(course)
        }
    }

    // The run after a PDU of a length, of a window before it and after it.
    fn advanced(self, written: Written, before: Window, after: Window, length: usize) -> Run {
        Run {
            course: Course::Going,
            writer: written.writer,
            window: after,
            ended: written.ended,
            packets: self.packets.wrapping_add(u64::from(written.ended)),
            octets: self
                .octets
                .wrapping_add(after.from.saturating_sub(before.from) as u64),
            pdus: self.pdus.wrapping_add(1),
            size: self.size.wrapping_add(length as u64),
        }
    }
}

// Writes a PDU to its file, if it has one. Answers whether it is there; if not, says why.
fn is_kept(host: &Host, way: Way, pdu: &[u8]) -> bool {
    let Some(output) = way.output else {
        return true;
    };
    let kept = records::write(host, output, pdu);
    if !kept {
        host.fail(way.onto);
    }
    kept
}
