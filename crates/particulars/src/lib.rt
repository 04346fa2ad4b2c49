// What a log tells of its PDUs besides what became of them, for an HTML page: their lengths, and the texts of PSD where they change; on `log_csv`, `page` and
// `clock`.
#![tactic(auto)]

mod list;

use clock::Clock;
use host::{Fd, Host};
pub use list::List;
use log_csv::{Entry, Fate, Lines, Stop};

// What a log tells: the least length of a received PDU and the greatest, nothing where none is told, and the list of texts.
#[derive(Clone, Copy)]
pub struct Particulars {
    pub lengths: Option<(u32, u32)>,
    pub list: List,
}

// A reading so far: how many lines were read, whether the log has a loss column, and what it tells.
#[derive(Drop)]
struct Reading {
    count: u64,
    counted: bool,
    told: Particulars,
}

impl Particulars {
    // Takes the length of a received PDU, which is 0 where it is not told.
    fn take_length(&mut self, length: u32) {
        if length == 0 {
            return;
        }
        self.lengths = match self.lengths {
            Some((shortest, longest)) => Some((shortest.min(length), longest.max(length))),
            None => Some((length, length)),
        };
    }
}

impl Reading {
    // Takes a line, with which a reading before this one found nothing wrong.
    fn take(&mut self, line: &[u8]) {
        let entry = Entry::read(line, self.count, self.counted);
        self.count = self.count.wrapping_add(1);
        match entry {
            Ok(Entry::Title { counted }) => self.counted = counted,
            Ok(
                Entry::Pdu {
                    fate: Fate::Received { length, .. },
                    ..
                },
            ) => { self.told.take_length(length) }
            Ok(Entry::Psd { pdu, text }) => self.told.list.take(pdu, text),
            _ => {}
        }
    }

    // Takes all lines; one that lacks its end may say less than it did, and is left out. Answers whether all could be read. They are counted up to a number that no
    // file uses up, since a proved loop has to end, and nothing says that a file does.
    fn take_all(&mut self, host: &Host, input: Fd, buf: &mut [u8]) -> bool {
        let mut lines = Lines::new(input);
        for _ in 0..u64::MAX {
            match lines.next(host, buf) {
                Ok(line) if line.ended => self.take(line.text),
                Ok(_) | Err(Stop::End | Stop::Long) => return true,
                Err(Stop::Failed) => return false,
            }
        }
        true
    }
}

// Reads the CSV from its start, which a reading before this one found right; nothing where it cannot be read.
pub fn read(
    host: &Host,
    input: Fd,
    start: u64,
    clock: Option<Clock>,
    buf: &mut [u8],
) -> Option<Particulars> {
    if !host.go_to(input, start) {
        return None;
    }
    let mut reading = Reading {
        count: 0,
        counted: false,
        told: Particulars {
            lengths: None,
            list: List::new(clock),
        },
    };
    if !reading.take_all(host, input, buf) {
        return None;
    }
    reading.told.list.end();
    Some(reading.told)
}
