// The file of the packet log. What comes of a PDU is made in a block, which is written before the next PDU is read.
use copies::Source;
use formats::Format;
use host::{Fd, Host};
use outcome::Outcome;
use text::Line;

// The room of a block.
const ROOM: usize = 65536;

pub type Block = Line<ROOM>;

// Where the log goes, and in which format.
#[derive(Clone, Copy, Debug)]
pub struct Sink {
    pub fd: Fd,
    pub format: Format,
}

impl Sink {
    // Writes what stands in the block if it has no room for another entry, so that no line is cut. Answers whether that went well.
    fn make_room(self, host: &Host, block: &mut Block) -> bool {
        if block.len() <= ROOM - formats::MOST {
            return true;
        }
        let written = host.write_all(self.fd, block.bytes());
        block.clear();
        written
    }

    // Puts the words of a PDU's log, until a write fails.
    fn put_words(self, host: &Host, log: &[u32], block: &mut Block) -> bool {
        for &word in log {
            if !self.make_room(host, block) {
                return false;
            }
            block.put(&words::bytes_of(word));
        }
        true
    }

    // Puts the entries of a PDU's log, each a word with the data words after it, until a write fails.
    fn put_entries(self, host: &Host, pdu: u64, log: &[u32], block: &mut Block) -> bool {
        let mut from: usize = 0;
        while from < log.len() {
            if !self.make_room(host, block) {
                return false;
            }
            let end = words::entry_end(log, from);
            self.format.put_entry(block, pdu, &log[from..end]);
            from = end;
        }
        true
    }

    // Puts a PDU's log in the format that is asked for, until a write fails.
    fn put_log(self, host: &Host, pdu: u64, log: &[u32], block: &mut Block) -> bool {
        if self.format.has_words() {
            return self.put_words(host, log, block);
        }
        self.put_entries(host, pdu, log, block)
    }

    // Writes what stands before all PDUs. Answers whether it is written.
    pub fn begin(self, host: &Host) -> bool {
        host.write_all(self.fd, self.format.title())
    }

    // Writes what stands after all PDUs, of which there were so many. Answers whether it is written.
    pub fn end(self, host: &Host, pdus: u64) -> bool {
        let mut line = Line::<64>::new();
        self.format.put_end(&mut line, pdus);
        host.write_all(self.fd, line.bytes())
    }

    // Writes what came of a PDU, counted from 0, with its log. Answers whether it is written.
    pub fn keep(
        self,
        host: &Host,
        pdu: u64,
        o: Outcome,
        source: Option<Source>,
        log: &[u32],
        block: &mut Block,
    ) -> bool {
        block.clear();
        self.format.put_pdu(block, pdu, o, source);
        self.put_log(host, pdu, log, block) && host.write_all(self.fd, block.bytes())
    }
}
