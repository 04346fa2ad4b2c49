// The file in which `barzhilup log` keeps how a drive stands (document 02, Ask 13), so that a later run goes on there, on `snapshot`, `words`, `word_bytes`,
// `records` and `files`: one record or two of words, each word in four bytes, low byte first. The first record has the receiver's words. The second has the
// count of PDUs that are logged and the count of bytes of their log, two words each, low word first.
#![tactic(auto)]

ghost use Rattle.io.specs.Counts.{IsPrefixLen};

use host::{Fd, Host};
use options::Command;
use receiver::Receiver;
use records::Stop;
use text::Line;

// How a drive stands: its receiver, how many PDUs are logged, and how many bytes their log has.
#[derive(Clone, Copy)]
pub struct State {
    pub receiver: Receiver,
    pub pdus: u64,
    pub bytes: u64,
}

// Why a file has no state: it cannot be read, and the system says why, or it is refused with a number.
#[derive(Clone, Copy, Debug, PartialEq, Eq)]
pub enum Fault {
    Failed,
    Refused(u32),
}

// Words that are not of their form, or a field outside its range.
const WRONG_WORDS: Fault = Fault::Refused(25);

// More words than any receiver has, and their bytes.
const WORDS: usize = 1400;

const BYTES: usize = 5600;

// A count as its low word and its high one.
fn low(count: u64) -> u32 {
    (count % 0x100000000) as u32
}

fn high(count: u64) -> u32 {
    (count / 0x100000000) as u32
}

// The count of a low word and a high one.
fn count_of(low: u32, high: u32) -> u64 {
    u64::from(low) + 0x100000000 * u64::from(high)
}

// Writes a record of words. Answers whether all is written.
fn write_words(host: &Host, fd: Fd, list: &[u32]) -> bool {
    let mut out = [0u8; BYTES];
    let n = word_bytes::put(list, &mut out);
    records::write(host, fd, &out[..n])
}

// Says what the system has of a file.
fn fail(host: &Host, path: &[u8]) {
    let mut label = Line::<4800>::new();
    label.put(b"barzhilup log: ");
    label.put(path);
    host.fail(label.bytes());
}

// Gives a new file the name of the old one, if it is written and closed; if not, says why, and the new one goes.
fn replace(host: &Host, path: &[u8], next: &[u8], fd: Fd, written: bool) -> bool {
    if !written {
        fail(host, next);
        host.close(fd);
        host.unlink(next);
        return false;
    }
    if !host.close(fd) {
        fail(host, next);
        host.unlink(next);
        return false;
    }
    if !host.rename(next, path) {
        fail(host, path);
        host.unlink(next);
        return false;
    }
    true
}

// The name of the file that is to replace another: a new one beside it.
fn next_of(path: &[u8]) -> Line<4800> {
    let mut next = Line::new();
    next.put(path);
    next.put(b".new");
    next
}

// How many words stand in the list from its start on, none where they are no row of words that it has room for, and why their record is not whole.
#[derive(Clone, Copy)]
struct Read {
    count: usize,
    stop: Option<Stop>,
}

// Reads a record of words.
fn read_words(host: &Host, fd: Fd, list: &mut [u32]) -> Read
    ensures { IsPrefixLen result.count list.new }
{
    let mut record = [0u8; BYTES];
    let read = records::read(host, fd, &mut record);
    Read {
        count: word_bytes::get(&record[..read.length], list),
        stop: read.stop,
    }
}

// Reads on where a file should be at its end.
fn read_end(host: &Host, fd: Fd) -> Result<(), Fault> {
    let mut more = [0u8; 1];
    match records::read(host, fd, &mut more).whole() {
        Err(Stop::End) => Ok(()),
        Err(Stop::Failed) => Err(Fault::Failed),
        _ => Err(WRONG_WORDS),
    }
}

// Reads the counts of PDUs and of bytes, the last of a file; both are 0 where there are none.
fn read_counts(host: &Host, fd: Fd) -> Result<(u64, u64), Fault> {
    let mut list = [0u32; 4];
    let read = read_words(host, fd, &mut list);
    match read.stop {
        Some(Stop::End) => Ok((0, 0)),
        Some(Stop::Failed) => Err(Fault::Failed),
        None if read.count == 4 => {
            read_end(host, fd)?;
            Ok((count_of(list[0], list[1]), count_of(list[2], list[3])))
        }
        _ => Err(WRONG_WORDS),
    }
}

impl State {
    // Writes both records: the receiver's words, and the counts. Answers whether all is written.
    fn write(self, host: &Host, fd: Fd, list: &[u32]) -> bool {
        let counts = [
            low(self.pdus),
            high(self.pdus),
            low(self.bytes),
            high(self.bytes),
        ];
        write_words(host, fd, list) && write_words(host, fd, &counts)
    }

    // Replaces a file by one with the receiver's words and the counts. Answers whether that went well; if not, says why, and the file is as it was.
    fn write_file(self, host: &Host, path: &[u8], list: &[u32]) -> bool {
        let next = next_of(path);
        let Some(fd) = host.create(next.bytes()) else {
            fail(host, next.bytes());
            return false;
        };
        let written = self.write(host, fd, list);
        replace(host, path, next.bytes(), fd, written)
    }

    // Keeps in a file how a drive stands; the carry is the receiver's. What is in the file is there whole at every moment: the old state, and then the new one.
    // Answers whether that went well; if not, says why, and the file is as it was.
    pub fn save(self, host: &Host, path: &[u8], carry: &[u8]) -> bool {
        let mut list = [0u32; WORDS];
        let saved = snapshot::save(self.receiver, carry, &mut list);
        if saved.refusal != 0 {
            options::say_numbers(
                host,
                Command::Log,
                b": --save: refused with @\n",
                &[u64::from(saved.refusal)],
            );
            return false;
        }
        self.write_file(host, path, words::written(&list, saved.words as usize))
    }

    // Reads how a drive stands; the held bytes go to the carry. A file without counts is one of a receiver that has logged nothing yet.
    pub fn load(host: &Host, fd: Fd, carry: &mut [u8]) -> Result<State, Fault> {
        let mut list = [0u32; WORDS];
        let read = read_words(host, fd, &mut list);
        let opened = snapshot::load(&list[..read.count], carry);
        let counts = read_counts(host, fd);
        if read.stop == Some(Stop::Failed) {
            return Err(Fault::Failed);
        }
        let (pdus, bytes) = counts?;
        if opened.refusal != 0 {
            return Err(Fault::Refused(opened.refusal));
        }
        Ok(State {
            receiver: opened.receiver,
            pdus,
            bytes,
        })
    }
}
