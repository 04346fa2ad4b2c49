// Packets from a file: a file of records, or an ADTS dump, as open HD Radio receivers write; on `ahead`, `sent_packets` and `files`. In a dump each frame is a
// header of 7 bytes, or of 9 with its check, and then a packet.
#![tactic(auto)]

pub mod next;
pub mod window;

ghost use Rattle.std.specs.Prelude.{IfOk};
ghost use Rattle.io.specs.Counts.{IsPrefixLen};

use host::{Fd, Host};
use records::Stop;
use sent_packets::Span;
use text::Line;

// Why no more packets are read: no whole record or frame is there; no frame begins, since there is no syncword, or a length below that of the header; or the
// packet has no bytes.
#[derive(Clone, Copy, Debug, PartialEq, Eq)]
pub enum Ending {
    Records(Stop),
    NoFrame,
    Empty,
}

impl From<Stop> for Ending {
    fn from(stop: Stop) -> Ending {
        Ending::Records(stop)
    }
}

impl Ending {
    // The words that say it, with an at sign for how many packets came before; none at the file's end, and none for an error, for which the system has words.
    fn words(self) -> &'static [u8] {
        match self {
            Ending::Records(Stop::End | Stop::Failed) => b"",
            Ending::Records(Stop::Cut) => b": ends inside packet @\n",
            Ending::Records(Stop::Long) => b": refused with 15: packet @ has over 4,096 bytes\n",
            Ending::NoFrame => b": no ADTS frame at packet @\n",
            Ending::Empty => b": refused with 15: packet @ has no bytes\n",
        }
    }
}

// Where packets come from: a file of records, or an ADTS dump.
#[derive(Clone, Copy, Debug)]
pub struct Source {
    pub fd: Fd,
    pub adts: bool,
}

// The bytes that tell how long a record is, or a frame.
fn head_length(adts: bool) -> usize {
    if adts { 7 } else { 2 }
}

// Where the packet of a record or a frame stands, by its first bytes.
fn span_of(head: &[u8], adts: bool) -> Result<Span, Ending> {
    let span = sent_packets::span_of(head, adts);
    if span.to == 0 {
        return Err(Ending::NoFrame);
    }
    Ok(span)
}

// How many bytes the packet of a span has.
fn size(span: Span) -> usize {
    span.to.wrapping_sub(span.from)
}

// Reads the next frame's packet to the buffer's start.
fn read_frame(host: &Host, fd: Fd, buf: &mut [u8]) -> Result<usize, Ending>
    ensures { IfOk result (λ n. IsPrefixLen n buf.new) }
{
    let mut head = [0u8; 7];
    if let Some(stop) = records::fill(host, fd, &mut head).stop {
        return Err(Ending::Records(stop));
    }
    let span = span_of(&head, true)?;
    if span.from != head.len() {
        let mut check = [0u8; 2];
        records::read_bytes(host, fd, &mut check, 2).whole()?;
    }
    Ok(records::read_bytes(host, fd, buf, size(span)).whole()?)
}

// Reads the next packet to the buffer's start. Answers its length, which is not 0.
pub fn read(host: &Host, source: Source, buf: &mut [u8]) -> Result<usize, Ending>
    ensures { IfOk result (λ n. IsPrefixLen n buf.new) }
{
    let length = if source.adts {
        read_frame(host, source.fd, buf)?
    } else {
        records::read(host, source.fd, buf).whole()?
    };
    if length == 0 {
        return Err(Ending::Empty);
    }
    Ok(length)
}

// Says why no more packets are read, after so many, which are counted from 0; nothing where the file ends after one.
pub fn say_end(host: &Host, label: &[u8], ending: Ending, read: u64) {
    match ending {
        Ending::Records(Stop::End) => {}
        Ending::Records(Stop::Failed) => host.fail(label),
        _ => {
            let mut words = Line::<80>::new();
            words.fill(ending.words(), &[read]);
            files::say(host, label, words.bytes());
        }
    }
}

// The same of a packet whose record or frame is to begin at a byte of the file, which is said too.
pub fn say_end_at(host: &Host, label: &[u8], ending: Ending, read: u64, byte: u64) {
    if let Ending::Records(Stop::End | Stop::Failed) = ending {
        say_end(host, label, ending, read);
        return;
    }
    let mut line = Line::<4800>::new();
    line.put(label);
    line.fill(b": at byte @", &[byte]);
    say_end(host, line.bytes(), ending, read);
}
