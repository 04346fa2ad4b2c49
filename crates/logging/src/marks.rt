// The file of marks: for each PDU a record, whose bytes are the places of those header bytes that are marked doubtful (document 02, Ask 3).
ghost use Rattle.std.specs.Prelude.{IfOk};
ghost use Rattle.io.specs.Counts.{IsPrefixLen};

use crate::Ending;
use host::{Fd, Host};
use records::Stop;

// What is wrong with the file: it ends before the marks of a PDU, or inside them, or cannot be read, or goes on after those of the last PDU.
#[derive(Clone, Copy, Debug, PartialEq, Eq)]
pub enum Fault {
    Missing,
    Cut,
    Unread,
    Left,
}

impl From<Stop> for Fault {
    // What is wrong where a PDU's marks are not read.
    fn from(stop: Stop) -> Fault {
        match stop {
            Stop::End => Fault::Missing,
            Stop::Cut => Fault::Cut,
            Stop::Long | Stop::Failed => Fault::Unread,
        }
    }
}

// Reads the marks of the next PDU to the buffer's start; where there is no file of marks, it has none. Answers how many.
pub fn next(host: &Host, file: Option<Fd>, buf: &mut [u8]) -> Result<usize, Fault>
    ensures { IfOk result (λ n. IsPrefixLen n buf.new) }
{
    let Some(fd) = file else {
        return Ok(0);
    };
    Ok(records::read(host, fd, buf).whole()?)
}

// How a run ends after what stopped its records: where all PDUs are read, no marks may be left.
pub fn last(host: &Host, file: Option<Fd>, buf: &mut [u8], stop: Stop) -> Ending {
    let (Stop::End, Some(fd)) = (stop, file) else {
        return Ending::Records(stop);
    };
    match records::read(host, fd, buf).whole() {
        Err(Stop::End) => Ending::Records(Stop::End),
        Err(Stop::Failed) => Ending::Marks(Fault::Unread),
        Ok(_) | Err(Stop::Cut | Stop::Long) => Ending::Marks(Fault::Left),
    }
}
