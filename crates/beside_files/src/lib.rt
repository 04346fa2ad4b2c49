// The files that `barzhilup log` is asked for beside its log: which there are, how they are made and opened, and how they end; on `beside` and `packets`.
#![tactic(auto)]

pub mod asked;

use beside::{Beside, Fault};
use comparison::Sent;
use files::Label;
use host::{Fd, Host};
use options::{Command, Opt};
use packets::{Ending, Source};
use records::Stop;
use text::Line;

// The options of the files beside the log; the first four name files that are written, in the order in which these are made.
const OPTIONS: [Opt; 5] = [
    Opt::PacketsOut,
    Opt::AdtsOut,
    Opt::PsdOut,
    Opt::Compared,
    Opt::Sent,
];

// The labels of all files.
#[derive(Drop)]
pub struct Labels {
    packets: Label,
    adts: Label,
    psd: Label,
    list: Label,
    sent: Label,
}

impl Labels {
    pub fn new(host: &Host) -> Labels {
        Labels {
            packets: files::label(host, Command::Log, Opt::PacketsOut),
            adts: files::label(host, Command::Log, Opt::AdtsOut),
            psd: files::label(host, Command::Log, Opt::PsdOut),
            list: files::label(host, Command::Log, Opt::Compared),
            sent: files::label(host, Command::Log, Opt::Sent),
        }
    }
}

// How many packets of a file are read, and why no more are.
#[derive(Clone, Copy, Debug)]
struct Counted {
    many: u64,
    ending: Ending,
}

// Counts the packets that were sent, by a buffer, until one cannot be read or has no bytes.
fn count(host: &Host, source: Source, buf: &mut [u8]) -> Counted {
    for many in 0..u64::MAX {
        if let Err(ending) = packets::read(host, source, buf) {
            return Counted { many, ending };
        }
    }
    Counted {
        many: u64::MAX,
        ending: Ending::Records(Stop::Long),
    }
}

// The packets that were sent, in an open file that begins with one; where it cannot be gone back in, has something else than packets, or too many, says so.
fn with_sent(host: &Host, fd: Fd, label: &[u8]) -> Option<Sent> {
    if !host.go_to(fd, 0) {
        files::say(
            host,
            label,
            b": is read more than once, so it cannot be a pipe or a terminal\n",
        );
        return None;
    }
    let adts = options::given(host, Command::Log, Opt::SentAdts);
    let mut buf = io::buffer();
    let counted = count(host, Source { fd, adts }, &mut buf);
    packets::say_end(host, label, counted.ending, counted.many);
    if comparison::MOST < counted.many {
        files::say(
            host,
            label,
            b": has over 1,048,576 packets, more than can be compared with\n",
        );
        return None;
    }
    if counted.ending != Ending::Records(Stop::End) {
        return None;
    }
    Some(Sent {
        fd,
        adts,
        many: counted.many,
        list: None,
    })
}

// A file that is asked for and cannot be had, by its option.
#[derive(Clone, Copy, Debug)]
struct Missing(Opt);

// Opens the file of the packets that were sent, where one is given.
fn open_sent(host: &Host, label: &[u8]) -> Result<Option<Sent>, Missing> {
    if !options::given(host, Command::Log, Opt::Sent) {
        return Ok(None);
    }
    let missing = Missing(Opt::Sent);
    let fd = files::open(host, Command::Log, Opt::Sent, label).ok_or(missing)?;
    let sent = with_sent(host, fd, label).ok_or(missing)?;
    Ok(Some(sent))
}

// Makes the file of an option, if it is asked for.
fn make(host: &Host, option: Opt, label: &Label) -> Result<Option<Fd>, Missing> {
    if !options::given(host, Command::Log, option) {
        return Ok(None);
    }
    let fd = files::open(host, Command::Log, option, label.bytes()).ok_or(Missing(option))?;
    Ok(Some(fd))
}

// The files that are written, as far as they are asked for.
#[derive(Clone, Copy, Debug)]
struct Written {
    packets: Option<Fd>,
    adts: Option<Fd>,
    psd: Option<Fd>,
    list: Option<Fd>,
}

// Makes the files that are written, up to the first that cannot be made.
fn make_all(host: &Host, labels: &Labels) -> Result<Written, Missing> {
    Ok(Written {
        packets: make(host, Opt::PacketsOut, &labels.packets)?,
        adts: make(host, Opt::AdtsOut, &labels.adts)?,
        psd: make(host, Opt::PsdOut, &labels.psd)?,
        list: make(host, Opt::Compared, &labels.list)?,
    })
}

// Removes the files that were made before one that is missing.
fn unmake_before(host: &Host, missing: Missing) {
    for &option in &OPTIONS {
        if option == missing.0 {
            return;
        }
        files::unmake(host, Command::Log, option);
    }
}

// The files of a run: that of the log, and those beside it.
#[derive(Clone, Copy, Debug)]
pub struct Opened {
    pub output: Fd,
    pub beside: Beside,
}

// Makes the files beside that of the log, which is made; where one cannot be made, the others go, that of the log too.
fn with_output(host: &Host, labels: &Labels, output: Fd, sent: Option<Sent>) -> Option<Opened> {
    let written = match make_all(host, labels) {
        Ok(written) => written,
        Err(missing) => {
            unmake_before(host, missing);
            files::unmake(host, Command::Log, Opt::Out);
            return None;
        }
    };
    let list = written.list;
    if !comparison::list::begin(host, list) {
        host.fail(labels.list.bytes());
        return None;
    }
    Some(Opened {
        output,
        beside: Beside {
            packets: written.packets,
            adts: written.adts,
            psd: written.psd,
            sent: sent.map(|sent| Sent { list, ..sent }),
        },
    })
}

// Opens the packets that were sent, and makes the file of the log, whose label this is, and those beside it. What cannot be had is said.
pub fn open(host: &Host, onto: &[u8], labels: &Labels) -> Option<Opened> {
    let sent = open_sent(host, labels.sent.bytes()).ok()?;
    let output = files::open(host, Command::Log, Opt::Out, onto)?;
    with_output(host, labels, output, sent)
}

// Says why no more PDUs are logged, where that is by one of these files.
pub fn ends(host: &Host, fault: Fault, labels: &Labels) {
    match fault {
        Fault::Packets => host.fail(labels.packets.bytes()),
        Fault::Adts => host.fail(labels.adts.bytes()),
        Fault::Psd => host.fail(labels.psd.bytes()),
        Fault::List => host.fail(labels.list.bytes()),
        Fault::Sent => files::say(
            host,
            labels.sent.bytes(),
            b": cannot be read again as it was\n",
        ),
    }
}

// Closes a file, if there is one. Answers whether that went well; if not, says why.
fn close(host: &Host, file: Option<Fd>, label: &Label) -> bool {
    match file {
        Some(fd) => files::close(host, fd, label.bytes()),
        None => true,
    }
}

// Writes the last lines of the list where all PDUs are logged. Answers whether they are written; if not, says why.
fn list_ended(host: &Host, sent: Sent, whole: bool, row: &[u64], labels: &Labels) -> bool {
    if !whole {
        return true;
    }
    match sent.end(host, row) {
        Ok(()) => true,
        Err(fault) => {
            ends(host, fault.into(), labels);
            false
        }
    }
}

// Says what came of the comparison.
fn say_compared(host: &Host, row: &[u64]) {
    let mut lines = Line::<512>::new();
    comparison::put_summary(&mut lines, row);
    host.write_all(host::STDERR, lines.bytes());
}

// Ends the comparison, where all PDUs are logged or not, and says what came of it.
fn comparison_ended(host: &Host, sent: Sent, whole: bool, row: &[u64], labels: &Labels) -> bool {
    let ended = list_ended(host, sent, whole, row, labels);
    say_compared(host, row);
    ended & close(host, sent.list, &labels.list)
}

// Ends and closes the files, where all PDUs are logged or not. Answers whether that went well; if not, says why.
pub fn finish(host: &Host, b: Beside, whole: bool, row: &[u64], labels: &Labels) -> bool {
    let compared = match b.sent {
        Some(sent) => comparison_ended(host, sent, whole, row, labels),
        None => true,
    };
    compared
        & close(host, b.packets, &labels.packets)
        & close(host, b.adts, &labels.adts)
        & close(host, b.psd, &labels.psd)
}
