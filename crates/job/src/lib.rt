// What the command line of `barzhilup log` asks for; on `interruption`, `beside_files` and `formats`.
#![tactic(auto)]

ghost use Rattle.std.specs.Prelude.{◌≤◌, IfSome};

use formats::Format;
use host::Host;
use options::{Command, Opt};
use std::num::NonZeroU32;

// The mode that is asked for: a number, or with the stream that of the first PDU that can be read.
#[derive(Clone, Copy, Debug, PartialEq, Eq)]
pub enum Mode {
    Number(u8),
    Auto,
}

// What is asked for.
#[derive(Clone, Copy, Debug)]
pub struct Job {
    pub mode: Mode,
    pub stream: u8,
    // The register that CRCs start with.
    pub register: u8,
    // Whether bytes at which no record begins are passed over.
    pub resync: bool,
    pub format: Format,
    // How many records are received in one call, 1 to 64, where that is asked for.
    pub batch: Option<NonZeroU32>,
}

// A number of one byte, 0 where its option is not given.
fn number(host: &Host, option: Opt) -> Option<u8> {
    let number = options::number(host, Command::Log, option, 0, 0, 255)?;
    Some(number as u8)
}

// Whether mode and stream are to be those of the first PDU that can be read.
fn is_auto(host: &Host) -> bool {
    let mut value = [0u8; 8];
    let n = options::value(host, Command::Log, Opt::Mode, &mut value);
    check::same(&value[..n], b"auto")
}

// The mode that is asked for.
fn mode_asked(host: &Host) -> Option<Mode> {
    if is_auto(host) {
        return Some(Mode::Auto);
    }
    let mode = number(host, Opt::Mode)?;
    Some(Mode::Number(mode))
}

// Whether an option by which PDUs are not read one by one from one file is given.
fn is_otherwise(host: &Host) -> bool {
    options::given(host, Command::Log, Opt::Batch)
        | options::given(host, Command::Log, Opt::Marks)
        | options::given(host, Command::Log, Opt::Second)
}

fn format_named(name: &[u8]) -> Option<Format> {
    match name {
        b"words" => Some(Format::Words),
        b"text" => Some(Format::Text),
        b"csv" => Some(Format::Csv),
        b"json" => Some(Format::Json),
        b"records" => Some(Format::Records),
        _ => None,
    }
}

// The format that is asked for; where there is no such format, says so.
fn format_asked(host: &Host) -> Option<Format> {
    if !options::given(host, Command::Log, Opt::Format) {
        return Some(Format::Text);
    }
    let mut name = io::buffer();
    let n = options::value(host, Command::Log, Opt::Format, &mut name);
    let format = format_named(&name[..n]);
    if format.is_none() {
        options::complain_of(
            host,
            Command::Log,
            Opt::Format,
            b": not words, text, csv, json or records: ",
            &name[..n],
        );
    }
    format
}

// Whether an option is right; if not, says what is wrong.
fn is_right(host: &Host, option: Opt, wrong: bool, words: &[u8]) -> bool {
    if wrong {
        options::complain(host, Command::Log, option, words);
    }
    !wrong
}

// Whether frames can be received in one call with what else is asked for (document 02, Ask 3: only mending and the single receive call take marks;
// Ask 5: a pair is received by a call of its own); if not, says so.
fn can_batch(host: &Host) -> bool {
    let batches = options::given(host, Command::Log, Opt::Batch);
    let marks = options::given(host, Command::Log, Opt::Marks);
    let pairs = options::given(host, Command::Log, Opt::Second);
    is_right(
        host,
        Opt::Batch,
        batches & marks,
        b": a batch takes no marks",
    ) & is_right(
        host,
        Opt::Batch,
        batches & !marks & pairs,
        b": a batch takes no pairs",
    )
}

// Whether the file of an option and the PDUs are not both on standard input; if they are, says so.
fn is_apart(host: &Host, option: Opt) -> bool {
    files::is_apart(
        host,
        Command::Log,
        option,
        Opt::In,
        b": standard input has the PDUs",
    )
}

// Whether copies have no marks; if they have, says so.
fn can_pair(host: &Host) -> bool {
    is_right(
        host,
        Opt::Second,
        options::given(host, Command::Log, Opt::Second)
            & options::given(host, Command::Log, Opt::Marks),
        b": a pair takes no marks",
    )
}

// Whether every option is one that is known, with its value, and the files go together; if not, says what is wrong.
pub fn check(host: &Host) -> bool {
    options::check(host, Command::Log)
        && is_apart(host, Opt::Marks)
        && is_apart(host, Opt::Second)
        && can_pair(host)
}

// Whether the log that is summed up has a name; if not, says so.
fn has_name(host: &Host) -> bool {
    let mut name = io::buffer();
    if options::value(host, Command::Log, Opt::Summary, &mut name) != 0 {
        return true;
    }
    options::complain(host, Command::Log, Opt::Summary, b": value missing");
    false
}

// Whether the summary of a log is asked for alone, as one argument or as two after the subcommand; if not, says so.
pub fn is_alone(host: &Host) -> bool {
    let mut first = [0u8; 16];
    let n = host.arg(2, &mut first).unwrap_or(0);
    let count = host.arg_count();
    if (count == 3) | ((count == 4) & check::same(&first[..n], b"--summary")) {
        return has_name(host);
    }
    options::complain(
        host,
        Command::Log,
        Opt::Summary,
        b": goes with no other option",
    );
    false
}

// Whether an option by which PDUs are read one by one from one file goes with the others, where it is given; if not, says so in these words.
fn is_one_by_one(host: &Host, option: Opt, given: bool, words: &[u8]) -> bool {
    is_right(host, option, given & is_otherwise(host), words)
}

// Whether the options go together; if not, says why.
fn go_together(host: &Host, auto: bool, resync: bool) -> bool {
    can_batch(host)
        & is_one_by_one(
            host,
            Opt::Resync,
            resync,
            b": not with --batch, --marks or --second",
        )
        & is_one_by_one(
            host,
            Opt::Mode,
            auto,
            b" auto: not with --batch, --marks or --second",
        )
        & interruption::is_asked(host)
        & beside_files::asked::is_asked(host)
}

// What is asked for, where mode, stream, the register that CRCs start with, the entitled programs, format and the records of a frame are given as they can be, and
// the options go together; says what is wrong with each that is not.
pub fn asked(host: &Host) -> Option<Job> {
    let resync = options::given(host, Command::Log, Opt::Resync);
    let mode = mode_asked(host);
    let stream = number(host, Opt::Stream);
    let register = number(host, Opt::CrcStart);
    let programs = opening::is_asked(host);
    let format = format_asked(host);
    let batch = options::number(host, Command::Log, Opt::Batch, 0, 1, 64);
    if !(programs & go_together(host, mode == Some(Mode::Auto), resync)) {
        return None;
    }
    Some(Job {
        mode: mode?,
        stream: stream?,
        register: register?,
        resync,
        format: format?,
        batch: NonZeroU32::new(batch?),
    })
}
