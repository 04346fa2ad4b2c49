// What `barzhilup generate` reads before the packets: the PSD, and the changes of settings; on `psd_stream` and `transmission`.
#![tactic(auto)]

ghost use Rattle.std.specs.Prelude.{IfSome};
ghost use Rattle.io.specs.Counts.{IsPrefixLen};

use files::Name;
use host::Host;
use options::{Command, Opt};
use psd_stream::{Stream, Supply};
use records::Stop;

// Whether an option is right; if not, says what is wrong.
fn is_right(host: &Host, option: Opt, wrong: bool, words: &[u8]) -> bool {
    if wrong {
        options::complain(host, Command::Generate, option, words);
    }
    !wrong
}

// Whether an option is not given without the name of a file; if it is, says so.
fn has_name(host: &Host, option: Opt) -> bool {
    is_right(
        host,
        option,
        files::named(host, Command::Generate, option) == Name::Empty,
        b": value missing",
    )
}

// Whether an option is given as a dash, which stands for standard input.
fn is_dash(host: &Host, option: Opt) -> bool {
    files::named(host, Command::Generate, option) == Name::Dash
}

// Whether an option comes with PSD that runs across PDUs; if not, says so.
fn has_stream(host: &Host, option: Opt, streams: bool) -> bool {
    is_right(
        host,
        option,
        !streams & options::given(host, Command::Generate, option),
        b": no PSD runs across PDUs (--psd-stream)",
    )
}

// Whether the options that say what is read besides packets go together; if not, says what is wrong.
fn go_together(host: &Host) -> bool {
    let streams = options::given(host, Command::Generate, Opt::PsdStream);
    is_right(
        host,
        Opt::PsdStream,
        streams & options::given(host, Command::Generate, Opt::Psd),
        b": takes the place of --psd",
    ) & has_stream(host, Opt::PsdBytes, streams)
        & has_stream(host, Opt::PsdRepeat, streams)
        & is_right(
            host,
            Opt::Settings,
            is_dash(host, Opt::Settings)
                & (is_dash(host, Opt::Psd) | is_dash(host, Opt::PsdStream)),
            b": standard input has the PSD",
        )
}

// Whether the file of an option and the packets are not both on standard input; if they are, says so.
fn is_apart(host: &Host, option: Opt) -> bool {
    files::is_apart(
        host,
        Command::Generate,
        option,
        Opt::In,
        b": standard input has the packets",
    )
}

// Whether every option is one that is known, with its value, and they go together; if not, says what is wrong.
pub fn check(host: &Host) -> bool {
    transmission::check(host, Command::Generate)
        && is_apart(host, Opt::PsdStream)
        && is_apart(host, Opt::Settings)
        && (has_name(host, Opt::PsdStream) & has_name(host, Opt::Settings) & go_together(host))
}

// The supply of a file whose bytes run across PDUs, at most so many in each; nothing where it cannot be had, which is said.
fn stream(host: &Host, most: usize) -> Option<Supply> {
    let file = files::opened(host, Command::Generate, Opt::PsdStream)?;
    let repeats = options::given(host, Command::Generate, Opt::PsdRepeat);
    let stream = Stream::new(host, file.fd, repeats, most);
    if repeats & stream.start.is_none() {
        files::say(
            host,
            file.label.bytes(),
            b": cannot be read again from its start (--psd-repeat)\n",
        );
        return None;
    }
    Some(Supply::of(stream))
}

// The supply of PSD that is asked for, in the buffer where it is the same for every PDU; nothing where it cannot be had, which is said.
pub fn supply(host: &Host, most: usize, psd: &mut [u8]) -> Option<Supply> {
    if options::given(host, Command::Generate, Opt::PsdStream) {
        return stream(host, most);
    }
    let length = transmission::psd::read(host, Command::Generate, psd)?;
    Some(Supply::same(length))
}

// Reads the changes of settings to the buffer's start. Answers how many bytes they are, none where none are asked for; nothing where they cannot be read, or
// fill the buffer, which may not have all of them: that is said.
pub fn settings(host: &Host, text: &mut [u8], label: &[u8]) -> Option<usize>
    ensures { IfSome result (λ n. IsPrefixLen n text.new) }
{
    if !options::given(host, Command::Generate, Opt::Settings) {
        return Some(0);
    }
    let fd = files::open(host, Command::Generate, Opt::Settings, label)?;
    let read = records::fill(host, fd, text);
    host.close(fd);
    match read.stop {
        None => {
            files::say(host, label, b": has over 65,535 bytes\n");
            None
        }
        Some(Stop::Failed) => {
            host.fail(label);
            None
        }
        Some(_) => Some(read.length),
    }
}
