// What the command line asks for.
use host::Host;
use options::{Command, Opt};
use side_by_side::Format;

// The most PDUs of a frame.
const MOST: u32 = 64;

// What is asked for: how many PDUs of either stream a frame has, and the format of the result.
#[derive(Clone, Copy)]
pub struct Job {
    pub core: u32,
    pub enhanced: u32,
    pub format: Format,
}

// Whether every option is one that is known, with its value, and the logs do not share standard input; if not, says what is wrong.
pub fn check(host: &Host) -> bool {
    files::check(
        host,
        Command::Join,
        Opt::Enhanced,
        Opt::In,
        b": standard input has the core's log",
    )
}

// How many PDUs of a stream a frame has.
fn pdus(host: &Host, option: Opt, default: u32) -> Option<u32> {
    options::number(host, Command::Join, option, default, 1, MOST)
}

fn format_named(name: &[u8]) -> Option<Format> {
    if check::same(name, b"words") {
        return Some(Format::Words);
    }
    if check::same(name, b"csv") {
        return Some(Format::Csv);
    }
    None
}

// The format that is asked for; where there is no such format, says so.
fn format_asked(host: &Host) -> Option<Format> {
    if !options::given(host, Command::Join, Opt::Format) {
        return Some(Format::Csv);
    }
    let mut name = io::buffer();
    let n = options::value(host, Command::Join, Opt::Format, &mut name);
    let format = format_named(&name[..n]);
    if format.is_none() {
        options::complain_of(
            host,
            Command::Join,
            Opt::Format,
            b": not words or csv: ",
            &name[..n],
        );
    }
    format
}

// What is asked for; nothing where the counts of PDUs in a frame or the format are not given as they can be. Each that is not is said.
pub fn asked(host: &Host) -> Option<Job> {
    let core = pdus(host, Opt::CorePdus, 8);
    let enhanced = pdus(host, Opt::EnhancedPdus, 1);
    let format = format_asked(host);
    Some(Job {
        core: core?,
        enhanced: enhanced?,
        format: format?,
    })
}
