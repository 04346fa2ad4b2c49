// The receiver of a program, opened for the programs that its option `--entitled` names (document 02, Ask 10): numbers with commas between them, or `none`; on
// `receiver`, `count_list` and `options`.
// Without the option it is entitled to all.
#![tactic(auto)]

use host::Host;
use options::{Command, Opt};
use receiver::Receiver;

// So many numbers of a list are enough: of nine programs one is over 7, or there twice.
const MOST: usize = 9;

// A number as a byte; one that is more counts as 255, which no program has.
fn byte_of(number: u32) -> u8 {
    number.min(255) as u8
}

// Whether a text is a list of numbers, or `none`.
fn is_list(text: &[u8]) -> bool {
    check::same(text, b"none") || count_list::from_text(text, &mut [0u32; MOST]).is_some()
}

// Whether the option, if it is given, has a list or `none`; if not, says so.
pub fn is_asked(host: &Host) -> bool {
    if !options::given(host, Command::Log, Opt::Entitled) {
        return true;
    }
    let mut value = io::buffer();
    let n = options::value(host, Command::Log, Opt::Entitled, &mut value);
    if is_list(&value[..n]) {
        return true;
    }
    options::complain_of(
        host,
        Command::Log,
        Opt::Entitled,
        b": not none, nor numbers with commas between them: ",
        &value[..n],
    );
    false
}

// Opens a receiver for the programs of a text, as `receiver::open_entitled` does; for none where it is no list.
fn for_programs(mode: u8, stream: u8, register: u8, text: &[u8]) -> receiver::Opened {
    let mut numbers = [0u32; MOST];
    let count = count_list::from_text(text, &mut numbers).unwrap_or(0);
    let programs = numbers.map(byte_of);
    receiver::open_entitled(mode, stream, register, &programs[..count])
}

// Opens a receiver for the programs that the option names, or for all.
fn opened(host: &Host, mode: u8, stream: u8, register: u8) -> receiver::Opened {
    if !options::given(host, Command::Log, Opt::Entitled) {
        return receiver::open(mode, stream, register);
    }
    let mut value = io::buffer();
    let n = options::value(host, Command::Log, Opt::Entitled, &mut value);
    for_programs(mode, stream, register, &value[..n])
}

// Opens a receiver for the programs that the option names, or for all; or refuses with 5, or 22.
pub fn open(host: &Host, mode: u8, stream: u8, register: u8) -> Result<Receiver, u32> {
    let opened = opened(host, mode, stream, register);
    if opened.refusal != 0 {
        return Err(opened.refusal);
    }
    Ok(opened.receiver)
}
