// What the command line asks to be sent: mode and stream, the register that CRCs start with, the length of each PDU, its settings and its PSD; on
// `limits`, `named_settings`, `records` and `files`.
#![tactic(auto)]

pub mod psd;

use host::Host;
use limits::Request;
use named_settings::{Given, NAMES, Name};
use options::{Command, Opt, SETTINGS};
use settings::Settings;

// What is asked for.
#[derive(Clone, Copy, Debug)]
pub struct Transmission {
    pub mode: u8,
    pub stream: u8,
    pub register: u8,
    pub length: usize,
    pub given: Given,
}

impl Transmission {
    // The settings of every PDU.
    pub fn settings(self) -> Settings {
        self.given.settings()
    }

    // What a writer is asked for.
    pub fn request(self) -> Request {
        Request {
            mode: self.mode,
            stream: self.stream,
            length: self.length,
            settings: self.settings(),
        }
    }
}

// Whether every option is one that is known, with its value, packets and PSD are not both on standard input, and frames are not looked for among records; if
// not, says what is wrong.
pub fn check(host: &Host, command: Command) -> bool {
    if !files::check(
        host,
        command,
        Opt::Psd,
        Opt::In,
        b": standard input has the packets",
    ) {
        return false;
    }
    if options::given(host, command, Opt::Resync) & !options::given(host, command, Opt::Adts) {
        options::complain(
            host,
            command,
            Opt::Resync,
            b": nothing tells where a record of a packet begins (--adts)",
        );
        return false;
    }
    true
}

// A number of one byte.
fn octet(host: &Host, command: Command, option: Opt) -> Option<u8> {
    let number = options::number(host, command, option, 0, 0, 255)?;
    Some(number as u8)
}

// What is given, with the value of one name, if its option is given, too.
fn with_option(
    host: &Host,
    command: Command,
    option: Opt,
    name: Name,
    given: Given,
) -> Option<Given> {
    if !options::given(host, command, option) {
        return Some(given);
    }
    if name.is_flag() {
        return Some(given.with(name, 1));
    }
    let value = options::number(host, command, option, 0, 0, name.most())?;
    Some(given.with(name, value))
}

// What is given of the settings of every PDU.
fn settings_given(host: &Host, command: Command) -> Option<Given> {
    let mut given = Given::none();
    let mut right = true;
    for (&name, &option) in NAMES.iter().zip(SETTINGS.iter()) {
        match with_option(host, command, option, name, given) {
            Some(next) => given = next,
            None => right = false,
        }
    }
    right.then_some(given)
}

// What a subcommand asks for, by the options that it knows; nothing where one is no number in its range, which is said.
pub fn asked(host: &Host, command: Command) -> Option<Transmission> {
    let mode = octet(host, command, Opt::Mode);
    let stream = octet(host, command, Opt::Stream);
    let register = octet(host, command, Opt::CrcStart);
    let length = options::number(host, command, Opt::Length, 1024, 0, 65535);
    let given = settings_given(host, command);
    Some(Transmission {
        mode: mode?,
        stream: stream?,
        register: register?,
        length: length? as usize,
        given: given?,
    })
}
