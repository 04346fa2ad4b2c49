// Whether the options for the files beside the log go together.
use crate::OPTIONS;
use files::Name;
use host::Host;
use options::{Command, Opt};

// What is wrong with an option: it names no file, it does not go with an interrupted drive, or what a dash stands for is taken.
#[derive(Clone, Copy, Debug, PartialEq, Eq)]
enum Wrong {
    NoFile,
    Interrupted,
    OutputTaken,
    InputTaken,
}

impl Wrong {
    fn words(self) -> &'static [u8] {
        match self {
            Wrong::NoFile => b": names no file",
            Wrong::Interrupted => b": not with --save or --resume",
            Wrong::OutputTaken => b": standard output has another file",
            Wrong::InputTaken => b": standard input has another file",
        }
    }
}

// What an option of the subcommand names.
fn named(host: &Host, option: Opt) -> Name {
    files::named(host, Command::Log, option)
}

// Whether the log, or the file of one of these options, goes to standard output.
fn is_output_taken(host: &Host, others: &[Opt]) -> bool {
    (named(host, Opt::Out) != Name::Path)
        || others
            .iter()
            .any(|&option| named(host, option) == Name::Dash)
}

// Whether PDUs or marks are read from standard input.
fn is_input_taken(host: &Host) -> bool {
    (named(host, Opt::In) != Name::Path)
        | (named(host, Opt::Second) == Name::Dash)
        | (named(host, Opt::Marks) == Name::Dash)
}

// Whether what a dash stands for is free, for an option and those before it.
fn check_dash(host: &Host, option: Opt, others: &[Opt]) -> Result<(), Wrong> {
    if option.is_written() {
        if is_output_taken(host, others) {
            return Err(Wrong::OutputTaken);
        }
    } else if is_input_taken(host) {
        return Err(Wrong::InputTaken);
    }
    Ok(())
}

// Whether an interrupted drive is asked for: how far the files beside the log are, its state does not tell.
fn is_interrupted(host: &Host) -> bool {
    options::given(host, Command::Log, Opt::Save) | options::given(host, Command::Log, Opt::Resume)
}

// Whether an option is right, after those before it.
fn check(host: &Host, option: Opt, others: &[Opt]) -> Result<(), Wrong> {
    match named(host, option) {
        Name::Absent => Ok(()),
        Name::Empty => Err(Wrong::NoFile),
        Name::Dash | Name::Path if is_interrupted(host) => Err(Wrong::Interrupted),
        Name::Dash => check_dash(host, option, others),
        Name::Path => Ok(()),
    }
}

// The same; if it is not right, says what is wrong.
fn is_right(host: &Host, option: Opt, others: &[Opt]) -> bool {
    match check(host, option, others) {
        Ok(()) => true,
        Err(wrong) => {
            options::complain(host, Command::Log, option, wrong.words());
            false
        }
    }
}

// Whether an option for the comparison comes with the packets that were sent; if not, says so.
fn has_sent(host: &Host, option: Opt) -> bool {
    if !options::given(host, Command::Log, option) | options::given(host, Command::Log, Opt::Sent) {
        return true;
    }
    options::complain(
        host,
        Command::Log,
        option,
        b": nothing is compared (--sent)",
    );
    false
}

// Whether the options go together; if not, says why.
pub fn is_asked(host: &Host) -> bool {
    let mut right = has_sent(host, Opt::Compared) & has_sent(host, Opt::SentAdts);
    for (k, &option) in OPTIONS.iter().enumerate() {
        right = is_right(host, option, &OPTIONS[..k]) & right;
    }
    right
}
