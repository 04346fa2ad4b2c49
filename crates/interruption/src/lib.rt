// A drive that is interrupted (document 02, Ask 13): what `--save`, `--resume` and `--skip` of `barzhilup log` ask for; on `saved_state`, `opening`, `causes`,
// `limits` and `named_settings`.
#![tactic(auto)]

use files::{File, Name};
use host::{Fd, Host};
use limits::Request;
use named_settings::Given;
use options::{Command, Opt};
use records::Stop;
use saved_state::{Fault, State};
use text::Line;

// Whether an option is right; if not, says what is wrong.
fn is_right(host: &Host, option: Opt, wrong: bool, words: &[u8]) -> bool {
    if wrong {
        options::complain(host, Command::Log, option, words);
    }
    !wrong
}

// Whether an option names a file.
fn is_file(host: &Host, option: Opt) -> bool {
    files::named(host, Command::Log, option) == Name::Path
}

// Whether the files of both options can be had as they are asked for; if not, says why.
fn are_files(host: &Host, saves: bool, resumes: bool) -> bool {
    is_right(
        host,
        Opt::Save,
        saves & !is_file(host, Opt::Save),
        b": names no file",
    ) & is_right(
        host,
        Opt::Save,
        saves & !is_file(host, Opt::Out),
        b": the log goes to no file (--out)",
    ) & is_right(
        host,
        Opt::Resume,
        resumes & !is_file(host, Opt::Resume),
        b": names no file",
    )
}

// Whether the receiver is opened by an option, which a saved one is not.
fn is_opened(host: &Host) -> bool {
    options::given(host, Command::Log, Opt::Mode)
        | options::given(host, Command::Log, Opt::Stream)
        | options::given(host, Command::Log, Opt::CrcStart)
        | options::given(host, Command::Log, Opt::Entitled)
}

// Whether the options go together; if not, says why.
pub fn is_asked(host: &Host) -> bool {
    let saves = options::given(host, Command::Log, Opt::Save);
    let resumes = options::given(host, Command::Log, Opt::Resume);
    let pairs = options::given(host, Command::Log, Opt::Second);
    are_files(host, saves, resumes)
        & is_right(host, Opt::Save, saves & pairs, b": not with two recordings")
        & is_right(
            host,
            Opt::Resume,
            resumes & pairs,
            b": not with two recordings",
        )
        & is_right(
            host,
            Opt::Resume,
            resumes & is_opened(host),
            b": its file has mode, stream, start of CRCs and programs",
        )
        & is_right(
            host,
            Opt::Skip,
            options::given(host, Command::Log, Opt::Skip) & !resumes,
            b": nothing is resumed (--resume)",
        )
}

// Says that a receiver is not opened, for the file of a label where it has one.
fn refused(host: &Host, label: &[u8], refusal: u32) {
    let mut line = Line::<4800>::new();
    line.put(label);
    line.fill(b": refused with @: ", &[u64::from(refusal)]);
    causes::put_refused(&mut line, refusal, 0);
    host.write_all(host::STDERR, line.bytes());
}

// Says that no receiver is opened for a mode and a stream: with 5 by the words in which a writer refuses them, that have the table.
fn not_opened(host: &Host, refusal: u32, mode: u8, stream: u8) {
    if refusal != 5 {
        refused(host, b"barzhilup log", refusal);
        return;
    }
    let request = Request {
        mode,
        stream,
        length: 0,
        settings: Given::none().settings(),
    };
    let mut line = Line::<256>::new();
    line.put(Command::Log.words());
    limits::put(&mut line, refusal, request);
    host.write_all(host::STDERR, line.bytes());
}

// How a drive begins, with a receiver that is opened for a mode, a stream, a register and the entitled programs of the option; if it is refused, says so.
fn opened(host: &Host, mode: u8, stream: u8, register: u8) -> Option<State> {
    match opening::open(host, mode, stream, register) {
        Ok(receiver) => Some(State {
            receiver,
            pdus: 0,
            bytes: 0,
        }),
        Err(refusal) => {
            not_opened(host, refusal, mode, stream);
            None
        }
    }
}

// Says how far a drive is.
fn say_goes_on(host: &Host, label: &[u8], state: State) {
    let mut line = Line::<4800>::new();
    line.put(label);
    line.fill(
        b": goes on after @ PDUs and @ bytes of their log\n",
        &[state.pdus, state.bytes],
    );
    host.write_all(host::STDERR, line.bytes());
}

// Says why a file has no state.
fn say_wrong(host: &Host, label: &[u8], fault: Fault) {
    match fault {
        Fault::Failed => host.fail(label),
        Fault::Refused(refusal) => refused(host, label, refusal),
    }
}

// The state that an open file has, which is said, or what is wrong; its held bytes go to the carry.
fn resumed(host: &Host, file: &File, carry: &mut [u8]) -> Option<State> {
    let loaded = State::load(host, file.fd, carry);
    match loaded {
        Ok(state) => say_goes_on(host, file.label.bytes(), state),
        Err(fault) => say_wrong(host, file.label.bytes(), fault),
    }
    host.close(file.fd);
    loaded.ok()
}

// How the drive stands where a run begins: as the file of `--resume` has it, or with a receiver that is opened. If it cannot begin, says why.
pub fn begin(host: &Host, mode: u8, stream: u8, register: u8, carry: &mut [u8]) -> Option<State> {
    if !options::given(host, Command::Log, Opt::Resume) {
        return opened(host, mode, stream, register);
    }
    let file = files::opened(host, Command::Log, Opt::Resume)?;
    resumed(host, &file, carry)
}

// Passes over so many records of a file, by a buffer, up to one that is not whole.
fn passed(host: &Host, fd: Fd, many: u64, buf: &mut [u8]) -> Result<(), Stop> {
    for _ in 0..many {
        records::read(host, fd, buf).whole()?;
    }
    Ok(())
}

// Passes over the records of so many PDUs in a file, where `--skip` is given and there is one. Answers whether they are there; if not, says so with its label.
pub fn pass_over(host: &Host, file: Option<Fd>, label: &[u8], many: u64) -> bool {
    let Some(fd) = file else {
        return true;
    };
    if !options::given(host, Command::Log, Opt::Skip) {
        return true;
    }
    let mut buf = [0u8; 65535];
    match passed(host, fd, many, &mut buf) {
        Ok(()) => true,
        Err(Stop::Failed) => {
            host.fail(label);
            false
        }
        Err(Stop::End | Stop::Cut | Stop::Long) => {
            files::say_number(
                host,
                label,
                b": has fewer than the ",
                many,
                b" PDUs that are logged\n",
            );
            false
        }
    }
}

// The name of the file of `--save`; nothing where none is asked for.
pub fn path(host: &Host) -> Line<4096> {
    let mut value = io::buffer();
    let n = options::value(host, Command::Log, Opt::Save, &mut value);
    let mut path = Line::new();
    path.put(&value[..n]);
    path
}

// Puts how the drive stands into the file of a name that is taken for it. Answers whether that went well; if not, the file goes.
fn first_state(host: &Host, state: State, carry: &[u8]) -> bool {
    let saved = state.save(host, path(host).bytes(), carry);
    if !saved {
        files::unmake(host, Command::Log, Opt::Save);
    }
    saved
}

// Makes the file of `--save`, where one is asked for, with how the drive stands. Answers whether that went well; if not, says why, and there is none.
pub fn make(host: &Host, state: State, carry: &[u8]) -> bool {
    if !options::given(host, Command::Log, Opt::Save) {
        return true;
    }
    let Some(file) = files::opened(host, Command::Log, Opt::Save) else {
        return false;
    };
    host.close(file.fd);
    first_state(host, state, carry)
}
