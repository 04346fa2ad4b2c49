// Turns a file of PDUs into the packet log (document 01, "Receiver"), on `job`, `recordings`, `batch`, `ahead_logging`, `summary` and `remarks`.
#![tactic(auto)]

mod batches;
mod live;
mod two;

ghost use Rattle.std.specs.Prelude.{◌≡◌, length};

use files::{Exit, Label};
use formats::Format;
use host::Host;
use job::{Job, Mode};
use logging::output::Sink;
use logging::{Onto, Run};
use options::{Command, Opt};
use receiver::Receiver;
use saved_state::State;

// What is known of packets where all PDUs are logged: nothing is wrong with them, or some were never sent, which is said.
#[derive(Clone, Copy, Debug, PartialEq, Eq)]
enum Logged {
    Well,
    NeverSent,
}

// The files of a run that are written, that of the log with its label, and those beside it with theirs.
#[derive(Drop)]
struct Outputs {
    onto: Onto,
    label: Label,
    labels: beside_files::Labels,
}

impl Outputs {
    // Makes the files, and opens that of the packets that were sent. What cannot be had is said.
    fn make(host: &Host, format: Format) -> Option<Outputs> {
        let label = files::label(host, Command::Log, Opt::Out);
        let labels = beside_files::Labels::new(host);
        let opened = beside_files::open(host, label.bytes(), &labels)?;
        let sink = Sink {
            fd: opened.output,
            format,
        };
        Some(Outputs {
            onto: Onto {
                sink,
                beside: opened.beside,
            },
            label,
            labels,
        })
    }

    // Takes up how many packets were sent, where they are compared with.
    fn begin(&self, counts: &mut [u64]) {
        if let Some(sent) = self.onto.beside.sent {
            sent.begin(counts);
        }
    }

    // Closes the file of the log. Answers whether that went well; if not, says why.
    fn close(&self, host: &Host) -> bool {
        files::close(host, self.onto.sink.fd, self.label.bytes())
    }

    // Ends and closes the files beside it, where all PDUs are logged or not. Answers whether that went well; if not, says why.
    fn finish(&self, host: &Host, whole: bool, counts: &[u64]) -> bool {
        beside_files::finish(host, self.onto.beside, whole, counts, &self.labels)
    }
}

// Every count 0, and after the counts what a comparison with the packets that were sent keeps.
fn no_counts() -> [u64; 163904]
    ensures { 163904 ≡ length result }
{
    [0; 163904]
}

// The program. What went wrong is said.
pub fn program(host: &Host) -> Exit {
    if options::given(host, Command::Log, Opt::Help) {
        return files::status(host, Command::Log, remarks::help(host));
    }
    if !job::check(host) {
        return Exit::Wrong;
    }
    if options::given(host, Command::Log, Opt::Summary) {
        return summarized(host);
    }
    match job::asked(host) {
        Some(job) => exit_of(host, with_job(host, job)),
        None => Exit::Wrong,
    }
}

// How a run ends that has logged all PDUs, or not, which the last line says; where packets were never sent, that is said already.
fn exit_of(host: &Host, logged: Option<Logged>) -> Exit {
    if logged == Some(Logged::NeverSent) {
        return Exit::Early;
    }
    files::status(host, Command::Log, logged.is_some())
}

// Sums up a log that is there.
fn summarized(host: &Host) -> Exit {
    if !job::is_alone(host) {
        return Exit::Wrong;
    }
    let summed = match files::opened(host, Command::Log, Opt::Summary) {
        Some(log) => summary::of_file(host, log.fd, log.label.bytes()),
        None => false,
    };
    files::status(host, Command::Log, summed)
}

// Makes the log; nothing where not all of it is made.
fn with_job(host: &Host, job: Job) -> Option<Logged> {
    match job.mode {
        Mode::Auto => live::with_job(host, job),
        Mode::Number(mode) => with_mode(host, job, mode),
    }
}

// Opens the receiver for a mode, or the saved one.
fn with_mode(host: &Host, job: Job, mode: u8) -> Option<Logged> {
    let mut carry = io::buffer();
    let state = interruption::begin(host, mode, job.stream, job.register, &mut carry)?;
    with_state(host, job, state, &mut carry)
}

// Opens the file of PDUs, and a second one where it is given.
fn with_state(host: &Host, job: Job, state: State, carry: &mut [u8]) -> Option<Logged> {
    let pdus = files::opened(host, Command::Log, Opt::In)?;
    if options::given(host, Command::Log, Opt::Second) {
        return two::with_first(host, job, state.receiver, &pdus);
    }
    live::with_state(host, job, state, carry, &pdus)
}

// Closes the files, and says what was received after so many PDUs.
fn finish(host: &Host, run: Run, before: u64, outputs: &Outputs, counts: &[u64]) -> Option<Logged> {
    let closed = outputs.close(host);
    remarks::summary(host, run.pdus.wrapping_sub(before), counts);
    let whole = run.is_whole();
    let written = outputs.finish(host, whole, counts);
    ask(host, run.receiver, counts);
    how_logged(host, whole & closed & written, counts)
}

// What is known of the packets of a run that did all or not, by its counts. Those that were never sent are said once more.
fn how_logged(host: &Host, done: bool, counts: &[u64]) -> Option<Logged> {
    if !done {
        return None;
    }
    if comparison::never_sent(counts) == 0 {
        return Some(Logged::Well);
    }
    remarks::never_sent(host);
    Some(Logged::NeverSent)
}

// Asks whether mode, stream and register are the file's, where what was received speaks against it.
fn ask(host: &Host, receiver: Receiver, counts: &[u64]) {
    if counts::is_none_received(counts) {
        remarks::none_received(host, receiver.mode, receiver.stream);
    }
    if counts::is_every_crc_wrong(counts) {
        remarks::crcs_wrong(host, b"all", receiver.register);
    }
    if counts::is_nearly_every_crc_wrong(counts) {
        remarks::crcs_wrong(host, b"nearly all", receiver.register);
    }
}
