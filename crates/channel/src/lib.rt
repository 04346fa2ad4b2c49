// A channel for a file of PDUs: some PDUs are lost, in bursts, and some of those that come through have bytes of the header changed, or bits of pieces flipped,
// come twice or out of turn, or are cut; on `passage` and `options`.
#![tactic(auto)]

mod arguments;
mod report;

use arguments::Job;
use disorder::Outlet;
use files::{Exit, File};
use host::Host;
use options::{Command, Opt};
use passage::{Ending, Run, Task};
use records::Stop;
use report::{Counted, Labels};

// The subcommand `channel`: answers how it ends.
pub fn program(host: &Host) -> Exit {
    if options::given(host, Command::Channel, Opt::Help) {
        return files::status(host, Command::Channel, report::usage(host));
    }
    if !files::check(
        host,
        Command::Channel,
        Opt::MarksOut,
        Opt::Out,
        b": standard output has the PDUs",
    ) {
        return Exit::Wrong;
    }
    match arguments::asked(host) {
        Some(job) => files::status(host, Command::Channel, run(host, job)),
        None => Exit::Wrong,
    }
}

// Opens the file that is read, and sends its PDUs over the channel. Answers whether all is done; what went wrong is said.
fn run(host: &Host, job: Job) -> bool {
    match files::opened(host, Command::Channel, Opt::In) {
        Some(input) => with_input(host, job, &input),
        None => false,
    }
}

// Makes the file of marks, where one is asked for.
fn with_input(host: &Host, job: Job, input: &File) -> bool {
    if !options::given(host, Command::Channel, Opt::MarksOut) {
        return with_marks(host, job, input, None);
    }
    match files::opened(host, Command::Channel, Opt::MarksOut) {
        Some(marks) => with_marks(host, job, input, Some(&marks)),
        None => false,
    }
}

// Makes the file that is written, and sends every PDU over the channel. Where that file is not made, that of marks goes, too.
fn with_marks(host: &Host, job: Job, input: &File, marks: Option<&File>) -> bool {
    let Some(pdus) = files::opened(host, Command::Channel, Opt::Out) else {
        files::unmake(host, Command::Channel, Opt::MarksOut);
        return false;
    };
    let task = Task {
        input: input.fd,
        outlet: Outlet {
            pdus: pdus.fd,
            marks: marks.map(|file| file.fd),
        },
        channel: job.channel,
    };
    let run = passage::send_all(host, task, job.seed);
    let labels = Labels {
        from: input.label.bytes(),
        onto: pdus.label.bytes(),
        marking: label_of(marks),
    };
    labels.ends(host, run);
    finish(host, run, task, labels)
}

// The label of a file; nothing where there is none.
fn label_of(file: Option<&File>) -> &[u8] {
    match file {
        Some(file) => file.label.bytes(),
        None => b"",
    }
}

// Closes the files that are written, and says what the channel did.
fn finish(host: &Host, run: Run, task: Task, labels: Labels<'_>) -> bool {
    let closed = files::close(host, task.outlet.pdus, labels.onto);
    let kept = match task.outlet.marks {
        Some(marks) => files::close(host, marks, labels.marking),
        None => true,
    };
    report::summary(host, run);
    let rates = task.channel.rates;
    report::asked_for(host, Counted::Bursts, task.channel.bursts, run.hit);
    report::asked_for(host, Counted::Twice, rates.twice, run.road.twice);
    report::asked_for(host, Counted::Swapped, rates.swap, run.road.swapped);
    report::asked_for(host, Counted::Cut, rates.cut, run.road.cut);
    (run.ending == Some(Ending::Reading(Stop::End))) & closed & kept
}
