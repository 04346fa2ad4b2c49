// Joins the logs of core and enhanced (document 02, Ask 11), frame by frame: from two files of logs to the joined words, or to lines of comma-separated values;
// on `joining` and `options`.
#![tactic(auto)]

mod arguments;
mod report;

use arguments::Job;
use files::{Exit, File};
use frame_logs::Source;
use host::Host;
use joining::{Ending, Task};
use options::{Command, Opt};
use report::Labels;

// The program: answers how it ends. What went wrong is said.
pub fn program(host: &Host) -> Exit {
    if options::given(host, Command::Join, Opt::Help) {
        return files::status(host, Command::Join, report::usage(host));
    }
    if !arguments::check(host) {
        return Exit::Wrong;
    }
    match arguments::asked(host) {
        Some(job) => files::status(host, Command::Join, with_job(host, job)),
        None => Exit::Wrong,
    }
}

// Opens the core's log.
fn with_job(host: &Host, job: Job) -> bool {
    match files::opened(host, Command::Join, Opt::In) {
        Some(core) => with_core(host, job, &core),
        None => false,
    }
}

// Opens the enhanced log, where one is given.
fn with_core(host: &Host, job: Job, core: &File) -> bool {
    if !options::given(host, Command::Join, Opt::Enhanced) {
        return with_logs(host, job, core, None);
    }
    match files::opened(host, Command::Join, Opt::Enhanced) {
        Some(enhanced) => with_logs(host, job, core, Some(&enhanced)),
        None => false,
    }
}

// Opens the file of the result, joins, closes that file, and says what was joined.
fn with_logs(host: &Host, job: Job, core: &File, enhanced: Option<&File>) -> bool {
    let Some(output) = files::opened(host, Command::Join, Opt::Out) else {
        return false;
    };
    let task = Task {
        core: Source {
            fd: Some(core.fd),
            pdus: job.core,
        },
        enhanced: Source {
            fd: enhanced.map(|file| file.fd),
            pdus: job.enhanced,
        },
        output: output.fd,
        format: job.format,
    };
    let labels = Labels {
        core: core.label.bytes(),
        enhanced: label_of(enhanced),
        output: output.label.bytes(),
    };
    let run = joining::join_all(host, task);
    labels.ends(host, run);
    let closed = files::close(host, output.fd, labels.output);
    report::summary(host, run);
    (run.ending == Some(Ending::Done)) & closed
}

// The label of a file; nothing where there is none.
fn label_of(file: Option<&File>) -> &[u8] {
    match file {
        Some(file) => file.label.bytes(),
        None => b"",
    }
}
