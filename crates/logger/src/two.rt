// The log of a drive that two receivers recorded (document 02, Ask 5).
use crate::{Logged, Outputs};
use files::File;
use host::Host;
use job::Job;
use logging::Ending;
use options::{Command, Opt};
use receiver::Receiver;
use recordings::{Run, Side, Task};
use records::Stop;

// Opens the second file, after the first, and makes the file of the log and those beside it.
pub fn with_first(host: &Host, job: Job, receiver: Receiver, first: &File) -> Option<Logged> {
    let second = files::opened(host, Command::Log, Opt::Second)?;
    let outputs = Outputs::make(host, job.format)?;
    with_both(host, receiver, first, &second, &outputs)
}

// Logs, and says why it ended and what was received.
fn with_both(
    host: &Host,
    receiver: Receiver,
    first: &File,
    second: &File,
    outputs: &Outputs,
) -> Option<Logged> {
    let mut rows = recordings::no_counts();
    outputs.begin(&mut rows);
    let task = Task {
        first: first.fd,
        second: second.fd,
        onto: outputs.onto,
    };
    let run = recordings::log_all(host, task, receiver, &mut rows);
    ends(host, run, first, second, outputs, &rows);
    finish(host, run, receiver, outputs, &rows)
}

// Closes the files, and says what was received.
fn finish(
    host: &Host,
    run: Run,
    receiver: Receiver,
    outputs: &Outputs,
    rows: &[u64],
) -> Option<Logged> {
    let closed = outputs.close(host);
    remarks::summary(host, run.pdus, rows);
    remarks::copies(host, rows);
    let whole = run.ending == Some(Ending::Records(Stop::End));
    let written = outputs.finish(host, whole, rows);
    ask(host, receiver, rows);
    crate::how_logged(host, whole & closed & written, rows)
}

// Why no more PDUs are logged, and what is wrong with either file.
fn ends(host: &Host, run: Run, first: &File, second: &File, outputs: &Outputs, rows: &[u64]) {
    match run.ending {
        Some(Ending::Beside(fault)) => beside_files::ends(host, fault, &outputs.labels),
        Some(Ending::Unwritten) => host.fail(outputs.label.bytes()),
        _ => {}
    }
    side_ends(
        host,
        run,
        run.first,
        first,
        counts::at(rows, apart::FIRST_RECORDS),
    );
    side_ends(
        host,
        run,
        run.second,
        second,
        counts::at(rows, apart::SECOND_RECORDS),
    );
}

// What is wrong with one of the files, of which so many records were read.
fn side_ends(host: &Host, run: Run, side: Side, file: &File, records: u64) {
    remarks::side_ends(
        host,
        side.stop,
        file.label.bytes(),
        records,
        run.pdus,
        side.at,
    );
}

// What is asked of one file, and whether both have a record for each PDU, where the pairs speak against it.
fn ask(host: &Host, receiver: Receiver, counts: &[u64]) {
    crate::ask(host, receiver, counts);
    if counts::is_out_of_step(counts) {
        remarks::out_of_step(host);
    }
}
