// The log of a file of PDUs, with its marks: it is read ahead, where it may have bytes at which no record begins, or its mode and stream are taken from its PDUs.
ghost use Rattle.std.specs.Prelude.{◌≡◌, length};

use crate::{Logged, Outputs};
use ahead::Ahead;
use ahead_logging::{Live, Way};
use files::File;
use host::{Fd, Host};
use job::Job;
use logging::{Ending, Run, Task};
use options::{Command, Opt};
use records::Stop;
use resync::{First, Pdu, Wanted};
use saved_state::State;
use text::Line;

// What a run reads: the label of the file of PDUs, and the file of marks, if there is one, with its label.
#[derive(Clone, Copy, Debug)]
struct Input<'a> {
    from: &'a [u8],
    marks: Option<Fd>,
    marking: &'a [u8],
}

// A buffer to read ahead in.
fn buffer() -> [u8; 196605]
    ensures { 196605 ≡ length result }
{
    [0; 196605]
}

// Nothing is read ahead of an open file.
fn begin(host: &Host, fd: Fd) -> Ahead {
    Ahead::new(fd, logging::offset(host, fd))
}

// Opens the file of PDUs, whose mode and stream are not known.
pub fn with_job(host: &Host, job: Job) -> Option<Logged> {
    let pdus = files::opened(host, Command::Log, Opt::In)?;
    let mut buf = buffer();
    let f = resync::first_readable(
        host,
        begin(host, pdus.fd),
        &mut buf,
        job.resync,
        wanted(host, job.stream),
    );
    let pdu = found(host, pdus.label.bytes(), f)?;
    with_pdu(host, job, pdu, pdus.label.bytes(), f.ahead, &mut buf)
}

// The PDUs that the mode is taken from: of the stream that is asked for, or any.
fn wanted(host: &Host, stream: u8) -> Wanted {
    let given = options::given(host, Command::Log, Opt::Stream);
    Wanted {
        mode: None,
        stream: given.then_some(stream),
    }
}

// The PDU whose mode and stream were found in the file of a label, which is said; or none, and which record stands in the way.
fn found(host: &Host, from: &[u8], f: First) -> Option<Pdu> {
    if f.ahead.stop == Some(Stop::Failed) {
        host.fail(from);
        return None;
    }
    match f.pdu {
        Some(pdu) => say_found(
            host,
            from,
            b": mode @, stream @, by the first PDU that can be read\n",
            &[u64::from(pdu.mode), u64::from(pdu.stream)],
        ),
        None => say_none(host, from, f),
    }
    f.pdu
}

// Says that none was found, and which record stands in the way: one that is longer than any PDU, or that the file ends inside of.
fn say_none(host: &Host, from: &[u8], f: First) {
    let bytes = f.bytes as u64;
    match f.stop {
        None | Some(Stop::End | Stop::Failed) => say_found(
            host,
            from,
            b": no PDU can be read in @ bytes: mode and stream are not known\n",
            &[bytes],
        ),
        Some(stop) => {
            let place = f.ahead.offset.wrapping_add(bytes);
            remarks::record_ends(host, stop, from, f.records, place);
            say_found(
                host,
                from,
                b": no PDU can be read in the @ bytes before it (--resync looks behind it): mode and stream are not known\n",
                &[bytes],
            );
        }
    }
}

// A line on standard error with a label and numbers.
fn say_found(host: &Host, from: &[u8], words: &[u8], numbers: &[u64]) {
    let mut line = Line::<4800>::new();
    line.put(from);
    line.fill(words, numbers);
    host.write_all(host::STDERR, line.bytes());
}

// Opens the receiver for the mode and the stream of a PDU that was found.
fn with_pdu(
    host: &Host,
    job: Job,
    pdu: Pdu,
    from: &[u8],
    ahead: Ahead,
    buf: &mut [u8],
) -> Option<Logged> {
    let mut carry = io::buffer();
    let state = interruption::begin(host, pdu.mode, pdu.stream, job.register, &mut carry)?;
    with_ahead(host, job, state, &mut carry, from, ahead, buf)
}

// Reads a file ahead with a receiver that is opened, and passes over what is logged already, where that is asked for.
pub fn with_state(
    host: &Host,
    job: Job,
    state: State,
    carry: &mut [u8],
    pdus: &File,
) -> Option<Logged> {
    let from = pdus.label.bytes();
    let mut buf = buffer();
    let mut ahead = begin(host, pdus.fd);
    if options::given(host, Command::Log, Opt::Skip) {
        ahead = passed_over(host, job, state, from, ahead, &mut buf)?;
    }
    with_ahead(host, job, state, carry, from, ahead, &mut buf)
}

// What is read ahead after all PDUs that are logged; if these are not there, says so.
fn passed_over(
    host: &Host,
    job: Job,
    state: State,
    from: &[u8],
    start: Ahead,
    buf: &mut [u8],
) -> Option<Ahead> {
    match ahead_logging::pass_over(host, job.resync, state.receiver, state.pdus, start, buf) {
        Ok(ahead) => Some(ahead),
        Err(Stop::Failed) => {
            host.fail(from);
            None
        }
        Err(Stop::End | Stop::Cut | Stop::Long) => {
            files::say_number(
                host,
                from,
                b": has fewer than the ",
                state.pdus,
                b" PDUs that are logged\n",
            );
            None
        }
    }
}

// Opens the file of marks, where one is given.
fn with_ahead(
    host: &Host,
    job: Job,
    state: State,
    carry: &mut [u8],
    from: &[u8],
    ahead: Ahead,
    buf: &mut [u8],
) -> Option<Logged> {
    if !options::given(host, Command::Log, Opt::Marks) {
        let input = Input {
            from,
            marks: None,
            marking: b"",
        };
        return with_input(host, job, input, state, carry, ahead, buf);
    }
    let places = files::opened(host, Command::Log, Opt::Marks)?;
    let input = Input {
        from,
        marks: Some(places.fd),
        marking: places.label.bytes(),
    };
    with_input(host, job, input, state, carry, ahead, buf)
}

// Passes over the marks of what is logged already, where that is asked for; makes the file of the log and those beside it, and that in which the state is saved,
// where it is given; and logs.
fn with_input(
    host: &Host,
    job: Job,
    input: Input,
    state: State,
    carry: &mut [u8],
    ahead: Ahead,
    buf: &mut [u8],
) -> Option<Logged> {
    if !interruption::pass_over(host, input.marks, input.marking, state.pdus) {
        return None;
    }
    let outputs = Outputs::make(host, job.format)?;
    if !interruption::make(host, state, carry) {
        files::unmake(host, Command::Log, Opt::Out);
        return None;
    }
    logged(host, job, input, state, &outputs, carry, ahead, buf)
}

// Logs, and says why it ended and what was received.
fn logged(
    host: &Host,
    job: Job,
    input: Input,
    state: State,
    outputs: &Outputs,
    carry: &mut [u8],
    ahead: Ahead,
    buf: &mut [u8],
) -> Option<Logged> {
    let mut counts = crate::no_counts();
    counts::begin(&mut counts, state.receiver);
    outputs.begin(&mut counts);
    let task = Task {
        marks: input.marks,
        onto: outputs.onto,
        bytes: state.bytes,
    };
    let start = Live::new(Run::new(state.receiver, state.pdus), ahead);
    let last = with_path(host, job, task, input.from, carry, buf, &mut counts, start);
    ends(host, last, input, outputs);
    let logged = crate::finish(host, last.run, state.pdus, outputs, &counts);
    remarks::passed(host, last.places, last.passed);
    logged
}

// Logs, with the path of the file in which the state is saved, where it is given.
fn with_path(
    host: &Host,
    job: Job,
    task: Task,
    from: &[u8],
    carry: &mut [u8],
    buf: &mut [u8],
    counts: &mut [u64],
    start: Live,
) -> Live {
    let path = interruption::path(host);
    let way = Way {
        resync: job.resync,
        from,
        path: path.bytes(),
    };
    crate::batches::log_all(host, task, way, job.batch, carry, buf, counts, start)
}

// Why no more PDUs are logged.
fn ends(host: &Host, last: Live, input: Input, outputs: &Outputs) {
    match last.run.ending {
        None => {}
        Some(Ending::Beside(fault)) => beside_files::ends(host, fault, &outputs.labels),
        Some(ending) => remarks::ends(
            host,
            ending,
            input.from,
            input.marking,
            outputs.label.bytes(),
            last.run.pdus,
            last.ahead.offset,
        ),
    }
}
