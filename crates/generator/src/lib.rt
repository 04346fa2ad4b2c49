// Makes a file of PDUs from a file of packets (document 01, "Writer"), on `inputs`, `broadcast` and `mode_table`.
#![tactic(auto)]

mod report;

use broadcast::{Broadcast, Probe};
use files::Exit;
use host::{Fd, Host};
use options::{Command, Opt};
use packets::Source;
use packets::window::Window;
use psd_stream::Supply;
use sending::{Course, Way, trial};
use transmission::Transmission;
use writer::Writer;

// What the command line asks for: what is sent, with at most so many bytes in each PDU of PSD that runs across them.
#[derive(Clone, Copy)]
struct Job {
    asked: Transmission,
    most: usize,
}

// What is asked for; nothing where an option is wrong, which is said.
fn asked(host: &Host) -> Option<Job> {
    let asked = transmission::asked(host, Command::Generate);
    let most = options::number(
        host,
        Command::Generate,
        Opt::PsdBytes,
        psd_stream::MOST,
        1,
        psd_stream::MOST,
    );
    Some(Job {
        asked: asked?,
        most: most? as usize,
    })
}

// The program: answers how it ends.
pub fn program(host: &Host) -> Exit {
    if options::given(host, Command::Generate, Opt::Help) {
        return files::status(host, Command::Generate, report::usage(host));
    }
    if !inputs::check(host) {
        return Exit::Wrong;
    }
    match asked(host) {
        Some(job) => files::status(host, Command::Generate, run(host, job)),
        None => Exit::Wrong,
    }
}

// Makes the PDUs. Answers whether all is done; what went wrong is said.
fn run(host: &Host, job: Job) -> bool {
    let asked = job.asked;
    let opened = writer::open(asked.mode, asked.stream, asked.register);
    if opened.refusal != 0 {
        trial::say_refused(
            host,
            Command::Generate.words(),
            opened.refusal,
            asked.request(),
        );
        return false;
    }
    let mut psd = [0u8; 256];
    let Some(supply) = inputs::supply(host, job.most, &mut psd) else {
        return false;
    };
    let plan = Plan {
        asked,
        writer: opened.writer,
        supply,
    };
    plan.tried(host, &mut psd)
}

// The packets of a file before the first is read: records, or ADTS frames.
fn window_of(host: &Host, fd: Fd) -> Window {
    let source = Source {
        fd,
        adts: options::given(host, Command::Generate, Opt::Adts),
    };
    Window::new(source, options::given(host, Command::Generate, Opt::Resync))
}

// What is sent, by which writer, with which PSD.
#[derive(Clone, Copy)]
struct Plan {
    asked: Transmission,
    writer: Writer,
    supply: Supply,
}

impl Plan {
    // Tries the settings of the options, reads their changes and tries these, and sends.
    fn tried(self, host: &Host, psd: &mut [u8]) -> bool {
        let given = self.asked.given;
        let probe = Probe {
            writer: self.writer,
            length: self.asked.length,
            supply: self.supply,
            psd,
        };
        if !probe.takes(host, Command::Generate.words(), given) {
            return false;
        }
        let mut text = io::large_buffer();
        let label = files::label(host, Command::Generate, Opt::Settings);
        let Some(length) = inputs::settings(host, &mut text, label.bytes()) else {
            return false;
        };
        let text = &text[..length];
        if !probe.takes_all(host, label.bytes(), text, given) {
            return false;
        }
        self.sent(host, psd, text, label.bytes())
    }

    // Opens the file of packets and that of PDUs, sends, and closes that of PDUs.
    fn sent(self, host: &Host, psd: &mut [u8], text: &[u8], label: &[u8]) -> bool {
        let Some(input) = files::opened(host, Command::Generate, Opt::In) else {
            return false;
        };
        let window = window_of(host, input.fd);
        let start = Broadcast::new(self.writer, window, text, self.asked.given, self.supply);
        let Some(output) = files::opened(host, Command::Generate, Opt::Out) else {
            return false;
        };
        let way = Way {
            from: input.label.bytes(),
            onto: output.label.bytes(),
            output: Some(output.fd),
        };
        let done = start.send(host, way, psd, self.asked.length);
        report::psd_ends(host, done);
        let closed = files::close(host, output.fd, way.onto);
        finish(host, done, label) & closed
    }
}

// Says what is sent. Answers whether all went well.
fn finish(host: &Host, done: Broadcast, label: &[u8]) -> bool {
    report::summary(host, done.run);
    done.run.window.say_places(host, Command::Generate);
    report::psd(host, done);
    report::changes(host, done, label);
    done.run.course != Course::Failed
}
