// Tries latencies before going on air (document 02, Ask 7): from the counts of packets that end in each PDU, or from packets, to a table of the latencies and a
// picture of one; on `count_source`, `latency_table`, `backlog` and `mode_table`.
#![tactic(auto)]

mod report;

use backlog::columns::{self, Bench};
use backlog::drawing;
use count_source::{arguments, input};
use files::{Exit, File};
use host::Host;
use latency::{Answer, Spacing};
use limits::Request;
use options::{Command, Opt};
use sending::trial;
use text::Line;
use transmission::Transmission;

// One more than the counts that may be: so too many are seen, and refused.
const ROOM: usize = 4097;

// What is tried: counts, with their mode and stream; what was found; and the latency that is drawn.
#[derive(Clone, Copy)]
struct Trials<'a> {
    mode: u8,
    stream: u8,
    counts: &'a [u32],
    answer: Answer,
    drawn: u8,
}

// The program: answers how it ends.
pub fn program(host: &Host) -> Exit {
    if options::given(host, Command::Latency, Opt::Help) {
        return files::status(host, Command::Latency, report::usage(host));
    }
    if !arguments::check(host) {
        return Exit::Wrong;
    }
    let asked = transmission::asked(host, Command::Latency);
    let draw = arguments::draw(host);
    let mut counts = [0u32; ROOM];
    let listed = arguments::from_option(host, &mut counts);
    match (asked, draw, listed) {
        (Some(asked), Some(draw), Some(listed)) => {
            let done = run(host, asked, draw, listed, &mut counts);
            files::status(host, Command::Latency, done)
        }
        _ => Exit::Wrong,
    }
}

// Whether the table has a mode and stream; if not, says so.
fn is_listed(host: &Host, asked: Transmission) -> bool {
    match latency::spacing_for(asked.mode, asked.stream, &[0u32]) {
        Spacing::Every(_) => true,
        Spacing::Refused(n) => {
            let request = Request {
                mode: asked.mode,
                stream: asked.stream,
                length: asked.length,
                settings: asked.settings(),
            };
            trial::say_refused(host, b"barzhilup latency", n, request);
            false
        }
    }
}

// Reads the counts, unless an option has them, which are so many. Answers whether all is done; what went wrong is said.
fn run(host: &Host, asked: Transmission, draw: u8, listed: usize, counts: &mut [u32]) -> bool {
    if !is_listed(host, asked) {
        return false;
    }
    let label = arguments::label(host);
    let count = if options::given(host, Command::Latency, Opt::Counts) {
        Some(listed)
    } else {
        input::read(host, label.bytes(), asked, &mut *counts)
    };
    match count {
        Some(n) => tried(host, asked, draw, label.bytes(), columns::part(counts, n)),
        None => false,
    }
}

// Tries the latencies. Drawn is the one that is asked for, or that of the answer.
fn tried(host: &Host, asked: Transmission, draw: u8, label: &[u8], counts: &[u32]) -> bool {
    let answer = latency::smallest(asked.mode, asked.stream, counts);
    let found = match answer {
        Answer::Refused(_) => {
            report::refused(host, label, counts);
            return false;
        }
        Answer::Smallest(v) => v,
        Answer::AllDry => 7,
    };
    let drawn = if options::given(host, Command::Latency, Opt::Draw) {
        draw
    } else {
        found
    };
    let trials = Trials {
        mode: asked.mode,
        stream: asked.stream,
        counts,
        answer,
        drawn,
    };
    trials.shown(host)
}

impl Trials<'_> {
    // Makes the picture's file, where one is asked for.
    fn shown(self, host: &Host) -> bool {
        if !options::given(host, Command::Latency, Opt::Svg) {
            return self.with_picture(host, None);
        }
        match files::opened(host, Command::Latency, Opt::Svg) {
            Some(picture) => self.with_picture(host, Some(&picture)),
            None => false,
        }
    }

    // Makes the table's file, and writes both. Where that file is not made, the picture's goes, too.
    fn with_picture(self, host: &Host, picture: Option<&File>) -> bool {
        let Some(output) = files::opened(host, Command::Latency, Opt::Out) else {
            files::unmake(host, Command::Latency, Opt::Svg);
            return false;
        };
        let done = self.write_table(host, &output);
        let drawn = match picture {
            Some(file) => self.draw(host, file),
            None => true,
        };
        report::summary(host, self.counts, self.answer);
        done & drawn
    }

    fn write_table(self, host: &Host, file: &File) -> bool {
        let mut block = Line::<4096>::new();
        latency_table::put(&mut block, self.mode, self.stream, self.counts, self.answer);
        write(host, file, block.bytes())
    }

    // Draws the picture.
    fn draw(self, host: &Host, file: &File) -> bool {
        let mut block = Line::<65536>::new();
        let trial = latency::try_latency(self.mode, self.stream, self.counts, self.drawn);
        let bench = Bench::new(self.mode, self.stream, self.drawn, trial.ticks as usize);
        drawing::put(&mut block, bench, self.counts, trial);
        write(host, file, block.bytes())
    }
}

// Writes a file and closes it. Answers whether all is there; if not, says why.
fn write(host: &Host, file: &File, block: &[u8]) -> bool {
    if !host.write_all(file.fd, block) {
        host.fail(file.label.bytes());
        host.close(file.fd);
        return false;
    }
    files::close(host, file.fd, file.label.bytes())
}
