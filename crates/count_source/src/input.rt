// Where the counts come from: a text, or packets that are packed as `generate` packs them.
use count_list::Wrong;
use host::{Fd, Host};
use options::{Command, Opt};
use packets::Source;
use packets::window::Window;
use sending::{Buffers, Course, Extra, Run, Way, trial};
use transmission::Transmission;

// The label of what is said of settings.
const LABEL: &[u8] = b"barzhilup latency";

// The counts of a text; says why they cannot be read.
fn from_text(host: &Host, label: &[u8], input: Fd, counts: &mut [u32]) -> Option<usize> {
    match count_list::read(host, input, counts) {
        Ok(count) => Some(count),
        Err(Wrong::Strange(line)) => {
            files::say_number(
                host,
                label,
                b": line ",
                line,
                b": not counts with blanks between them\n",
            );
            None
        }
        Err(Wrong::Failed) => {
            host.fail(label);
            None
        }
    }
}

// Packs packets, and stores how many end in each PDU, until there are no more or no room is left. Answers the run then, and how many counts are stored.
fn packed(
    host: &Host,
    way: Way,
    extra: Extra,
    length: usize,
    start: Run,
    counts: &mut [u32],
) -> (Run, usize) {
    let mut buffers = Buffers::new(length);
    let mut run = start;
    for k in 0..counts.len() {
        run = run.turn(host, way, extra, &mut buffers);
        if run.course != Course::Going {
            return (run, k);
        }
        counts[k] = run.ended;
    }
    (run, counts.len())
}

// The packets of a file before the first is read: records, or ADTS frames.
fn window_of(host: &Host, input: Fd) -> Window {
    let source = Source {
        fd: input,
        adts: options::given(host, Command::Latency, Opt::Adts),
    };
    Window::new(source, options::given(host, Command::Latency, Opt::Resync))
}

// Reads the PSD, tries the settings, opens the file of packets, and packs them.
fn from_packets(
    host: &Host,
    label: &[u8],
    asked: Transmission,
    counts: &mut [u32],
) -> Option<usize> {
    let writer = writer::open(asked.mode, asked.stream, asked.register).writer;
    let mut psd = [0u8; 256];
    let n = transmission::psd::read(host, Command::Latency, &mut psd)?;
    let extra = Extra {
        settings: asked.settings(),
        psd: &psd[..n],
    };
    if !trial::is_taken(host, LABEL, extra, asked.length, writer) {
        return None;
    }
    let input = files::open(host, Command::Latency, Opt::In, label)?;
    let way = Way {
        from: label,
        onto: LABEL,
        output: None,
    };
    let start = Run::new(writer, window_of(host, input));
    let (run, count) = packed(host, way, extra, asked.length, start, counts);
    run.window.say_places(host, Command::Latency);
    (run.course != Course::Failed).then_some(count)
}

// The counts that are asked for, where no option has them: into a row, as many as there is room for. Answers how many; where something went wrong, which is
// said, nothing.
pub fn read(host: &Host, label: &[u8], asked: Transmission, counts: &mut [u32]) -> Option<usize> {
    if options::given(host, Command::Latency, Opt::Packets) {
        return from_packets(host, label, asked, counts);
    }
    let input = files::open(host, Command::Latency, Opt::In, label)?;
    from_text(host, label, input, counts)
}
