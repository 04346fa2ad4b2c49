// What the command line asks for.
ghost use Rattle.std.specs.Prelude.{◌≤◌, IfSome};

use files::Label;
use host::Host;
use options::{Command, Opt};

// Whether counts are given twice; says so.
fn is_twofold(host: &Host) -> bool {
    let twofold = options::given(host, Command::Latency, Opt::Counts)
        & (options::given(host, Command::Latency, Opt::In)
            | options::given(host, Command::Latency, Opt::Packets));
    if twofold {
        options::complain(
            host,
            Command::Latency,
            Opt::Counts,
            b": takes the place of --in and --packets",
        );
    }
    twofold
}

// Whether every option is one that is known, with its value, and they go together; if not, says what is wrong.
pub fn check(host: &Host) -> bool {
    transmission::check(host, Command::Latency)
        && files::is_apart(
            host,
            Command::Latency,
            Opt::Svg,
            Opt::Out,
            b": standard output has the table",
        )
        && !is_twofold(host)
}

// The latency that is to be drawn, 0 where none is given. Where it is none, says so and answers nothing.
pub fn draw(host: &Host) -> Option<u8>
    ensures { IfSome result (λ latency. latency ≤ 7) }
{
    let latency = options::number(host, Command::Latency, Opt::Draw, 0, 0, 7)?;
    Some(latency as u8)
}

// The label of what is read: the file, standard input or the option with the counts.
pub fn label(host: &Host) -> Label {
    if !options::given(host, Command::Latency, Opt::Counts) {
        return files::label(host, Command::Latency, Opt::In);
    }
    let mut label = Label::new();
    label.put(Command::Latency.words());
    label.put(b": --counts");
    label
}

// The counts of the option that has them into a row. Answers how many; 0 where it is not given. Where it has other things, says so and answers nothing.
pub fn from_option(host: &Host, counts: &mut [u32]) -> Option<usize> {
    if !options::given(host, Command::Latency, Opt::Counts) {
        return Some(0);
    }
    let mut value = io::buffer();
    let n = options::value(host, Command::Latency, Opt::Counts, &mut value);
    let listed = count_list::from_text(&value[..n], counts);
    if listed.is_none() {
        options::complain_of(
            host,
            Command::Latency,
            Opt::Counts,
            b": not numbers with commas between them: ",
            &value[..n],
        );
    }
    listed
}
