// The files that a program's options name, and what it says of its work on standard error; they stand on `options`.
//
// A label is the words of a subcommand and the name of a file, for a line that says what is wrong.
#![tactic(auto)]

ghost use Rattle.std.specs.Prelude.{◌≡◌, length};

use host::{Fd, Host, STDERR, STDIN, STDOUT};
use options::{Command, Opt};
use text::Line;

// How a subcommand ends, as its exit status says: all is done, the work stopped early, or the usage is wrong.
#[derive(Clone, Copy, Debug, PartialEq, Eq)]
pub enum Exit {
    Done,
    Early,
    Wrong,
}

impl Exit {
    // The exit status as a number.
    pub fn code(self) -> u8 {
        match self {
            Exit::Done => 0,
            Exit::Early => 1,
            Exit::Wrong => 2,
        }
    }
}

// A label, and its room.
pub type Label = Line<4608>;

// A file that is open, and its label.
#[derive(Clone, Copy)]
pub struct File {
    pub fd: Fd,
    pub label: Label,
}

// What an option names: nothing, since it is not given; standard input or output, by a dash; nothing, by an empty value; or a file.
#[derive(Clone, Copy, Debug, PartialEq, Eq)]
pub enum Name {
    Absent,
    Dash,
    Empty,
    Path,
}

pub fn named(host: &Host, command: Command, option: Opt) -> Name {
    if !options::given(host, command, option) {
        return Name::Absent;
    }
    let mut path = io::buffer();
    let n = options::value(host, command, option, &mut path);
    if n == 0 {
        return Name::Empty;
    }
    if check::same(&path[..n], b"-") {
        return Name::Dash;
    }
    Name::Path
}

// Whether an option stands for standard input, or output: it is not given, or as a dash.
fn is_standard(host: &Host, command: Command, option: Opt) -> bool {
    matches!(named(host, command, option), Name::Absent | Name::Dash)
}

// Whether an option and another one do not both stand for standard input, or output, the first by a dash; if they do, says so in the words given.
pub fn is_apart(host: &Host, command: Command, option: Opt, other: Opt, words: &[u8]) -> bool {
    let shared = (named(host, command, option) == Name::Dash) & is_standard(host, command, other);
    if shared {
        options::complain(host, command, option, words);
    }
    !shared
}

// Whether every argument is right, as `options::check` has it, and an option is apart from another one; if not, says what is wrong.
pub fn check(host: &Host, command: Command, option: Opt, other: Opt, words: &[u8]) -> bool {
    options::check(host, command) && is_apart(host, command, option, other, words)
}

// Standard input or output, which an option stands for that names no file, and its words.
fn standard(option: Opt) -> (Fd, &'static [u8]) {
    if option.is_written() {
        return (STDOUT, b"standard output");
    }
    (STDIN, b"standard input")
}

// The words of a subcommand and the name of a file: the value of the option that names it, or what else it stands for.
pub fn label(host: &Host, command: Command, option: Opt) -> Label {
    let mut label = Label::new();
    label.put(command.words());
    label.put(b": ");
    if is_standard(host, command, option) {
        let (_, words) = standard(option);
        label.put(words);
        return label;
    }
    let mut path = io::buffer();
    let n = options::value(host, command, option, &mut path);
    label.put(&path[..n]);
    label
}

// Opens a file that is read; nothing where it cannot be opened, which is said.
fn open_named(host: &Host, path: &[u8], label: &[u8]) -> Option<Fd> {
    let fd = host.open_read(path);
    if fd.is_none() {
        host.fail(label);
    }
    fd
}

// What a name is that of: nothing that can be had, an ordinary file that may be written, or another thing.
#[derive(Clone, Copy, Debug, PartialEq, Eq)]
enum Kind {
    Nothing,
    Ordinary,
    Other,
}

// What a name is that of. A symbolic link is another thing, whatever it leads to; so is a FIFO or a device. Nothing of it changes.
fn kind_of(host: &Host, path: &[u8]) -> Kind {
    if host.is_link(path) {
        return Kind::Other;
    }
    if !host.is_there(path) {
        return Kind::Nothing;
    }
    if host.is_ordinary(path) {
        return Kind::Ordinary;
    }
    Kind::Other
}

// A name with a tilde after it, to which a file is renamed.
fn backup(name: &[u8]) -> Label {
    let mut backup = Label::new();
    backup.put(name);
    backup.put(b"~");
    backup
}

// Takes a name that no file has, by an empty file. Answers whether that went well; if not, says why.
fn take_name(host: &Host, path: &[u8], label: &[u8]) -> bool {
    match host.create(path) {
        Some(fd) => {
            host.close(fd);
            true
        }
        None => {
            host.fail(label);
            false
        }
    }
}

// Renames a file: the new name is one that no file has, so nothing is lost. Answers whether that went well; it is said, and if not, why.
fn set_aside(host: &Host, path: &[u8], label: &[u8]) -> bool {
    let name = backup(path);
    if !take_name(host, name.bytes(), backup(label).bytes()) {
        return false;
    }
    if !host.rename(path, name.bytes()) {
        host.fail(label);
        host.unlink(name.bytes());
        return false;
    }
    say_line(host, label, b": renamed to ", name.bytes());
    true
}

// Whether a name is free as far as that is asked for: with --force an ordinary file that has it is renamed. A link, a device, a FIFO and a file
// that may not be written keep theirs, which is said.
fn make_way(host: &Host, command: Command, path: &[u8], label: &[u8]) -> bool {
    if !options::given(host, command, Opt::Force) {
        return true;
    }
    match kind_of(host, path) {
        Kind::Nothing => true,
        Kind::Ordinary => set_aside(host, path, label),
        Kind::Other => {
            say(
                host,
                label,
                b": is not an ordinary file that may be written, so it is not renamed\n",
            );
            false
        }
    }
}

// Says why a file is not made: its name is taken, or what the system says.
fn say_not_made(host: &Host, path: &[u8], label: &[u8]) {
    if !host.is_taken() {
        host.fail(label);
        return;
    }
    let mut words = Label::new();
    words.put(b": File exists (--force renames it ");
    words.put(path);
    say_line(host, label, words.bytes(), b"~ first)");
}

// Makes a file that is written; nothing where it cannot be had. A name that is taken is refused, which is said, and its file stays as it is; with --force that
// file is renamed first. So no file is ever emptied or lost, whatever its names, and one that is being read is read to its end. Where standard error is closed
// none is made: it could get its number, and messages would go into it.
fn make_named(host: &Host, command: Command, path: &[u8], label: &[u8]) -> Option<Fd> {
    if host.is_mute() {
        return None;
    }
    if !make_way(host, command, path, label) {
        return None;
    }
    let fd = host.create(path);
    if fd.is_none() {
        say_not_made(host, path, label);
    }
    fd
}

// The file of an option, made where it is written, or else opened; standard output or input where it names none; nothing where it cannot be had: it is not there
// or its name is taken, which is said, or there is no standard error to say anything on.
pub fn open(host: &Host, command: Command, option: Opt, label: &[u8]) -> Option<Fd> {
    if is_standard(host, command, option) {
        let (fd, _) = standard(option);
        return Some(fd);
    }
    let mut path = io::buffer();
    let n = options::value(host, command, option, &mut path);
    if option.is_written() {
        return make_named(host, command, &path[..n], label);
    }
    open_named(host, &path[..n], label)
}

// The file of an option, as `open` has it, and its label.
pub fn opened(host: &Host, command: Command, option: Opt) -> Option<File> {
    let label = label(host, command, option);
    let fd = open(host, command, option, label.bytes())?;
    Some(File { fd, label })
}

// Removes the file that was made for an option, where it names one.
pub fn unmake(host: &Host, command: Command, option: Opt) {
    if is_standard(host, command, option) {
        return;
    }
    let mut path = io::buffer();
    let n = options::value(host, command, option, &mut path);
    host.unlink(&path[..n]);
}

// Closes a file. Answers whether that went well; if not, says why.
pub fn close(host: &Host, fd: Fd, label: &[u8]) -> bool {
    let closed = host.close(fd);
    if !closed {
        host.fail(label);
    }
    closed
}

// A line on standard error: a label and words.
pub fn say(host: &Host, label: &[u8], words: &[u8]) {
    let mut line = Line::<4800>::new();
    line.put(label);
    line.put(words);
    host.write_all(STDERR, line.bytes());
}

// A line on standard error, in three parts.
fn say_line(host: &Host, a: &[u8], b: &[u8], c: &[u8]) {
    let mut line = Line::<9216>::new();
    line.put(a);
    line.put(b);
    line.put(c);
    line.put(b"\n");
    host.write_all(STDERR, line.bytes());
}

// A line on standard error: a label, words, a number and more words.
pub fn say_number(host: &Host, label: &[u8], before: &[u8], number: u64, after: &[u8]) {
    let mut line = Line::<4800>::new();
    line.put(label);
    line.put(before);
    line.put_decimal(number);
    line.put(after);
    host.write_all(STDERR, line.bytes());
}

// What a subcommand counts while it works; nothing where its work is short.
fn counted(command: Command) -> &'static [u8] {
    match command {
        Command::Generate | Command::Channel | Command::Log => b": PDUs @\r",
        Command::Coverage => b": lines @\r",
        Command::Join => b": frames @\r",
        Command::Barzhilup | Command::Latency => b"",
    }
}

// How far the work is, where somebody looks on: a line that the next one overwrites. It is said once a second: not in the second that is given, in which it was
// last said or the work began. Answers the second that it is.
pub fn progress(host: &Host, command: Command, count: u64, shown: Option<u64>) -> Option<u64> {
    let now = host.time();
    if (now != shown) && host.is_watched() {
        options::say_numbers(host, command, counted(command), &[count]);
    }
    now
}

// How a subcommand ends whose work is all done or not; where it is not, the last line says so.
pub fn status(host: &Host, command: Command, done: bool) -> Exit {
    if done {
        return Exit::Done;
    }
    options::say(host, command, b": stopped early\n");
    Exit::Early
}

// The exit as it is; where the usage is wrong, the last line says where help is.
pub fn with_hint(host: &Host, command: Command, exit: Exit) -> Exit {
    if exit == Exit::Wrong {
        say_line(host, b"try '", command.words(), b" --help'");
    }
    exit
}

// Prints how a program is used on standard output. Answers whether all is printed; if not, says why.
pub fn print_usage(host: &Host, command: Command, usage: &[u8]) -> bool {
    let printed = host.write_all(STDOUT, usage);
    if !printed {
        let mut label = Line::<64>::new();
        label.put(command.words());
        label.put(b": standard output");
        host.fail(label.bytes());
    }
    printed
}
