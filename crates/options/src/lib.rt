// The command line of `barzhilup`, on `text`, `host` and the toolchain's `check`: its subcommands, and the options of each, `--name value` or
// `--name=value`, and flags, `--name`; `-h` is `--help`. An option may be given once.
//
// A value has at most 4,096 bytes. What is wrong is said in a line on standard error that begins with the words of the subcommand.
#![tactic(auto)]

mod command;
mod opt;

ghost use Rattle.std.specs.Prelude.{◌≡◌, ◌+◌, ◌≤◌, ◌<◌, length, IfSome};
ghost use Rattle.io.specs.Counts.{IsPrefixLen};

pub use command::Command;
use host::{FillError, Host};
pub use opt::{Opt, SETTINGS};
use text::Line;

// The first argument after the program's name and the subcommand.
const FIRST: usize = 2;

// The longest value.
const LONGEST: usize = 4096;

// What is wrong with an argument.
#[derive(Clone, Copy, Debug, PartialEq, Eq)]
enum Wrong {
    Unknown,
    GivenTwice,
    NoValueTaken,
    ValueMissing,
    ValueTooLong,
}

impl Wrong {
    fn words(self) -> &'static [u8] {
        match self {
            Wrong::Unknown => b": unknown option ",
            Wrong::GivenTwice => b": given twice",
            Wrong::NoValueTaken => b": takes no value",
            Wrong::ValueMissing => b": value missing",
            Wrong::ValueTooLong => b": value too long",
        }
    }
}

// A line on standard error: the words of a subcommand, and others.
pub fn say(host: &Host, command: Command, words: &[u8]) {
    let mut line = Line::<512>::new();
    line.put(command.words());
    line.put(words);
    host.write_all(host::STDERR, line.bytes());
}

// A line on standard error: the words of a subcommand, and a template with its numbers.
pub fn say_numbers(host: &Host, command: Command, template: &[u8], numbers: &[u64]) {
    let mut line = Line::<512>::new();
    line.put(command.words());
    line.fill(template, numbers);
    host.write_all(host::STDERR, line.bytes());
}

// A line on standard error: the words of a subcommand, others, and an argument.
pub fn say_argument(host: &Host, command: Command, words: &[u8], argument: &[u8]) {
    let mut line = Line::<4800>::new();
    line.put(command.words());
    line.put(words);
    line.put(argument);
    line.put(b"\n");
    host.write_all(host::STDERR, line.bytes());
}

// Says what is wrong with an option.
pub fn complain(host: &Host, command: Command, option: Opt, words: &[u8]) {
    complain_of(host, command, option, words, b"");
}

// Says what is wrong with the value of an option.
pub fn complain_of(host: &Host, command: Command, option: Opt, words: &[u8], value: &[u8]) {
    let mut line = Line::<4800>::new();
    line.put(command.words());
    line.put(b": --");
    line.put(option.name());
    line.put(words);
    line.put(value);
    line.put(b"\n");
    host.write_all(host::STDERR, line.bytes());
}

// Room for an option and its value in one argument.
fn argument() -> [u8; 4160]
    ensures { 4160 ≡ length result }
{
    [0; 4160]
}

// The first bytes of an argument into the buffer, all of it where it fits. Answers how many.
fn head(host: &Host, i: usize, buf: &mut [u8]) -> usize
    ensures { IsPrefixLen result buf.new }
{
    match host.arg(i, buf) {
        Ok(n) => n,
        Err(FillError::TooLong) => buf.len(),
        Err(FillError::NotPresent) => 0,
    }
}

// An argument's bytes from its two dashes to an equals sign or its end; nothing where it has no dashes.
fn name_of(arg: &[u8]) -> &[u8] {
    if arg.len() < 2 {
        return &arg[0..0];
    }
    if (arg[0] != b'-') | (arg[1] != b'-') {
        return &arg[0..0];
    }
    let end = text::find(arg, 2, arg.len(), b'=');
    &arg[2..end]
}

// The option at an argument; nothing where it is none that the subcommand knows. A name has fewer than 60 bytes.
fn option_at(host: &Host, command: Command, i: usize) -> Option<Opt> {
    let mut arg = [0u8; 64];
    let n = head(host, i, &mut arg);
    if check::same(&arg[..n], b"-h") {
        return Some(Opt::Help);
    }
    command.option(name_of(&arg[..n]))
}

// Whether an argument has an equals sign, and so its option's value.
fn has_value(host: &Host, i: usize) -> bool {
    let mut arg = [0u8; 64];
    let n = head(host, i, &mut arg);
    text::find(&arg[..n], 0, n, b'=') < n
}

// Whether the value of the option at an argument is the argument after it.
fn is_value_next(host: &Host, option: Option<Opt>, i: usize) -> bool {
    match option {
        Some(option) => option.is_valued() & !has_value(host, i),
        None => false,
    }
}

// The argument after an option, which stands at one, and its value, at most the count of all.
fn next(host: &Host, option: Option<Opt>, i: usize, count: usize) -> usize
    requires { i < count }
    ensures { (i < result) × (result ≤ count) }
{
    if !is_value_next(host, option, i) {
        return i + 1;
    }
    if count - i < 2 {
        return count;
    }
    i + 2
}

// The first argument that is an option.
fn find(host: &Host, command: Command, option: Opt) -> Option<usize>
    ensures { IfSome result (λ at. at < 18446744073709551615) }
{
    let count = host.arg_count();
    let mut i: usize = FIRST;
    while i < count {
        let own = option_at(host, command, i);
        if own == Some(option) {
            return Some(i);
        }
        i = next(host, own, i, count);
    }
    None
}

// Whether an option is given. A flag that has a value is not: that is wrong usage.
pub fn given(host: &Host, command: Command, option: Opt) -> bool {
    match find(host, command, option) {
        Some(at) => option.is_valued() | !has_value(host, at),
        None => false,
    }
}

// An argument's bytes after its first equals sign; nothing where it has none.
fn value_of(arg: &[u8]) -> &[u8] {
    let end = text::find(arg, 0, arg.len(), b'=');
    if end == arg.len() {
        return &arg[0..0];
    }
    &arg[end + 1..]
}

// The value that stands in an argument after its equals sign into the buffer. Answers its length, 0 where it does not fit.
fn put_own_value(host: &Host, i: usize, buf: &mut [u8]) -> usize
    ensures { IsPrefixLen result buf.new }
{
    let mut arg = argument();
    let n = head(host, i, &mut arg);
    let value = value_of(&arg[..n]);
    if buf.len() < value.len() {
        return 0;
    }
    text::put(buf, 0, value)
}

// The value of an option into the buffer. Answers its length, 0 where the option is not given or its value does not fit.
pub fn value(host: &Host, command: Command, option: Opt, buf: &mut [u8]) -> usize
    ensures { IsPrefixLen result buf.new }
{
    let Some(at) = find(host, command, option) else {
        return 0;
    };
    if has_value(host, at) {
        return put_own_value(host, at, buf);
    }
    host.arg(at + 1, buf).unwrap_or(0)
}

// Whether a value may have so many bytes.
fn check_length(option: Opt, length: usize) -> Result<(), Wrong> {
    if LONGEST < length {
        return Err(Wrong::ValueTooLong);
    }
    if (length == 0) & option.is_name_needed() {
        return Err(Wrong::ValueMissing);
    }
    Ok(())
}

// Whether the value that stands in an argument is right.
fn check_own_value(host: &Host, option: Opt, i: usize) -> Result<(), Wrong> {
    let mut arg = argument();
    let n = head(host, i, &mut arg);
    check_length(option, value_of(&arg[..n]).len())
}

// Whether the value that is the argument after an option is right.
fn check_value(host: &Host, option: Opt, i: usize) -> Result<(), Wrong>
    requires { i < 18446744073709551615 }
{
    let mut value = io::buffer();
    match host.arg(i + 1, &mut value) {
        Ok(n) => check_length(option, n),
        Err(FillError::NotPresent) => Err(Wrong::ValueMissing),
        Err(FillError::TooLong) => Err(Wrong::ValueTooLong),
    }
}

// Whether an option was given before the argument at which it stands.
fn is_second(host: &Host, command: Command, option: Opt, i: usize) -> bool {
    match find(host, command, option) {
        Some(first) => first < i,
        None => false,
    }
}

// Whether the option at an argument is right.
fn check_at(host: &Host, command: Command, option: Option<Opt>, i: usize) -> Result<(), Wrong>
    requires { i < 18446744073709551615 }
{
    let option = option.ok_or(Wrong::Unknown)?;
    if is_second(host, command, option, i) {
        return Err(Wrong::GivenTwice);
    }
    match (option.is_valued(), has_value(host, i)) {
        (true, true) => check_own_value(host, option, i),
        (true, false) => check_value(host, option, i),
        (false, true) => Err(Wrong::NoValueTaken),
        (false, false) => Ok(()),
    }
}

// Says what is wrong with the option at an argument.
fn say_wrong(host: &Host, command: Command, option: Option<Opt>, i: usize, wrong: Wrong) {
    match option {
        Some(option) => complain(host, command, option, wrong.words()),
        None => {
            let mut arg = io::buffer();
            let n = head(host, i, &mut arg);
            say_argument(host, command, wrong.words(), &arg[..n]);
        }
    }
}

// Whether the option at an argument is right; if not, says what is wrong.
fn is_right(host: &Host, command: Command, option: Option<Opt>, i: usize) -> bool
    requires { i < 18446744073709551615 }
{
    match check_at(host, command, option, i) {
        Ok(()) => true,
        Err(wrong) => {
            say_wrong(host, command, option, i, wrong);
            false
        }
    }
}

// Whether every argument is an option that the subcommand knows, given once, with a value of at most 4,096 bytes where it takes one, or such a value; one that
// names a file, `in`, `out`, `second`, `psd`, `marks`, `svg` or `enhanced`, is not empty. Says what is wrong with each that is not.
pub fn check(host: &Host, command: Command) -> bool {
    let count = host.arg_count();
    let mut right = true;
    let mut i: usize = FIRST;
    while i < count {
        let option = option_at(host, command, i);
        right = is_right(host, command, option, i) & right;
        i = next(host, option, i, count);
    }
    right
}

// The number that a value is; where it is none, or not in its range, says so.
fn in_range(
    host: &Host,
    command: Command,
    option: Opt,
    value: &[u8],
    low: u32,
    high: u32,
) -> Option<u32>
    ensures { IfSome result (λ number. number ≤ high) }
{
    if let Some(number) = text::parse(value) {
        if (low <= number) & (number <= high) {
            return Some(number);
        }
    }
    let mut words = Line::<64>::new();
    words.fill(b": not a number from @ to @: ", &[low as u64, high as u64]);
    complain_of(host, command, option, words.bytes(), value);
    None
}

// The value of an option as a number from `low` to `high`; the default, or `high` if that is less, where the option is not given. Where it is
// no such number, says so and answers nothing.
pub fn number(
    host: &Host,
    command: Command,
    option: Opt,
    default: u32,
    low: u32,
    high: u32,
) -> Option<u32>
    ensures { IfSome result (λ number. number ≤ high) }
{
    if !given(host, command, option) {
        return Some(default.min(high));
    }
    let mut text = io::buffer();
    let n = value(host, command, option, &mut text);
    in_range(host, command, option, &text[..n], low, high)
}
