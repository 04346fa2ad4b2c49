// Draws a drive: from the CSV of its log to a strip of its PDUs, as an SVG picture or an HTML page; on `commission`, `printing` and `limits`.
//
// The file is read more than once. The first time counts: the picture's height stands in its first tag. The last time draws.
#![tactic(auto)]

mod report;
mod tally;

use commission::{Asked, Format};
use drawing::{Draws, Task};
use files::{Exit, File};
use gaps::Pace;
use host::{Fd, Host};
use options::{Command, Opt};
use overview::Scale;
use page::leaf::Book;
use readings::{Run, State};
use std::num::NonZeroU32;
use text::Line;

// The program: answers how it ended.
pub fn program(host: &Host) -> Exit {
    if options::given(host, Command::Coverage, Opt::Help) {
        return files::status(host, Command::Coverage, report::usage(host));
    }
    if !options::check(host, Command::Coverage) {
        return Exit::Wrong;
    }
    match commission::asked_for(host) {
        Some(asked) => files::status(host, Command::Coverage, with_options(host, asked)),
        None => Exit::Wrong,
    }
}

// Opens the CSV. Answers whether all is done; what went wrong is said.
fn with_options(host: &Host, asked: Asked) -> bool {
    if commission::is_unlisted(host) {
        report::say_unlisted(host);
        return false;
    }
    let Some(input) = files::opened(host, Command::Coverage, Opt::In) else {
        return false;
    };
    let from = input.label.bytes();
    match host.place(input.fd) {
        Some(start) => with_input(host, asked, from, input.fd, start),
        None => {
            files::say(
                host,
                from,
                b": is to be read twice, and cannot be: not a file\n",
            );
            false
        }
    }
}

// How many PDUs stand on so many rows; nothing where that is too many to count.
fn on_rows(rows: NonZeroU32, columns: u32) -> Option<NonZeroU32> {
    NonZeroU32::new((clock::times(rows.get(), columns) % 4294967296) as u32)
}

// The pages, for so many PDUs with so many packets at the most.
fn book_of(asked: Asked, pdus: u32, most: u32) -> Book {
    Book {
        columns: asked.columns,
        pdus,
        on_page: asked.rows.and_then(|rows| on_rows(rows, asked.columns)),
        most,
    }
}

// A reading that counts.
fn counting(asked: Asked, input: Fd, start: u64) -> Task {
    Task {
        input,
        start,
        format: asked.format,
        draws: Draws::Nothing,
        only: asked.page,
        first: 0,
        book: book_of(asked, 0, 0),
        clock: asked.clock,
        pace: Pace::default(),
        scale: Scale::new(asked.clock, 0, 0),
    }
}

// The first PDU of the page that is asked for.
fn first_of(asked: Asked, book: Book) -> u32 {
    match (asked.page, book.on_page) {
        (Some(page), Some(many)) => {
            (clock::times(page.get().wrapping_sub(1), many.get()) % 4294967296) as u32
        }
        _ => 0,
    }
}

// The task of drawing, after a reading that counted.
fn drawing_after(task: Task, asked: Asked, counted: Run) -> Task {
    let drive = counted.drive;
    let book = book_of(asked, drive.count, drive.totals.most);
    Task {
        first: first_of(asked, book),
        book,
        pace: counted.gaps.pace,
        scale: Scale::new(task.clock, drive.count, 0),
        ..task
    }
}

// Counts.
fn with_input(host: &Host, asked: Asked, from: &[u8], input: Fd, start: u64) -> bool {
    let mut buf = io::large_buffer();
    let mut block = Line::<1>::new();
    let task = counting(asked, input, start);
    let counted = readings::read_all(host, task, &mut buf, &mut block);
    if !report::is_read(host, counted, from, from) {
        return false;
    }
    let next = drawing_after(task, asked, counted);
    let pages = next.book.count();
    if asked.page.is_some_and(|page| pages < page.get()) {
        report::say_pages(host, pages);
        return false;
    }
    said_of_rows(host, next.book.shape(0).rows(), asked);
    with_task(host, next, from, &mut buf)
}

// Says that a page has more rows than are read on one, where no count of them is given.
fn said_of_rows(host: &Host, rows: u32, asked: Asked) {
    if asked.rows.is_none() & (60 < rows) {
        report::say_rows(host, rows);
    }
}

// Makes the picture's file.
fn with_task(host: &Host, task: Task, from: &[u8], buf: &mut [u8]) -> bool {
    match files::opened(host, Command::Coverage, Opt::Out) {
        Some(output) => with_output(host, task, from, &output, buf),
        None => false,
    }
}

fn drawn(host: &Host, task: Task, output: Fd, buf: &mut [u8]) -> Run {
    match task.format {
        Format::Html => printing::html(host, task, output, buf),
        Format::Svg => printing::svg(host, task, output, buf),
    }
}

// Draws, and closes the picture's file.
fn with_output(host: &Host, task: Task, from: &[u8], output: &File, buf: &mut [u8]) -> bool {
    let onto = output.label.bytes();
    let run = drawn(host, task, output.fd, buf);
    let done = report::is_read(host, run, from, onto);
    let closed = files::close(host, output.fd, onto);
    said(host, run, task.book.pdus, from) & done & closed
}

// Says what the picture shows. Answers whether the CSV was the same in all readings.
fn said(host: &Host, run: Run, counted: u32, from: &[u8]) -> bool {
    let drive = run.drive;
    let same = drive.count == counted;
    if run.state == State::Read {
        said_of_log(host, drive.whole, drive.is_counted(), same, from);
    }
    tally::say(host, drive, run.gaps);
    same
}

fn said_of_log(host: &Host, whole: bool, counted: bool, same: bool, from: &[u8]) {
    if !same {
        files::say(host, from, b": changed while it was read\n");
    }
    if !whole {
        files::say(host, from, b": has no last line: the log is not whole\n");
    }
    if !counted {
        files::say(
            host,
            from,
            b": has no loss column: no packets are counted\n",
        );
    }
}
