// What the command line of `barzhilup coverage` asks for: the kind of picture, its measures, its texts, and how long a PDU is; on `page`, `clock` and
// `options`.
#![tactic(auto)]

use clock::Clock;
use host::Host;
use options::{Command, Opt};
use page::title;
use std::num::NonZeroU32;

// What is drawn: a picture by itself, or a page with one.
#[derive(Clone, Copy, Debug, PartialEq, Eq)]
pub enum Format {
    Svg,
    Html,
}

// What is asked for: the format; how many PDUs stand in a row; how many rows on a page, nothing for all; the page, nothing for all; and how long a PDU is, where
// that is known.
#[derive(Clone, Copy, Debug)]
pub struct Asked {
    pub format: Format,
    pub columns: u32,
    pub rows: Option<NonZeroU32>,
    pub page: Option<NonZeroU32>,
    pub clock: Option<Clock>,
}

// Whether the value of an option, if it is given, is UTF-8 of at most so many bytes; says so where it is not.
fn is_text(host: &Host, option: Opt, most: usize, words: &[u8]) -> bool {
    let mut value = io::buffer();
    let n = options::value(host, Command::Coverage, option, &mut value);
    let fit = title::is_fit(&value[..n], most);
    if !fit {
        options::complain(host, Command::Coverage, option, words);
    }
    fit
}

// The same for a line.
fn is_line(host: &Host, option: Opt) -> bool {
    is_text(host, option, title::MOST, b": over 200 bytes, or not UTF-8")
}

// The same for the note, which may be longer.
fn is_note(host: &Host) -> bool {
    is_text(
        host,
        Opt::Note,
        title::MOST_OF_NOTE,
        b": over 4000 bytes, or not UTF-8",
    )
}

// Whether an option that only an HTML page shows is given with one, or not at all; says so where it is not.
fn is_shown(host: &Host, html: bool, option: Opt) -> bool {
    let shown = html | !options::given(host, Command::Coverage, option);
    if !shown {
        options::complain(
            host,
            Command::Coverage,
            option,
            b": goes with --format html",
        );
    }
    shown
}

// Whether the texts are right.
fn are_texts(host: &Host, html: bool) -> bool {
    let lines = is_line(host, Opt::Title)
        & is_line(host, Opt::Station)
        & is_line(host, Opt::Date)
        & is_line(host, Opt::Source);
    let shown = is_shown(host, html, Opt::Station)
        & is_shown(host, html, Opt::Date)
        & is_shown(host, html, Opt::Source);
    lines & shown & is_note(host) & is_shown(host, html, Opt::Note)
}

// The format that is asked for; nothing where it is none, which is said.
fn format_asked(host: &Host) -> Option<Format> {
    if !options::given(host, Command::Coverage, Opt::Format) {
        return Some(Format::Svg);
    }
    let mut value = io::buffer();
    let n = options::value(host, Command::Coverage, Opt::Format, &mut value);
    match &value[..n] {
        b"svg" => Some(Format::Svg),
        b"html" => Some(Format::Html),
        other => {
            options::complain_of(
                host,
                Command::Coverage,
                Opt::Format,
                b": not svg or html: ",
                other,
            );
            None
        }
    }
}

// Whether a mode or a stream is given.
fn has_mode(host: &Host) -> bool {
    options::given(host, Command::Coverage, Opt::Mode)
        | options::given(host, Command::Coverage, Opt::Stream)
}

// The mode, and the stream: 0 where only the other is given.
fn mode_asked(host: &Host) -> Option<u32> {
    options::number(host, Command::Coverage, Opt::Mode, 0, 0, 255)
}

fn stream_asked(host: &Host) -> Option<u32> {
    options::number(host, Command::Coverage, Opt::Stream, 0, 0, 255)
}

// How long a PDU of a mode and stream is; nothing where they are not in the table of modes.
fn clock_of(mode: u32, stream: u32) -> Option<Clock> {
    Clock::of_mode((mode % 256) as u8, (stream % 256) as u8)
}

// Whether mode and stream are given and are not in the table of modes.
pub fn is_unlisted(host: &Host) -> bool {
    if !has_mode(host) {
        return false;
    }
    let mode = mode_asked(host).unwrap_or(0);
    let stream = stream_asked(host).unwrap_or(0);
    clock_of(mode, stream).is_none()
}

// How long a PDU is: as it is given, or that of the mode and stream.
fn clock_asked(host: &Host, ms: u32, mode: u32, stream: u32) -> Option<Clock> {
    if options::given(host, Command::Coverage, Opt::PduMs) {
        return Some(Clock::of_ms(ms));
    }
    if has_mode(host) {
        return clock_of(mode, stream);
    }
    None
}

// What is asked for; nothing where something is wrong, which is said. Where it is not given, an HTML page has as many rows as fit a sheet of paper across, and all
// pages; a picture by itself has all rows, and the first page.
pub fn asked_for(host: &Host) -> Option<Asked> {
    let format = format_asked(host);
    let (rows, page) = if format == Some(Format::Html) {
        (12, 0)
    } else {
        (0, 1)
    };
    let columns = options::number(host, Command::Coverage, Opt::Columns, 100, 20, 200);
    let rows = options::number(host, Command::Coverage, Opt::Rows, rows, 1, 1000);
    let page = options::number(host, Command::Coverage, Opt::Page, page, 1, 1000000);
    let mode = mode_asked(host);
    let stream = stream_asked(host);
    let ms = options::number(host, Command::Coverage, Opt::PduMs, 0, 1, 60000);
    if !are_texts(host, format != Some(Format::Svg)) {
        return None;
    }
    Some(Asked {
        format: format?,
        columns: columns?,
        rows: NonZeroU32::new(rows?),
        page: NonZeroU32::new(page?),
        clock: clock_asked(host, ms?, mode?, stream?),
    })
}
