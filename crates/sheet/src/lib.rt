// The HTML page of a drive: its style, and the head that tells what the drive is, in the words of the options; on `picture` and `options`.
#![tactic(auto)]

use clock::Clock;
use host::Host;
use options::{Command, Opt};
use page::title;
use text::Line;

// A title, and its room.
pub type Title = Line<4096>;

// The lines of the head: the option of each, and what stands before its value.
const LINES: [(Opt, &[u8]); 5] = [
    (Opt::Station, b"<p><b>Station</b>"),
    (Opt::Date, b"<p><b>Date</b>"),
    (Opt::Source, b"<p><b>Source</b>"),
    (Opt::Mode, b"<p><b>Mode</b>"),
    (Opt::Stream, b"<p><b>Stream</b>"),
];

// The value of an option as text of the page; nothing where it is not given.
fn put_value<const N: usize>(host: &Host, line: &mut Line<N>, option: Opt) {
    let mut value = io::buffer();
    let n = options::value(host, Command::Coverage, option, &mut value);
    title::put(line, &value[..n]);
}

// The title.
pub fn title_of(host: &Host) -> Title {
    let mut title = Title::new();
    if options::given(host, Command::Coverage, Opt::Title) {
        let mut value = io::buffer();
        let n = options::value(host, Command::Coverage, Opt::Title, &mut value);
        title.put(&value[..n]);
    } else {
        title.put(b"Coverage");
    }
    title
}

// The title as text of the page.
fn put_title<const N: usize>(host: &Host, line: &mut Line<N>) {
    title::put(line, title_of(host).bytes());
}

// An option that is given, between two texts; nothing where it is not given.
fn put_given<const N: usize>(
    host: &Host,
    line: &mut Line<N>,
    option: Opt,
    before: &[u8],
    after: &[u8],
) {
    if options::given(host, Command::Coverage, option) {
        line.put(before);
        put_value(host, line, option);
        line.put(after);
    }
}

// From the page's start to its title.
fn put_start<const N: usize>(line: &mut Line<N>) {
    line.put(
        b"<!DOCTYPE html>
<html lang=\"en\">
<head>
<meta charset=\"utf-8\">
<title>",
    );
}

// How the page looks, on paper and on a screen.
fn put_style<const N: usize>(line: &mut Line<N>) {
    line.put(
        b"</title>
<style>
@page{size:landscape;margin:10mm}
*{print-color-adjust:exact;-webkit-print-color-adjust:exact}
body{font:10pt sans-serif;color:#222;max-width:277mm;margin:0 auto}
h1{font-size:18pt;margin:0 0 3mm}h2{font-size:11pt;margin:3mm 0 1mm;break-after:avoid}
p{margin:0 0 1mm}p b{display:inline-block;width:26mm}.note{white-space:pre-wrap;margin:2mm 0}
.psd{columns:3 80mm;break-inside:avoid}.psd h2{column-span:all}tr{break-inside:avoid}
td{font-size:8.5pt;padding:0 3mm .5mm 0;vertical-align:top;white-space:nowrap}
td:last-child{white-space:normal;overflow-wrap:anywhere}
svg{display:block;width:100%}.legend{max-width:215mm}.rows{max-height:172mm}
section{break-before:page;break-inside:avoid}
",
    );
    picture::put_colours(line);
}

// How many bytes the PDUs have, from the least to the greatest.
fn put_lengths<const N: usize>(line: &mut Line<N>, shortest: u32, longest: u32) {
    line.fill(b"<p><b>PDU length</b>@", &[u64::from(shortest)]);
    if shortest != longest {
        line.fill(b" to @", &[u64::from(longest)]);
    }
    line.put(b" bytes</p>\n");
}

// How long a PDU and the drive are.
fn put_times<const N: usize>(line: &mut Line<N>, clock: Clock, pdus: u32) {
    let tenths = clock.ms(10000).wrapping_add(500) / 1000;
    line.fill(
        b"<p><b>PDU time</b>@.@ ms</p>\n<p><b>Drive</b>@ PDUs, ",
        &[tenths / 10, tenths % 10, u64::from(pdus)],
    );
    clock::put(line, clock.ms(pdus) / 1000);
    line.put(b"</p>\n");
}

// From the page's start to its heading.
fn put_heading<const N: usize>(host: &Host, line: &mut Line<N>) {
    put_start(line);
    put_title(host, line);
    put_style(line);
    line.put(b"</style>\n</head>\n<body>\n<h1>");
    put_title(host, line);
}

// All that stands above the overview, in place of what the block has, with the lengths of PDUs and how long one is, where these are known.
pub fn put_head<const N: usize>(
    host: &Host,
    block: &mut Line<N>,
    lengths: Option<(u32, u32)>,
    clock: Option<Clock>,
    pdus: u32,
) {
    block.clear();
    put_heading(host, block);
    block.put(b"</h1>\n");
    for (option, before) in LINES {
        put_given(host, block, option, before, b"</p>\n");
    }
    if let Some((shortest, longest)) = lengths {
        put_lengths(block, shortest, longest);
    }
    if let Some(clock) = clock {
        put_times(block, clock, pdus);
    }
    put_given(host, block, Opt::Note, b"<p class=\"note\">", b"</p>\n");
}

// The beginning of the totals and what the picture's parts mean, which stand in a picture of their own.
pub fn put_legend_head<const N: usize>(line: &mut Line<N>) {
    line.fill(
        b"<h2>Totals, and what the pages show</h2>\n<svg class=\"legend\" viewBox=\"48 0 704 @\" font-size=\"10\">\n",
        &[page::LEGEND],
    );
}

// The beginning of a page of rows, up to the title.
pub fn put_page_start<const N: usize>(host: &Host, line: &mut Line<N>) {
    line.put(b"<section>\n<h2>");
    put_title(host, line);
}

// The end of a page of rows, and that of all.
pub fn put_page_end<const N: usize>(line: &mut Line<N>) {
    line.put(b"</svg>\n</section>\n");
}

pub fn put_end<const N: usize>(line: &mut Line<N>) {
    line.put(b"</body>\n</html>\n");
}
