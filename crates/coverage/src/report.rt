// What the program says on standard error, a line in one write.
use host::{Host, STDERR};
use log_csv::Wrong;
use options::Command;
use readings::{Run, State};
use text::Line;

// How many pages there are, where another one is asked for.
pub fn say_pages(host: &Host, pages: u32) {
    options::say_numbers(
        host,
        Command::Coverage,
        b": --page: there are only so many pages: @\n",
        &[u64::from(pages)],
    );
}

// That mode and stream are not in the table.
pub fn say_unlisted(host: &Host) {
    let mut line = Line::<512>::new();
    line.put(Command::Coverage.words());
    limits::put_unlisted(&mut line);
    host.write_all(STDERR, line.bytes());
}

// That a picture by itself has more rows than are read on a page, and how there are pages.
pub fn say_rows(host: &Host, rows: u32) {
    options::say_numbers(
        host,
        Command::Coverage,
        b": --rows: not given, so the picture has all rows: @; --rows N draws a page of N rows, --page K another one, --format html pages to print\n",
        &[u64::from(rows)],
    );
}

// What is wrong with a line of a file, counted from 1.
fn wrong_line(host: &Host, label: &[u8], number: u64, wrong: Wrong) {
    let mut line = Line::<4800>::new();
    line.put(label);
    line.fill(b": line @: ", &[number]);
    line.put(wrong.words());
    host.write_all(STDERR, line.bytes());
}

// Why a reading stopped; nothing where all lines are read. Answers whether they are.
pub fn is_read(host: &Host, run: Run, from: &[u8], onto: &[u8]) -> bool {
    match run.state {
        State::Wrong(wrong) => wrong_line(host, from, run.count.wrapping_add(1), wrong),
        State::NotRead => host.fail(from),
        State::NotWritten => host.fail(onto),
        State::Going | State::Read => {}
    }
    run.state == State::Read
}

// How the program is used, on standard output.
pub fn usage(host: &Host) -> bool {
    files::print_usage(
        host,
        Command::Coverage,
        b"usage: barzhilup coverage [--in FILE] [--out FILE] [OPTION]...

Draws a drive as SVG or HTML from the CSV of barzhilup log: a cell for each PDU,
received, received with a corrected header, lost or refused, with a mark where
a CRC is wrong; under it a bar for the packets that it delivered, and a tick
where packets are missing before those; and totals. A withheld PDU (log
--entitled) has a hollow cell, one that looks as if it came twice a 2, one that
looks as if it came out of turn an arrow. In the log of two recordings (log
--second) a stroke at a cell's upper edge tells that pieces are taken from the
first copy, one at its lower edge that they are from the second. An HTML page
has a head with the PDU length, an overview of the share of PDUs lost or
refused, the totals, the text of PSD where it changes, and then pages of rows;
it prints on paper laid across.

Delivered and missing are those of the receiver's record, as the CSV has them;
a tick stands where missing grew. Withheld packets and those with a damaged
piece count as missing; what is missing before the first one delivered, or
after the last, does not. Missing is exact where each PDU comes or is marked
lost once, in turn, and fewer than 64 packets are missing between two
delivered. Where more may be missing, it is given twice: at least, which is the
record's, and about, which ticks have too. Packets of PDUs that look as if they
came twice or out of turn count once, where the record counts them again: then
standard error and the picture have the record's figures besides. A CSV without
these two columns is drawn without them.

  --in FILE       the CSV (standard input, also for -); it is read more than
                  once, so no pipe
  --out FILE      the picture or page (standard output, also for -)
  --force         an existing FILE of --out is renamed FILE~ first
  --format NAME   svg, a picture, or html, a page to print (svg)
  --title TEXT    its title, at most 200 bytes (Coverage)
  --station TEXT  lines of an HTML page's head: the station, when and with what
  --date TEXT     it was received; at most 200 bytes each
  --source TEXT
  --note TEXT     a paragraph of that head, at most 4000 bytes
  --mode N        mode and stream, 0 to 255 (0 each): if one is given, times
  --stream N      stand beside the numbers of PDUs, by the PDU time of the mode
  --pdu-ms N      the time of a PDU in ms instead, 1 to 60000
  --columns N     how many PDUs stand in a row, 20 to 200 (100)
  --rows N        how many rows stand on a page, 1 to 1000 (svg all, html 12);
                  a picture of over 60 rows is said to have so many
  --page N        the page that is drawn, 1 to 1000000 (svg 1, html all)
  --help          prints this and does nothing else (also -h)

Where the CSV has no last line, its log is not whole: standard error and the
picture say so. A line that the file's end cuts is left out. Standard error has
the totals, and if there is no whole picture the last line
\"barzhilup coverage: stopped early\". The exit status is 0 if there is one, 1 if
not, 2 if the usage is wrong.
",
    )
}
