// What `barzhilup log` says on standard error, a line or more in one write, and how it is used; on `logging`, `apart` and `mode_table`.
#![tactic(auto)]

use apart::File;
use host::{Host, STDERR};
use logging::{Ending, marks};
use options::Command;
use records::Stop;
use text::Line;

fn say(host: &Host, line: &[u8]) {
    host.write_all(STDERR, line);
}

// Why no more PDUs are logged, after so many; nothing where all are, or where that is said already. PDUs are counted from 0; the next record is at a byte.
pub fn ends(
    host: &Host,
    ending: Ending,
    from: &[u8],
    marking: &[u8],
    onto: &[u8],
    pdus: u64,
    place: u64,
) {
    match ending {
        Ending::Records(Stop::End) | Ending::Unsaved | Ending::Beside(_) => {}
        Ending::Unwritten => host.fail(onto),
        Ending::Marks(fault) => marks_end(host, fault, marking, pdus),
        Ending::Records(stop) => record_ends(host, stop, from, pdus, place),
    }
}

// What is wrong with the record of a PDU at a byte of a file: the file ends inside it, it is longer than any PDU, or it cannot be read.
pub fn record_ends(host: &Host, stop: Stop, from: &[u8], pdu: u64, place: u64) {
    match stop {
        Stop::Cut => {
            files::say_number(host, from, b": ends inside the record of PDU ", pdu, b"\n")
        }
        Stop::Long => {
            let mut line = Line::<4800>::new();
            line.put(from);
            line.fill(
                b": the record of PDU @, at byte @, has a length over 20480, which no PDU has\n",
                &[pdu, place],
            );
            say(host, line.bytes());
        }
        Stop::End | Stop::Failed => host.fail(from),
    }
}

// At how many places bytes were passed over, and how many bytes, if there were any.
pub fn passed(host: &Host, places: u64, bytes: u64) {
    if places == 0 {
        return;
    }
    let mut line = Line::<128>::new();
    line.fill(
        b"barzhilup log: places passed over @ (bytes @), each logged as a lost PDU\n",
        &[places, bytes],
    );
    say(host, line.bytes());
}

// What is wrong with the file of marks, after so many PDUs.
fn marks_end(host: &Host, fault: marks::Fault, marking: &[u8], pdus: u64) {
    match fault {
        marks::Fault::Missing => files::say_number(
            host,
            marking,
            b": ends before the marks of PDU ",
            pdus,
            b"\n",
        ),
        marks::Fault::Cut => files::say_number(
            host,
            marking,
            b": ends inside the marks of PDU ",
            pdus,
            b"\n",
        ),
        marks::Fault::Left => files::say_number(
            host,
            marking,
            b": has marks of more than the ",
            pdus,
            b" PDUs\n",
        ),
        marks::Fault::Unread => host.fail(marking),
    }
}

// What is wrong with one of two files, by what stopped its reading, of which so many records were read and so many PDUs logged, and whose next record is at a
// byte; nothing where it has a record for each.
pub fn side_ends(
    host: &Host,
    stop: Option<Stop>,
    from: &[u8],
    records: u64,
    pdus: u64,
    place: u64,
) {
    match stop {
        None => {}
        Some(Stop::End) => shorter(host, from, records, pdus),
        Some(stop) => record_ends(host, stop, from, records, place),
    }
}

// A file that ends before the other one does.
fn shorter(host: &Host, from: &[u8], records: u64, pdus: u64) {
    if records == pdus {
        return;
    }
    let mut line = Line::<4800>::new();
    line.put(from);
    line.fill(
        b": has @ of @ PDUs: the others count as not come\n",
        &[records, pdus],
    );
    say(host, line.bytes());
}

// What each of two files gives alone, and where the pieces are taken from, by the counts of both.
pub fn copies(host: &Host, rows: &[u64]) {
    let mut lines = Line::<512>::new();
    counts::put_alone(
        &mut lines,
        b"barzhilup log: first copies",
        File::First.row(rows),
    );
    counts::put_alone(
        &mut lines,
        b"barzhilup log: second copies",
        File::Second.row(rows),
    );
    lines.fill(
        b"barzhilup log: pieces taken from the first copy @, from the second @, alike in both @\n",
        &[
            counts::at(rows, apart::FROM_FIRST),
            counts::at(rows, apart::FROM_SECOND),
            counts::at(rows, apart::ALIKE),
        ],
    );
    say(host, lines.bytes());
}

// More pairs were refused with 20 than PDUs were received: the two files may not have a record for each PDU.
pub fn out_of_step(host: &Host) {
    say(
        host,
        b"barzhilup log: most pairs were refused with 20: does each file have a record for each PDU, also for those that did not come?\n",
    );
}

// What was received and logged.
pub fn summary(host: &Host, pdus: u64, counts: &[u64]) {
    let mut lines = Line::<4096>::new();
    counts::put_summary(&mut lines, pdus, counts);
    say(host, lines.bytes());
}

// PDUs were refused, and none was received: the mode and the stream that are asked for may not be the file's.
pub fn none_received(host: &Host, mode: u8, stream: u8) {
    let mut line = Line::<128>::new();
    line.fill(
        b"barzhilup log: no PDU was received: is this a file of PDUs of mode @, stream @?\n",
        &[u64::from(mode), u64::from(stream)],
    );
    say(host, line.bytes());
}

// Every piece, or nearly every one, had a wrong CRC: the register that is asked for may not be the one that the file's CRCs start with.
pub fn crcs_wrong(host: &Host, share: &[u8], register: u8) {
    let mut line = Line::<128>::new();
    line.put(b"barzhilup log: ");
    line.put(share);
    line.fill(
        b" CRCs were wrong: is @ the start of this file's CRCs (--crc-start)?\n",
        &[u64::from(register)],
    );
    say(host, line.bytes());
}

// All PDUs are logged, and packets among them were never sent: the last line.
pub fn never_sent(host: &Host) {
    say(
        host,
        b"barzhilup log: all PDUs are logged, but packets came that were never sent: is the file of --sent that of this drive?\n",
    );
}

// The help, on standard output: how the program is used, and the mode table.
pub fn help(host: &Host) -> bool {
    usage(host) && mode_table::print(host, Command::Log)
}

// How the program is used, on standard output.
fn usage(host: &Host) -> bool {
    files::print_usage(
        host,
        Command::Log,
        b"usage: barzhilup log [--in FILE] [--out FILE] [OPTION]...
       barzhilup log --summary LOG

Turns a file of PDUs into the packet log. A record of the file is a PDU's length
in two bytes, low byte first, and then its bytes; a record of length 0 is a PDU
that is marked lost.

  --in FILE       PDUs (standard input, also for -)
  --out FILE      the packet log (standard output, also for -)
  --second FILE   the same drive by a second receiver (standard input for -)
  --marks FILE    the places of doubtful header bytes (standard input for -)
  --save FILE     how the drive stands, replaced after each PDU
  --resume FILE   goes on where the FILE of --save stands
  --skip          with --resume: the input has the PDUs that are logged too,
                  and they are passed over
  --packets FILE  the delivered packets, as records (standard output for -)
  --adts FILE     the delivered packets, in ADTS frames (likewise)
  --psd FILE      the PSD that came, joined (likewise)
  --sent FILE     the packets that were sent, as records: tells which of them
                  are missing, and which delivered ones were never sent
  --sent-adts     the FILE of --sent has the packets in ADTS frames
  --compared FILE a line for each packet that was sent, as CSV (standard output
                  for -)
  --force         an existing FILE that is to be written is renamed FILE~ first
  --resync        passes over bytes at which no record begins
  --mode N        0, 1, 2, 3, 10 or 13 (0), or auto: mode and stream of the
                  first PDU that can be read
  --stream N      0 core, 1 enhanced (0)
  --crc-start N   the register that CRCs start with, 0 to 255 (0; recordings
                  off the air check with 255)
  --entitled LIST the programs that the receiver is entitled to, as 0,3, or
                  none (all)
  --format F      words, text, csv, json or records (text)
  --batch N       receives frames of N records, 1 to 64, in one call each; the
                  log is the same for every N, and without it; no marks, and
                  no second recording
  --summary LOG   the counts again, of a log that was written with --format csv
                  (standard input for -); goes with no other option
  --help          prints this and does nothing else (also -h)

Marks: a record for each record of PDUs, in the same form; each of its bytes is
a place, 0 to 95. Without marks up to four wrong header bytes are corrected;
with s marked places, any values there and up to (8 - s) / 2 wrong bytes
elsewhere. More than eight places, one over 95 or one twice: refused with 19.

Second: a record for each record of PDUs, of length 0 for one that did not come
there. Of two copies each piece is taken from one in which its CRC is right; a
copy that came alone, or whose header alone can be corrected, is received by
itself. Copies that differ up to La are refused with 20; a piece that is right
in both and differs has a note. A file that is shorter counts as not come from
there on. Not with --marks.

Entitled: program numbers from 0 to 7, each once; others are refused with 22. A
PDU of another program with applied services 1, or unknown ones, is withheld:
its log has a note in place of the PSD, and no packet but one that began before
it. Without the option no PDU is withheld.

Packets, adts, psd: written before the next PDU is read. One of them, or the
list of --compared, may go to standard output, where --out FILE is given. None
goes with --save or --resume, nor does --sent.

Sent: packets are numbered from the file's first on, modulo 64. A delivered one
is looked for by its number and bytes in the whole file. Those that never came
are missing, also before the first and after the last delivered one; one that
came before is delivered again. Packets with the same number and bytes cannot be
told apart: missing is then the least that fits. One that was never sent is
said, and the exit status is then 1, though all PDUs are logged. The list has
the columns index, number, length, state (delivered, missing, again or never
sent) and pdu: packets as they came, then the missing ones; its last line is
\",end,N,,whole\" if it has all N. The file is read more than once, so it cannot
be a pipe, and has at most 1,048,576 packets.

Save: the receiver's words and the counts of PDUs and of bytes logged, in two
records of words. FILE is replaced by a new file, FILE.new, so it is whole at
every moment. Needs --out FILE; not with --second.

Resume: mode, stream, start of CRCs and programs are those of FILE; without
--skip the input begins with the next PDU, and PDUs that passed meanwhile stand
there as records of length 0: else a packet may be joined from parts that do not
belong together. PDUs are counted on. The log goes on after the count of bytes
that is said: those bytes of the log before, and then this one, are the log of
the whole drive. Other words are refused with 25.

Resync: a length over 20480 is that of no PDU, and stops the log at its record,
whose place in the file is said. With --resync the next place is looked for at
which a record begins whose PDU can be read, in the mode and stream asked for,
and records follow that lead to another such or to the end. The bytes before it
are passed over, which is said, and logged as one lost PDU. So is a record that
was cut, with others written behind it. What is logged of a record waits for the
next PDU that can be read.

Mode auto: a PDU that can be read is one whose header can be corrected and that
is not refused; with --stream only those of that stream count. PDUs before it
are logged as lost or refused, in the mode that was found; a length over 20480
before it stops the log, unless --resync is given. Neither this nor --resync
goes with --batch, --marks or --second.

Summary: the counts that a run ends with, on standard output, from its CSV; also
from one that was cut, as by an interruption: then of what is there, and
standard error says that the log is not whole.

Formats:
  words           the log's words, each in four bytes, low byte first
  text            a line for each PDU, and one for each packet, PSD and note
  csv             the same, in the columns pdu, kind, copy, corrected, refusal,
                  packet, length, piece, note, cause, delivered, missing,
                  crc32, text and pdus; crc32 is that of a packet's or PSD's
                  bytes, text what of PSD is printable; the last line has the
                  kind end, the cause whole and the count of PDUs, if all are
                  logged; with --second a received PDU has the copy that it is
                  taken from: first, second, both or either
  json            the same, an object in each line, with the columns that are
                  not empty
  records         for each PDU a record, as in the file of PDUs, with its log's
                  words as above: what \"barzhilup join\" reads

Delivered and missing are counts of packets, as the receiver's record has them
after each PDU: csv and json have them on the line of each, and the counts on
standard error have those after the last. Packets of lost and refused PDUs,
those with a damaged piece and withheld ones are missing; what is missing before
the first packet delivered, or after the last, is not counted. Missing is exact
where each PDU comes or is marked lost once, in turn, and fewer than 64 packets
are missing between two delivered.

A PDU that is refused is marked lost, also one of another mode or stream.
Standard error has a line for each of the first five and for the first of
another mode or stream, then the counts, and the last line
\"barzhilup log: stopped early\" if not all PDUs are logged. The exit status is
0 if all are logged, 1 if not or if packets were never sent, 2 if the usage is
wrong.
",
    )
}
