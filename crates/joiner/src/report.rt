// What the program says on standard error, a line in one write.
use frame_logs::Stop;
use host::Host;
use joining::{Ending, Run};
use options::Command;

// The labels of the files: the logs, which are read, and the result.
#[derive(Clone, Copy)]
pub struct Labels<'a> {
    pub core: &'a [u8],
    pub enhanced: &'a [u8],
    pub output: &'a [u8],
}

impl Labels<'_> {
    // Why no more frames are joined; nothing where all are.
    pub fn ends(self, host: &Host, run: Run) {
        match run.ending {
            Some(Ending::Done) => {}
            Some(Ending::Core(stop)) => unread(host, stop, self.core, run.core_pdus),
            Some(Ending::Enhanced(stop)) => unread(host, stop, self.enhanced, run.enhanced_pdus),
            Some(Ending::Unwritten) | None => host.fail(self.output),
        }
    }
}

// Why a log is not read on, after so many PDUs. PDUs are counted from 0.
fn unread(host: &Host, stop: Stop, label: &[u8], pdus: u64) {
    match stop {
        Stop::Record(records::Stop::Cut) => files::say_number(
            host,
            label,
            b": ends inside the record of PDU ",
            pdus,
            b"\n",
        ),
        Stop::NoWords => files::say_number(
            host,
            label,
            b": the record of PDU ",
            pdus,
            b" is no row of words: is this a file of log --format records?\n",
        ),
        Stop::TooLong => files::say_number(
            host,
            label,
            b": more than 25,000 words in a frame, at PDU ",
            pdus,
            b"\n",
        ),
        Stop::Record(_) => host.fail(label),
    }
}

// What was joined.
pub fn summary(host: &Host, run: Run) {
    options::say_numbers(
        host,
        Command::Join,
        b": frames @: refused with 23 @, with 24 @\n",
        &[run.frames, run.no_logs, run.no_order],
    );
    options::say_numbers(
        host,
        Command::Join,
        b": packets: core alone @, both @, enhanced dropped @\n",
        &[run.alone, run.both, run.dropped],
    );
    doubts(host, run);
}

// What the counts tell of files that cannot be joined frame by frame; nothing where there is no such sign.
fn doubts(host: &Host, run: Run) {
    if (run.frames != 0) & (run.no_logs == run.frames) {
        options::say(
            host,
            Command::Join,
            b": no frame was joined: are these files of log --format records?\n",
        );
    }
    if run.unlike != 0 {
        options::say_numbers(
            host,
            Command::Join,
            b": frames without a loss whose packets yet are alone and dropped: @: do both files begin with the same frame, and do the same packets end in each frame of both?\n",
            &[run.unlike],
        );
    }
}

// How the program is used, on standard output.
pub fn usage(host: &Host) -> bool {
    files::print_usage(
        host,
        Command::Join,
        b"usage: barzhilup join [--in FILE] [--out FILE] [OPTION]...

Joins the logs of the core and of the enhanced stream of a drive, frame by
frame, by packet number: which packets had both parts. A log is a file that
\"barzhilup log --format records\" writes: for each PDU a record with the words
of its log.

  --in FILE       the core's log (standard input, also for -)
  --out FILE      the result (standard output, also for -)
  --enhanced FILE the enhanced log (none; standard input for -)
  --force         an existing FILE of --out is renamed FILE~ first
  --core-pdus N   PDUs of the core in a frame, 1 to 64 (8)
  --enhanced-pdus N
                  PDUs of the enhanced stream in a frame, 1 to 64 (1)
  --format F      words or csv (csv)
  --help          prints this and does nothing else (also -h)

In modes 1, 2 and 3 a frame has 8 PDUs of the core and 1 of the enhanced stream,
as without options; in mode 10 it is the other way round. Both files have to
begin with the same frame, and the two parts of a packet have to end in the same
frame: a number does not tell the frame, since it comes again after 64 packets.
\"barzhilup generate\" fills the PDUs of each stream as they come and does not see
to that. Where one file ends before the other, its later frames have no packets.

Formats:
  csv             the columns frame, number, core, enhanced and both: for each
                  packet its number, the bytes of its core and of its enhanced
                  part, 0 for none, and 1 if both are there; the core's packets
                  in their order, then enhanced ones without core. A refused
                  frame is \"FRAME,refused,N,,\"; the last line is
                  \",end,N,,whole\" if all N frames are read
  words           each core packet's words, and for a pair the enhanced packet's
                  after them, bit 29 set in its first; each word in four bytes,
                  low byte first; nothing for a refused frame

A frame whose words are no log is refused with 23, one in whose logs packet
numbers do not rise with 24; the others go on. Standard error has a line for
each of the first five, then the counts, a question if the files do not look as
if they went together, and the last line \"barzhilup join: stopped early\" if not
all frames are read. The exit status is 0 if all are read, 1 if not, 2 if the
usage is wrong.
",
    )
}
