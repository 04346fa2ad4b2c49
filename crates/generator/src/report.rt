// What the program says of its work.
use broadcast::Broadcast;
use files::Label;
use host::Host;
use options::{Command, Opt};
use records::Stop;
use sending::Run;

// What is sent, on standard error.
pub fn summary(host: &Host, run: Run) {
    options::say_numbers(
        host,
        Command::Generate,
        b": packets @ (bytes @), PDUs @ (bytes @)\n",
        &[run.packets, run.octets, run.pdus, run.size],
    );
}

// The label of the file whose PSD runs across PDUs.
fn psd_label(host: &Host) -> Label {
    files::label(host, Command::Generate, Opt::PsdStream)
}

// Says that PSD that runs across PDUs could not be read, if so.
pub fn psd_ends(host: &Host, done: Broadcast) {
    if done.supply.stop == Some(Stop::Failed) {
        files::say(host, psd_label(host).bytes(), b": cannot be read\n");
    }
}

// How much is sent of PSD that runs across PDUs, and whether its file has more.
pub fn psd(host: &Host, done: Broadcast) {
    if !options::given(host, Command::Generate, Opt::PsdStream) {
        return;
    }
    options::say_numbers(
        host,
        Command::Generate,
        b": bytes of PSD @\n",
        &[done.supply.sent],
    );
    if done.supply.has_more(host) {
        files::say(
            host,
            psd_label(host).bytes(),
            b": has more PSD than was sent\n",
        );
    }
}

// How many changes of settings came, and which did not.
pub fn changes(host: &Host, done: Broadcast, label: &[u8]) {
    if !options::given(host, Command::Generate, Opt::Settings) {
        return;
    }
    options::say_numbers(
        host,
        Command::Generate,
        b": changes of settings @\n",
        &[done.changes],
    );
    if let Some(next) = done.next {
        files::say_number(
            host,
            label,
            b": line ",
            next.line,
            b": its PDU did not come, nor any after it\n",
        );
    }
}

// How the program is used, on standard output.
pub fn usage(host: &Host) -> bool {
    print_options(host) && mode_table::print(host, Command::Generate)
}

fn print_options(host: &Host) -> bool {
    files::print_usage(
        host,
        Command::Generate,
        b"usage: barzhilup generate [--in FILE] [--out FILE] [OPTION]...

Makes a file of PDUs from a file of packets. A record of either file is its
length in two bytes, low byte first, and then its bytes.

  --in FILE         packets of 1 to 4096 bytes (standard input, also for -)
  --adts            the packets stand in ADTS frames, not in records
  --resync          with --adts: bytes at which no frame begins are passed over
                    up to the next frame behind which another begins, or the end
  --out FILE        PDUs (standard output, also for -)
  --force           an existing FILE of --out is renamed FILE~ first
  --mode N          0, 1, 2, 3, 10 or 13 (0)
  --stream N        0 core, 1 enhanced (0)
  --crc-start N     the register that CRCs start with, 0 to 255 (0; recordings
                    off the air check with 255)
  --length N        the length of each PDU, 96 to 20480 (1024)
  --psd FILE        PSD of each PDU, the same in every one, up to the most of
                    the mode (none; - is standard input, if the packets are not)
  --psd-stream FILE PSD that runs across PDUs, in the place of --psd: each has
                    the next bytes of FILE until it ends, then none
  --psd-bytes N     with --psd-stream: the most in one PDU, 1 to 128 (as many as
                    the mode has beside expansion fields)
  --psd-repeat      with --psd-stream: FILE again from its start at its end
  --settings FILE   settings that change from PDU to PDU, as below
  --blend N         blend control, 0 to 2 (0)
  --gain N          gain, or in stream 1 the stream delay (0)
  --common-delay N  0 to 63 (0)
  --latency N       0 to 7 (0)
  --help            prints this and does nothing else (also -h)

Expansion fields, sent if an option of theirs is given:
  --class N         class, 1
  --program N       program number, 0 to 7
  --displacement    the displacement of the last byte
  --access N        access, 0 or 1
  --type N          program type, 0 to 255
  --services N      applied services, 0 or 1
  --marker N        marker, 0 to 2097151

Settings: a text with a line for each PDU at which they change: its number, from
0, rising from line to line, and what is other from it on, by the names of these
options, as in \"120 gain=3 program=2 displacement\". A dash takes an expansion
field away, \"program=-\"; access and type are one field, and so are services and
marker. What follows a # is a comment. Each line is tried before a PDU is made.

Standard error has what is sent, a line for each of the first five places that
are passed over and their count, and if not all is sent the last line
\"barzhilup generate: stopped early\". The exit status is 0 if all is sent,
1 if not, 2 if the usage is wrong.
",
    )
}
