// What the program says on standard error, a line in one write, and how it is used.
use host::{Host, STDERR};
use latency::Answer;
use options::Command;
use text::Line;

// The first count over 63; how many there are where none is.
fn first_over(counts: &[u32]) -> usize {
    counts
        .iter()
        .position(|&count| 63 < count)
        .unwrap_or(counts.len())
}

// Why counts are refused with 21.
pub fn refused(host: &Host, label: &[u8], counts: &[u32]) {
    if counts.len() == 0 {
        files::say(host, label, b": refused with 21: no counts\n");
        return;
    }
    if 4096 < counts.len() {
        files::say(host, label, b": refused with 21: more than 4,096 counts\n");
        return;
    }
    files::say_number(
        host,
        label,
        b": refused with 21: a count over 63, that of PDU ",
        first_over(counts) as u64,
        b"\n",
    );
}

// What was tried, and what was found.
pub fn summary(host: &Host, counts: &[u32], answer: Answer) {
    let mut line = Line::<256>::new();
    line.put(Command::Latency.words());
    line.fill(
        b": PDUs @, packets @; ",
        &[counts.len() as u64, latency_table::packets_of(counts)],
    );
    latency_table::put_answer(&mut line, answer);
    host.write_all(STDERR, line.bytes());
}

// How the program is used, on standard output.
pub fn usage(host: &Host) -> bool {
    print_options(host) && mode_table::print(host, Command::Latency)
}

fn print_options(host: &Host) -> bool {
    files::print_usage(
        host,
        Command::Latency,
        b"usage: barzhilup latency [--in FILE] [--out FILE] [OPTION]...

Tries the latencies 0 to 7 before going on air. Its input is how many packets
end in each PDU. One PDU's count is added at tick 0 and every N ticks: 4 where
the PDU sequence is 0 to 7, 32 where it is 0 to 1. A latency v takes nothing
before tick 2 times v; from there each tick takes one packet, after any adding,
or is dry if none waits. A table has the dry ticks of each latency, the first
of them and the most packets that wait, and the smallest latency without one.

  --in FILE         counts, 0 to 63, with blanks or line ends between them
                    (standard input, also for -)
  --counts N,N,...  the counts themselves, in the place of --in
  --packets         --in has packets, and the counts are those of the PDUs that
                    barzhilup generate makes of them
  --mode N          0, 1, 2, 3, 10 or 13 (0)
  --stream N        0 core, 1 enhanced (0)
  --out FILE        the table (standard output, also for -)
  --svg FILE        a picture of the packets that wait over time (- is standard
                    output, if the table is not)
  --draw N          the latency in the picture, 0 to 7 (the smallest without a
                    dry tick, 7 if there is none)
  --force           an existing FILE of --out or --svg is renamed FILE~ first
  --help            prints this and does nothing else (also -h)

With --packets, as for barzhilup generate, which says more of them:
  --adts            the packets stand in ADTS frames, not in records
  --resync          with --adts: passes over bytes at which no frame begins
  --length N        the length of each PDU, 96 to 20480 (1024)
  --psd FILE        PSD of each PDU, at most 128 bytes (none)
  --class N         expansion fields, sent if an option of theirs is given
  --program N
  --displacement
  --access N
  --type N
  --services N
  --marker N
  --crc-start N     taken too, and make no difference to the counts
  --blend N
  --gain N
  --common-delay N
  --latency N

There may be 4096 counts. Standard error has what was found, and if that is not
all written the last line \"barzhilup latency: stopped early\". The exit status
is 0 if all is done, 1 if not, 2 if the usage is wrong.
",
    )
}
