// The program `barzhilup`, on `generator`, `channel`, `logger`, `coverage`, `trials` and `joiner`: its first argument says what it does. The
// crate `barzhilup` hands on its answer as the exit status.
#![tactic(auto)]

use files::Exit;
use host::{Host, STDERR};
use options::Command;

// Answers how the work ended: all is done, it stopped early, or the usage is wrong.
pub fn barzhilup_main(host: &Host) -> Exit {
    let mut word = io::buffer();
    let n = host.arg(1, &mut word).unwrap_or(0);
    run(host, &word[..n])
}

// Runs the subcommand of a word, or says what the program is.
fn run(host: &Host, word: &[u8]) -> Exit {
    match word {
        b"generate" => files::with_hint(host, Command::Generate, generator::program(host)),
        b"channel" => files::with_hint(host, Command::Channel, channel::program(host)),
        b"log" => files::with_hint(host, Command::Log, logger::program(host)),
        b"coverage" => files::with_hint(host, Command::Coverage, coverage::program(host)),
        b"latency" => files::with_hint(host, Command::Latency, trials::program(host)),
        b"join" => files::with_hint(host, Command::Join, joiner::program(host)),
        b"--help" | b"-h" => files::status(host, Command::Barzhilup, print_usage(host)),
        b"--version" => files::status(host, Command::Barzhilup, print_version(host)),
        _ => {
            unknown(host, word);
            files::with_hint(host, Command::Barzhilup, Exit::Wrong)
        }
    }
}

fn print_usage(host: &Host) -> bool {
    files::print_usage(
        host,
        Command::Barzhilup,
        b"usage: barzhilup SUBCOMMAND [OPTION]...

The audio transport layer of HD Radio (1017s Rev. H), for bench and car testers
of reception.

  generate   packs audio packets and program service data into PDUs
  channel    loses and damages PDUs, by a seed
  log        receives PDUs and writes the packet log
  coverage   draws a packet log
  latency    tries latencies before going on air
  join       joins the logs of core and enhanced by packet number

  --help     prints this (also -h); barzhilup SUBCOMMAND --help says more
  --version  prints the version

The exit status is 0 if all is done, 1 if the work stopped early, which the
last line on standard error says, 2 if the usage is wrong.
",
    )
}

fn print_version(host: &Host) -> bool {
    files::print_usage(host, Command::Barzhilup, b"barzhilup 0.1.0\n")
}

// Says that a subcommand is missing, or that there is none of this name; and which there are.
fn unknown(host: &Host, word: &[u8]) {
    if host.arg_count() < 2 {
        options::say(host, Command::Barzhilup, b": subcommand missing\n");
    } else {
        options::say_argument(host, Command::Barzhilup, b": unknown subcommand ", word);
    }
    host.write_all(
        STDERR,
        b"usage: barzhilup generate|channel|log|coverage|latency|join [OPTION]...\n",
    );
}
