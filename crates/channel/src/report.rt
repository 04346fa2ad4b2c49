// What the program says on standard error, a line in one write.
use disorder::Unwritten;
use host::Host;
use options::Command;
use passage::{Ending, Run};
use records::Stop;
use text::Line;

// The labels of the files: the one that is read, and those of PDUs and marks, which are written.
#[derive(Clone, Copy)]
pub struct Labels<'a> {
    pub from: &'a [u8],
    pub onto: &'a [u8],
    pub marking: &'a [u8],
}

impl Labels<'_> {
    // A record has a length that no PDU has, after so many records of so many bytes.
    fn too_long(self, host: &Host, run: Run) {
        let mut words = Line::<128>::new();
        words.fill(
            b": the record of PDU @, at byte @, has a length over 20480, which no PDU has\n",
            &[run.pdus, run.bytes],
        );
        files::say(host, self.from, words.bytes());
    }

    // Why no more PDUs are sent; nothing where all are. PDUs and bytes are counted from 0.
    pub fn ends(self, host: &Host, run: Run) {
        match run.ending {
            Some(Ending::Reading(Stop::End)) => {}
            Some(Ending::Reading(Stop::Cut)) => files::say_number(
                host,
                self.from,
                b": ends inside the record of PDU ",
                run.pdus,
                b"\n",
            ),
            Some(Ending::Reading(Stop::Long)) => self.too_long(host, run),
            Some(Ending::Writing(Unwritten::Pdu)) => host.fail(self.onto),
            Some(Ending::Writing(Unwritten::Marks)) => host.fail(self.marking),
            Some(Ending::Reading(Stop::Failed)) | None => host.fail(self.from),
        }
    }
}

// What the channel did. PDUs that were marked lost before are counted apart.
pub fn summary(host: &Host, run: Run) {
    options::say_numbers(
        host,
        Command::Channel,
        b": PDUs @ (lost before @), lost @, damaged @, bytes altered @\n",
        &[run.pdus, run.missing, run.lost, run.damaged, run.altered],
    );
}

// What else is counted where it is asked for.
#[derive(Clone, Copy, Debug, PartialEq, Eq)]
pub enum Counted {
    Bursts,
    Twice,
    Swapped,
    Cut,
}

impl Counted {
    // The words that say how often it happened.
    fn words(self) -> &'static [u8] {
        match self {
            Counted::Bursts => b": pieces hit by bursts @\n",
            Counted::Twice => b": PDUs sent twice @\n",
            Counted::Swapped => b": PDUs swapped with the next @\n",
            Counted::Cut => b": PDUs cut @\n",
        }
    }
}

// How often a thing happened that was asked for so many times in a thousand; nothing where it was for none.
pub fn asked_for(host: &Host, thing: Counted, in_a_thousand: u64, count: u64) {
    if in_a_thousand != 0 {
        options::say_numbers(host, Command::Channel, thing.words(), &[count]);
    }
}

// How the program is used, on standard output.
pub fn usage(host: &Host) -> bool {
    files::print_usage(
        host,
        Command::Channel,
        b"usage: barzhilup channel [--in FILE] [--out FILE] [OPTION]...

Damages a file of PDUs: PDUs are lost in bursts, and of those that come through
some have bytes of the header changed, or bits of pieces flipped, come twice or
out of turn, or are cut. A record of either file is its length in two bytes, low
byte first, and then its bytes; a record of length 0 is a PDU marked lost, and
stays so. The same seed gives the same damage. A length over 20480, which no PDU
has, stops the channel there.

  --in FILE     PDUs (standard input, also for -)
  --out FILE    the PDUs that come through (standard output, also for -)
  --marks FILE  for each record of --out one of the places that are changed,
                a byte each, as \"barzhilup log --marks\" takes them (standard
                output for -)
  --force       an existing FILE of --out or --marks is renamed FILE~ first
  --seed N      0 to 4294967295 (1)
  --loss N      how many PDUs in a thousand begin a burst of lost ones,
                0 to 1000 (50)
  --burst N     the longest burst, 1 to 64: each has 1 to N PDUs (4); for
                flipped bits see --bursts
  --damage N    how many PDUs in a thousand have a damaged header, 0 to 1000
                (500)
  --bytes N     the most bytes changed in a damaged header, 0 to 96: each has
                1 to N among the PDU's first 96 bytes (4)
  --bursts N    how many pieces in a thousand have flipped bits, 0 to 1000 (0),
                of those that reach beyond the PDU's first 96 bytes: each 1 to
                8 of them, inside eight consecutive bits of the piece with its
                CRC byte, and none in these 96 bytes; for lost PDUs see --burst
  --twice N     how many PDUs in a thousand come twice, 0 to 1000 (0)
  --swap N      how many PDUs in a thousand change places with the next record,
                0 to 1000 (0); one that is before its turn so is not moved again
  --cut N       how many PDUs in a thousand are cut, 0 to 1000 (0): at least one
                byte of the record is left, and at least one is missing
  --help        prints this and does nothing else (also -h)

Standard error has the counts, and if not all PDUs are sent the last line
\"barzhilup channel: stopped early\". The exit status is 0 if all are sent,
1 if not, 2 if the usage is wrong.
",
    )
}
