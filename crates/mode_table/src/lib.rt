// The mode table (document 01, "Modes") as text, for the help of subcommands; on `files` alone.
#![tactic(auto)]

use host::Host;
use options::Command;

// Prints the table on standard output. Answers whether all is printed; if not, says why.
pub fn print(host: &Host, command: Command) -> bool {
    files::print_usage(
        host,
        command,
        b"
Modes, with the streams that each has:
  mode     stream        PDU sequence  longest PDU  most PSD and expansion
  0        0, core       0 to 1        20480        128 bytes
  1, 2, 3  0, core       0 to 7        4096         21 bytes
  1, 2, 3  1, enhanced   0 to 1        20480        16 bytes, no PSD
  10       0, core       0 to 1        4096         128 bytes
  10       1, enhanced   0 to 7        4096         16 bytes, no PSD
  13       0, core       0 to 7        4096         21 bytes
",
    )
}
