// The PSD of every PDU, from the file that an option names.
ghost use Rattle.std.specs.Prelude.{IfSome};
ghost use Rattle.io.specs.Counts.{IsPrefixLen};

use host::Host;
use options::{Command, Opt};
use records::Stop;

// The PSD of every PDU to the buffer's start: what its file holds, or as much of it as fills the buffer; none where no file is named. Answers its length;
// nothing where it cannot be read, which is said.
pub fn read(host: &Host, command: Command, buf: &mut [u8]) -> Option<usize>
    ensures { IfSome result (λ n. IsPrefixLen n buf.new) }
{
    if !options::given(host, command, Opt::Psd) {
        return Some(0);
    }
    let file = files::opened(host, command, Opt::Psd)?;
    let read = records::fill(host, file.fd, buf);
    let failed = read.stop == Some(Stop::Failed);
    if failed {
        host.fail(file.label.bytes());
    }
    host.close(file.fd);
    (!failed).then_some(read.length)
}
