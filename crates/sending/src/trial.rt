// What the writer says to settings: whether it takes them, and which limit they are past where not.
ghost use Rattle.std.specs.Prelude.{◌≤◌};

use crate::Extra;
use host::Host;
use limits::Request;
use settings::Settings;
use text::Line;
use writer::Writer;

// The longest PDU is of 20,480 bytes: one byte more is refused, and so stands for all lengths over that.
pub const OVER: usize = 20481;

// Says which limit is passed by a request that the writer refuses, on standard error after a label.
pub fn say_refused(host: &Host, label: &[u8], refusal: u32, request: Request) {
    let mut words = Line::<256>::new();
    limits::put(&mut words, refusal, request);
    files::say(host, label, words.bytes());
}

// What a writer is asked for.
pub fn request(writer: Writer, length: usize, settings: Settings) -> Request {
    Request {
        mode: writer.mode,
        stream: writer.stream,
        length,
        settings,
    }
}

// The size of a buffer for PDUs of a length.
pub fn size_for(length: usize) -> usize
    ensures { result ≤ 20481 }
{
    length.min(OVER)
}

// Whether the writer takes the settings, the PSD and the length, tried on a packet of one byte; if not, says why.
pub fn is_taken(host: &Host, label: &[u8], extra: Extra, length: usize, writer: Writer) -> bool {
    let mut pdu = [0u8; OVER];
    let size = size_for(length);
    let written = writer.write(extra.settings, extra.psd, &[1], &[0], &mut pdu[..size]);
    if written.refusal == 0 {
        return true;
    }
    let request = request(writer, length, extra.settings);
    say_refused(host, label, written.refusal, request);
    false
}
