// Opening a writer, and writing PDUs (document 01, "Writer"); on `settings`, `packing` and `pdu`.
#![tactic(auto)]

ghost use Rattle.std.specs.Prelude.{◌≡◌, false, ◌||◌, not, cond, eqb, ◌+◌, ◌≤◌, ◌<◌, length};
ghost use Rattle.modes.specs.Modes.{listing};
ghost use Rattle.modes.specs.declared.Listing.TheVariants.{Listed};
ghost use Rattle.refusal.specs.Refusal.{first_of, any_of};
ghost use Rattle.pieces.specs.Pieces.{total};
ghost use Rattle.writer.specs.Writing.{writer_opened, wrong_lengths, wrong_unfinished, wrong_writer, wrong_size, wrong_packets, wrong_extra, no_room, control_with, advanced, writer_tests, accepted_answer, refused_write, pdu_of, answer_in, pdu_in, write_answer, written_pdu};

use expansion::ExpansionBytes;
use layout::ControlWord;
use modes::{Listing, Mode};
use packing::Packed;
use settings::Settings;

// What a writer was opened with, and what it remembers.
#[repr(C)]
#[derive(Clone, Copy)]
pub struct Writer {
    pub mode: u8,
    pub stream: u8,
    // The register that the CRC of each piece starts with.
    pub register: u8,
    // The next PDU's sequence.
    pub sequence: u8,
    // The number of the first unfinished packet, and how many bytes of it are sent.
    pub number: u8,
    pub sent: u16,
}

// The refusal number, 0 where there is none, and the writer: if refused, one that every call turns down with 1.
#[repr(C)]
#[derive(Clone, Copy)]
pub struct Opened {
    pub refusal: u32,
    pub writer: Writer,
}

// The refusal number, 0 where there is none; how many packets ended; and the next state, the same if refused.
#[repr(C)]
#[derive(Clone, Copy)]
pub struct Written {
    pub refusal: u32,
    pub ended: u32,
    pub writer: Writer,
}

// A mode that the table has not.
const NO_MODE: u8 = 255;

// Opens a writer for a mode and stream, with the register that CRCs start with, any byte; or refuses with 5.
pub fn open(mode: u8, stream: u8, register: u8) -> Opened
    ensures { result ≡ writer_opened mode stream register }
{
    match modes::look_up(mode, stream) {
        Listing::Listed(_) => Opened {
            refusal: 0,
            writer: Writer {
                mode: mode,
                stream: stream,
                register: register,
                sequence: 0,
                number: 0,
                sent: 0,
            },
        },
        Listing::Refused(n) => Opened {
            refusal: n,
            writer: Writer {
                mode: NO_MODE,
                stream: 0,
                register: 0,
                sequence: 0,
                number: 0,
                sent: 0,
            },
        },
    }
}

// A packet length of 0 or over 4,096, or lengths that do not sum to the count of bytes.
fn wrong_lengths(lengths: &[u16], count: usize) -> bool
    ensures { result ≡ (wrong_lengths lengths.now || not (eqb (total lengths.now) count)) }
{
    let mut left = count;
    for length in lengths {
        let n = usize::from(*length);
        if (n == 0) | ((4096 < n) | (left < n)) {
            return true;
        }
        left -= n;
    }
    left != 0
}

// Bytes sent of a packet that is absent or not longer.
fn wrong_unfinished(sent: u16, lengths: &[u16]) -> bool
    ensures { result ≡ wrong_unfinished sent lengths.now }
{
    if lengths.len() == 0 {
        return 0 < sent;
    }
    (0 < sent) & (lengths[0] <= sent)
}

// Sequence, number or sent outside their ranges: refusal 1.
fn wrong_state(w: Writer, m: Mode) -> bool
    ensures { result ≡ any_of (wrong_writer m w) }
{
    (m.sequences <= w.sequence) | ((63 < w.number) | (4095 < w.sent))
}

// Refusal 3.
fn wrong_size(m: Mode, size: usize) -> bool
    ensures { result ≡ any_of (wrong_size m size) }
{
    (size < 96) | ((20480 < size) | ((m.width == 12) & (4096 < size)))
}

// Refusal 15.
fn wrong_packets(sent: u16, lengths: &[u16], count: usize) -> bool
    ensures { result ≡ any_of (wrong_packets sent lengths.now count) }
{
    let sum = wrong_lengths(lengths, count);
    let unfinished = wrong_unfinished(sent, lengths);
    sum | unfinished
}

// Refusal 16.
fn wrong_extra(m: Mode, expansion: usize, psd: usize) -> bool
    requires { expansion ≤ 16 }
    ensures { (result ≡ any_of (wrong_extra m expansion psd)) × (result ≡ false → expansion + psd ≤ 255) }
{
    let limit = usize::from(m.limit);
    if limit < psd {
        return true;
    }
    (limit < expansion + psd) | (!m.psd & (0 < psd))
}

// Refusal 17.
fn no_room(m: Mode, extra: usize, size: usize, lengths: &[u16]) -> bool
    requires { extra ≤ 65536 }
    ensures { result ≡ no_room m extra size lengths.now }
{
    if lengths.len() == 0 {
        return size < packing::overhead(m.width, extra, 0);
    }
    size < packing::overhead(m.width, extra, 1) + 2
}

// The lowest number that applies, 0 for none.
fn refusal(
    w: Writer,
    m: Mode,
    s: Settings,
    psd: &[u8],
    lengths: &[u16],
    bytes: &[u8],
    size: usize,
) -> u32
    ensures { result ≡ first_of (writer_tests s psd.now lengths.now bytes.now size m w) }
{
    if wrong_state(w, m) {
        return 1;
    }
    if wrong_size(m, size) {
        return 3;
    }
    if settings::breaks_rules(s, size) {
        return 10;
    }
    if settings::wrong_values(w.stream, s) {
        return 14;
    }
    if wrong_packets(w.sent, lengths, bytes.len()) {
        return 15;
    }
    let fields = settings::fields_for(s, size as u16);
    let expansion = expansion::expansion_bytes(fields);
    if wrong_extra(m, expansion.length, psd.len()) {
        return 16;
    }
    if no_room(m, expansion.length + psd.len(), size, lengths) {
        return 17;
    }
    0
}

// The control word of a PDU.
fn control_with(w: Writer, s: Settings, part: u16, nop: u8, flag: bool, la: u8) -> ControlWord
    requires { w.number ≤ 63 }
    ensures { result ≡ control_with w s part nop flag la }
{
    let continued = u8::from(0 < w.sent);
    ControlWord {
        mode: w.mode,
        stream: w.stream,
        sequence: w.sequence,
        blend: s.blend,
        gain: s.gain,
        common: s.common,
        latency: s.latency,
        pfirst: 0 < w.sent,
        plast: 0 < part,
        start: (w.number + continued) % 64,
        nop: nop,
        flag: flag,
        la: la,
    }
}

// The next state, when so many packets ended and so many bytes of the next are sent.
fn advance(w: Writer, m: Mode, ended: u8, part: u16) -> Writer
    requires sequence_lt_sequences { (w.sequence < m.sequences) × (m.sequences ≤ 8) × (w.number ≤ 63) × (w.sent ≤ 4095) }
    requires ended_bound { (ended ≤ 64) × (part ≤ 20480) }
    ensures { result ≡ advanced m w ended part }
{
    let before = sent_before(w, ended);
    Writer {
        sequence: (w.sequence + 1) % m.sequences,
        number: (w.number + ended) % 64,
        sent: before + part,
        ..w
    }
}

// Bytes of the unfinished packet that were sent before, if no packet ended.
fn sent_before(w: Writer, ended: u8) -> u16
    ensures { (result ≡ cond (eqb ended 0) w.sent 0) × (result ≤ w.sent) }
{
    if ended == 0 {
        return w.sent;
    }
    0
}

// Writes a PDU that no row of the table turns down.
fn write_listed(
    w: Writer,
    m: Mode,
    s: Settings,
    psd: &[u8],
    lengths: &[u16],
    bytes: &[u8],
    pdu: &mut [u8],
) -> Written
    requires stream_value { listing w.mode w.stream ≡ Listed m }
    requires w_value { first_of (writer_tests s psd.now lengths.now bytes.now (length pdu.old) m w) ≡ 0 }
    ensures value { result ≡ accepted_answer s psd.now lengths.now bytes.now (length pdu.old) m w }
    ensures pdu_after { pdu.new ≡ pdu_of s psd.now lengths.now bytes.now (length pdu.old) m w }
{
    let size = pdu.len();
    let fields = settings::fields_for(s, size as u16);
    let x = expansion::expansion_bytes(fields);
    let p = packing::pack(m.width, x.length + psd.len(), size, w.sent, lengths);
    let first = packing::overhead(m.width, x.length + psd.len(), p.nop);
    let c = control_with(w, s, p.part, p.nop, 0 < x.length, (first - 1) as u8);
    let control = layout::control_bytes(c);
    let expansion = x.bytes;
    let placed = p.lengths;
    contents::put_contents(
        &mut *pdu,
        m.width,
        control,
        &expansion[..x.length],
        psd,
        w.register,
        &placed[..p.nop as usize],
        bytes,
        w.sent as usize,
    );
    header::write_parity(&mut *pdu);
    let next = advance(w, m, p.ended, p.part);
    Written {
        refusal: 0,
        ended: p.ended as u32,
        writer: next,
    }
}

// A refusal: nothing is changed.
fn refused(w: Writer, number: u32) -> Written
    ensures { result ≡ refused_write w number }
{
    Written {
        refusal: number,
        ended: 0,
        writer: w,
    }
}

// Writes a PDU for a writer of a listed mode and stream, or refuses.
fn write_or_refuse(
    w: Writer,
    m: Mode,
    s: Settings,
    psd: &[u8],
    lengths: &[u16],
    bytes: &[u8],
    pdu: &mut [u8],
) -> Written
    requires { listing w.mode w.stream ≡ Listed m }
    ensures value { result ≡ answer_in s psd.now lengths.now bytes.now (length pdu.old) (Listed m) w }
    ensures pdu_after { pdu.new ≡ pdu_in s psd.now lengths.now bytes.now (length pdu.old) (Listed m) w pdu.old }
{
    let n = refusal(w, m, s, psd, lengths, bytes, pdu.len());
    if n == 0 {
        return write_listed(w, m, s, psd, lengths, bytes, pdu);
    }
    refused(w, n)
}

impl Writer {
    // Writes a PDU from settings, PSD, and the packets' lengths and joined bytes, the unfinished packet first and whole; or refuses with
    // 1, 3, 10 or 14 to 17, and nothing is changed.
    pub fn write(
        self,
        settings: Settings,
        psd: &[u8],
        lengths: &[u16],
        bytes: &[u8],
        pdu: &mut [u8],
    ) -> Written
        ensures value { result ≡ write_answer settings psd.now lengths.now bytes.now (length pdu.old) self }
        ensures pdu_after { pdu.new ≡ written_pdu settings psd.now lengths.now bytes.now (length pdu.old) self pdu.old }
    {
        match modes::look_up(self.mode, self.stream) {
            Listing::Listed(m) => write_or_refuse(self, m, settings, psd, lengths, bytes, pdu),
            Listing::Refused(_) => refused(self, 1),
        }
    }
}
