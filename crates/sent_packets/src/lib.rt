// The packets of a file that was sent, by their indices: where each stands, its number, whether it is one that was delivered, and a bitmap of those that were;
// on `frames`, `bits` and the toolchain's `check`.
#![tactic(auto)]

pub mod bitmap;

ghost use Rattle.std.specs.Prelude.{◌≡◌, true, ◌<◌};
ghost use Rattle.sent_packets.specs.Sent.{number_at, checksum_from};

// Where a packet stands, counted from the first byte of its record or frame: from a byte to before another, at which the next record begins. Both are 0 where
// no packet begins.
#[derive(Clone, Copy)]
pub struct Span {
    pub from: usize,
    pub to: usize,
}

// No packet.
fn none() -> Span {
    Span { from: 0, to: 0 }
}

// Where the packet of a record stands, by the first bytes of the record.
fn in_record(head: &[u8]) -> Span {
    if head.len() < 2 {
        return none();
    }
    Span {
        from: 2,
        to: 2 + usize::from(head[0]) + 256 * usize::from(head[1]),
    }
}

// Where the packet of an ADTS frame stands, by the first bytes of the frame.
fn in_frame(head: &[u8]) -> Span {
    if head.len() < 7 {
        return none();
    }
    if !frames::is_sync(head[0], head[1]) {
        return none();
    }
    let from = frames::header_length(head[1]);
    let to = frames::frame_length(head[3], head[4], head[5]);
    if to < from {
        return none();
    }
    Span { from: from, to: to }
}

// Where a packet stands, by the first bytes of its record, or of its ADTS frame.
pub fn span_of(head: &[u8], adts: bool) -> Span {
    if adts {
        return in_frame(head);
    }
    in_record(head)
}

// The packet of a span in the bytes from its record's first on; nothing where they do not reach so far.
pub fn packet_of(bytes: &[u8], from: usize, to: usize) -> &[u8] {
    if bytes.len() < to {
        return &bytes[0..0];
    }
    if to < from {
        return &bytes[0..0];
    }
    &bytes[from..to]
}

// The number of the packet with an index.
pub fn number_at(index: u64) -> u64
    ensures { result ≡ number_at index }
{
    index % 64
}

// A checksum of a packet, below 251: packets whose checksums differ are not the same.
pub fn checksum(packet: &[u8]) -> usize
    ensures { (result ≡ checksum_from 0 packet.now) × (result < 251) }
{
    let mut sum: usize = 0;
    for byte in packet {
        sum = (sum * 31 + usize::from(*byte)) % 251;
    }
    sum
}

// Whether a packet that was sent with an index is one that was delivered with a number: the numbers are the same, and the bytes.
pub fn is_delivered(index: u64, sent: &[u8], number: u64, delivered: &[u8]) -> bool
    ensures { (result ≡ true → (number_at index ≡ number) × (sent.now ≡ delivered.now)) × ((number_at index ≡ number) × (sent.now ≡ delivered.now) → result ≡ true) }
{
    if number_at(index) != number {
        return false;
    }
    check::same(sent, delivered)
}
