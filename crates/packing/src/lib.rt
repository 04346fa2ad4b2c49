// Packing of packets into a PDU (document 01, "Writer": the placing rule), on `layout` and `pieces`.
#![tactic(auto)]

ghost use Rattle.std.specs.Prelude.{◌≡◌, List, ◌++◌, ◌+◌, ◌-◌, ◌≤◌, ◌<◌, leb, length, take};
ghost use Rattle.layout.specs.Locators.{locator_size};
ghost use Rattle.packing.specs.Packing.{overhead as overhead_of, most_pieces, fit, part_after, wholes, part as part_of, if_any, piece_lengths};

// The overhead of k pieces, with `extra` bytes of expansion and PSD.
pub fn overhead(width: u8, extra: usize, k: u8) -> usize
    requires { extra ≤ 65536 }
    ensures { (result ≡ overhead_of width extra k) × (result ≤ 66080) }
{
    14 + layout::locator_size(width, k) + extra
}

// Whether k pieces are within the count limit: at most 63, and La, the place before the first of them, at most 255.
fn within_limit(width: u8, extra: usize, k: u8) -> bool
    requires { (extra ≤ 65536) × (0 < k) }
    ensures { result ≡ leb k (most_pieces width extra) }
{
    if 63 < k {
        return false;
    }
    if 256 < overhead(width, extra, k) {
        return false;
    }
    true
}

// Whether k pieces that take `used` bytes with their CRCs fit a PDU of `size` bytes.
fn fits(width: u8, extra: usize, size: usize, k: u8, used: usize) -> bool
    requires { (extra ≤ 65536) × (0 < k) × (used ≤ 100000) }
    ensures { result ≡ fit width extra size k used }
{
    if !within_limit(width, extra, k) {
        return false;
    }
    overhead(width, extra, k) + used <= size
}

// What is left of a packet.
fn remainder(n: u16, sent: u16) -> u16
    ensures { (result ≡ n - sent) × (result ≤ 65535) }
{
    n.saturating_sub(sent)
}

// A part of the next packet, as long as fits; 0 where none does.
fn part_after(width: u8, extra: usize, size: usize, k: u8, used: usize) -> u16
    requires { (extra ≤ 65536) × (k < 255) × (used ≤ 20480) × (size ≤ 20480) }
    ensures { result ≡ part_after width extra size k used }
{
    if !fits(width, extra, size, k + 1, used + 2) {
        return 0;
    }
    (size - (overhead(width, extra, k + 1) + used + 1)) as u16
}

// The pieces that a PDU takes: their lengths, 0 after them; how many there are; how many packets end; and the length of the part of
// the next, 0 for none.
#[derive(Clone, Copy)]
pub struct Packed {
    pub lengths: [u16; 64],
    pub nop: u8,
    pub ended: u8,
    pub part: u16,
}

// The whole ones, and a part after them.
fn with_part(lengths: [u16; 64], k: u8, part: u16) -> Packed
    requires { k < 64 }
    ensures ended_value { (result.ended ≡ k) × (result.part ≡ part) }
    ensures nop_value { (result.nop ≡ k + length (if_any part)) × (take result.nop result.lengths ≡ take k lengths ++ if_any part) }
{
    if part == 0 {
        return Packed {
            lengths: lengths,
            nop: k,
            ended: k,
            part: 0,
        };
    }
    let mut out = lengths;
    out[usize::from(k)] = part;
    Packed {
        lengths: out,
        nop: k + 1,
        ended: k,
        part: part,
    }
}

// Packs packets of these lengths, of the first of which `sent` bytes are sent already.
pub fn pack(width: u8, extra: usize, size: usize, sent: u16, lengths: &[u16]) -> Packed
    requires { (extra ≤ 65536) × (size ≤ 20480) }
    ensures ended_value { result.ended ≡ length (wholes width extra size sent lengths.now) }
    ensures part_value { result.part ≡ part_of width extra size sent lengths.now }
    ensures nop_value { result.nop ≡ length (piece_lengths width extra size sent lengths.now) }
    ensures lengths_value { take result.nop result.lengths ≡ piece_lengths width extra size sent lengths.now }
{
    let mut out: [u16; 64] = [0; 64];
    let mut used: usize = 0;
    let mut gone = sent;
    for (i, length) in lengths.iter().enumerate() {
        let k = i as u8;
        let n = remainder(*length, gone);
        if !fits(width, extra, size, k + 1, used + usize::from(n) + 1) {
            let part = part_after(width, extra, size, k, used);
            return with_part(out, k, part);
        }
        out[i] = n;
        used += usize::from(n) + 1;
        gone = 0;
    }
    with_part(out, lengths.len() as u8, 0)
}
