// Pieces of packets in a PDU (document 01, "Expansion, PSD, pieces"), on `crc` and `buffer`.
#![tactic(auto)]

ghost use Rattle.std.specs.Prelude.{◌≡◌, ◌+◌, ◌-◌, ◌≤◌, length, take, drop};
ghost use Rattle.crc.specs.Crc.{crc_from};
ghost use Rattle.buffer.specs.Buffer.{put_at};
ghost use Rattle.pieces.specs.Pieces.{cut_by, with_crc, piece_bytes, locators_from, total};

// The CRC of the bytes from a place on up to another, by the register that it starts with.
fn crc_of(register: u8, bytes: &[u8], from: usize, to: usize) -> u8
    requires { (from ≤ to) × (to ≤ length bytes.now) }
    ensures { result ≡ crc_from register (take (to - from) (drop from bytes.now)) }
{
    crc::crc8_from(register, &bytes[from..to])
}

// Writes a piece, the bytes from a place on up to another, and its CRC byte into a PDU.
fn put_piece(pdu: &mut [u8], at: usize, register: u8, bytes: &[u8], from: usize, to: usize)
    requires { (from ≤ to) × (to ≤ length bytes.now) × (at + (to - from) + 1 ≤ length pdu.old) }
    ensures { pdu.new ≡ put_at pdu.old at (with_crc register (take (to - from) (drop from bytes.now))) }
{
    buffer::put_bytes(&mut *pdu, at, &bytes[from..to]);
    let crc = crc_of(register, bytes, from, to);
    pdu[at + (to - from)] = crc;
}

// Cuts the bytes from the first unsent one on into pieces of these lengths and writes them, each with its CRC byte, from a place on.
pub fn put_pieces(
    pdu: &mut [u8],
    at: usize,
    register: u8,
    lengths: &[u16],
    bytes: &[u8],
    sent: usize,
)
    requires lengths_in_bounds { at + total lengths.now + length lengths.now ≤ length pdu.old }
    requires lengths_in_bounds_2 { sent + total lengths.now ≤ length bytes.now }
    ensures { pdu.new ≡ put_at pdu.old at (piece_bytes register (cut_by lengths.now (drop sent bytes.now))) }
{
    let mut place = at;
    let mut from = sent;
    for length in lengths {
        let n = usize::from(*length);
        put_piece(&mut *pdu, place, register, bytes, from, from + n);
        place += n + 1;
        from += n;
    }
}

// The locators of pieces of these lengths, the first of which starts at a place, at the front of an array.
pub fn locators(at: u16, lengths: &[u16]) -> [u16; 64]
    requires lengths_len_bound { length lengths.now ≤ 64 }
    requires lengths_bound { at + total lengths.now + length lengths.now ≤ 65535 }
    ensures { (length result ≡ 64) × (take (length lengths.now) result ≡ locators_from at lengths.now) }
{
    let mut out: [u16; 64] = [0; 64];
    let mut place = at;
    for (k, length) in lengths.iter().enumerate() {
        place += *length;
        out[k] = place;
        place += 1;
    }
    out
}
