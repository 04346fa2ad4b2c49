// A PDU's contents, written (document 01, "Control word, bytes 8 to 13", "Expansion, PSD, pieces"); on `layout` and `pieces`.
#![tactic(auto)]

ghost use Rattle.std.specs.Prelude.{◌≡◌, List, ◌++◌, ◌+◌, ◌≤◌, length, drop, replicate};
ghost use Rattle.buffer.specs.Buffer.{put_at};
ghost use Rattle.layout.specs.Locators.{locator_size, locator_bytes};
ghost use Rattle.pieces.specs.Pieces.{cut_by, total};
ghost use Rattle.contents.specs.Contents.{contents};

// Clears a PDU and writes its control word, locators, expansion bytes and PSD.
fn put_front(
    pdu: &mut [u8],
    width: u8,
    control: [u8; 6],
    locators: &[u16],
    expansion: &[u8],
    psd: &[u8],
)
    requires psd_in_bounds { 14 + locator_size width (length locators.now) + length expansion.now + length psd.now ≤ length pdu.old }
    requires locators_len_bound { length locators.now ≤ 64 }
    ensures { pdu.new ≡ put_at (replicate (length pdu.old) 0) 8 (control ++ (locator_bytes width locators.now ++ (expansion.now ++ psd.now))) }
{
    let at = 14 + layout::locator_size(width, locators.len() as u8);
    buffer::clear(&mut *pdu);
    buffer::put_bytes(&mut *pdu, 8, &control);
    layout::put_locators(width, &mut *pdu, locators);
    buffer::put_bytes(&mut *pdu, at, expansion);
    buffer::put_bytes(&mut *pdu, at + expansion.len(), psd);
}

// Writes a PDU from its control word, expansion bytes, PSD, and the bytes from the first unsent one on, cut into pieces of these lengths, whose CRCs
// start with this register; the rest, parity too, is zero.
pub fn put_contents(
    pdu: &mut [u8],
    width: u8,
    control: [u8; 6],
    expansion: &[u8],
    psd: &[u8],
    register: u8,
    lengths: &[u16],
    bytes: &[u8],
    sent: usize,
)
    requires lengths_in_bounds { 14 + locator_size width (length lengths.now) + length expansion.now + length psd.now + total lengths.now + length lengths.now ≤ length pdu.old }
    requires lengths_len_bound { (length lengths.now ≤ 64) × (length pdu.old ≤ 65535) × (sent + total lengths.now ≤ length bytes.now) }
    ensures { pdu.new ≡ put_at (replicate (length pdu.old) 0) 8 (control ++ contents register width expansion.now psd.now (cut_by lengths.now (drop sent bytes.now))) }
{
    let n = lengths.len();
    let first = 14 + layout::locator_size(width, n as u8) + expansion.len() + psd.len();
    let locators = pieces::locators(first as u16, lengths);
    put_front(&mut *pdu, width, control, &locators[..n], expansion, psd);
    pieces::put_pieces(&mut *pdu, first, register, lengths, bytes, sent);
}
