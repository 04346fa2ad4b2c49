// Lines of text made in a lent buffer or in one of their own, so that a block of them is written at once, and numbers read from text; on `buffer` and the
// toolchain's `io`.
#![tactic(auto)]

mod line;

ghost use Rattle.std.specs.Prelude.{◌≡◌, ◌≢◌, ◌+◌, ◌<◌, ◌≤◌, ℕ, min, length, slice_index};
ghost use Rattle.io.specs.Counts.{IsPrefixLen};
ghost use Rattle.text.specs.Text.{placed, with_digit, number_of};

pub use line::Line;

// The bytes from a place on, as many as there is room for; a place past the end counts as the end. Answers the place after them.
pub fn put(out: &mut [u8], at: usize, bytes: &[u8]) -> usize
    ensures prefix_len { IsPrefixLen result out.new }
    ensures value { result ≡ min (min at (length out.old) + length bytes.now) (length out.old) }
    ensures out_after { out.new ≡ placed out.old at bytes.now }
{
    let start = at.min(out.len());
    let count = bytes.len().min(out.len() - start);
    buffer::put_bytes(out, start, &bytes[..count]);
    start + count
}

// A number's decimal digits, as `put` puts bytes.
pub fn put_decimal(out: &mut [u8], at: usize, number: u64) -> usize
    ensures { IsPrefixLen result out.new }
{
    let mut digits = [0u8; 20];
    let count = io::decimal(number, &mut digits);
    put(out, at, &digits[..count])
}

// A template with its numbers, as `put` puts bytes: the first at sign stands for the first number, and so on; one for which there is no number stands for itself.
pub fn fill(out: &mut [u8], at: usize, template: &[u8], numbers: &[u64]) -> usize
    ensures { IsPrefixLen result out.new }
{
    let mut n = put(out, at, b"");
    let mut used: usize = 0;
    for &byte in template {
        if byte == b'@' && used < numbers.len() {
            n = put_decimal(out, n, numbers[used]);
            used += 1;
        } else {
            n = put(out, n, &[byte]);
        }
    }
    n
}

// The place after a text of a table, from a place in it on: that of its zero byte, or the table's end.
fn entry_end(table: &[u8], from: usize) -> usize
    requires { from ≤ length table.now }
    ensures { (from ≤ result) × (result ≤ length table.now) }
{
    find(table, from, table.len(), 0)
}

// The text of a number, counted from 0, in a table of texts with a zero byte after each; nothing where there is none.
pub fn entry(table: &[u8], number: u32) -> &[u8] {
    let mut from: usize = 0;
    for _ in 0..number {
        let end = entry_end(table, from);
        if end == table.len() {
            return &table[0..0];
        }
        from = end + 1;
    }
    let last = entry_end(table, from);
    &table[from..last]
}

// The value with one more decimal digit; nothing where the byte is none.
fn with_digit(value: u64, byte: u8) -> Option<u64>
    requires { value < 4294967296 }
    ensures { result ≡ with_digit value byte }
{
    if byte < 48 {
        return None;
    }
    if 57 < byte {
        return None;
    }
    Some(value * 10 + u64::from(byte - 48))
}

// A decimal number: at least one digit, nothing but digits, at most 4,294,967,295.
pub fn parse(text: &[u8]) -> Option<u32>
    ensures { result ≡ number_of text.now }
{
    if text.len() == 0 {
        return None;
    }
    let mut value: u64 = 0;
    for &byte in text {
        let next = with_digit(value, byte)?;
        if 4294967295 < next {
            return None;
        }
        value = next;
    }
    Some(value as u32)
}

// The first place of a byte between two places, or the second one where it is not there.
pub fn find(bytes: &[u8], from: usize, to: usize, byte: u8) -> usize
    requires low { from ≤ to }
    requires high { to ≤ length bytes.now }
    ensures low { from ≤ result }
    ensures high { result ≤ to }
    ensures before { (k : ℕ) → from ≤ k → k < result → slice_index bytes.now k ≢ byte }
    ensures found { result < to → slice_index bytes.now result ≡ byte }
{
    for i in from..to {
        if bytes[i] == byte {
            return i;
        }
    }
    to
}
