// Texts that a user gives, as the picture's title: any text in UTF-8 that is not too long.
ghost use Rattle.std.specs.Prelude.{◌≤◌, length};

use text::Line;

// The longest title, and the longest note, in bytes.
pub const MOST: usize = 200;

pub const MOST_OF_NOTE: usize = 4000;

// Whether a text is in UTF-8 and has at most so many bytes.
pub fn is_fit(text: &[u8], most: usize) -> bool {
    text.len() <= most && str::from_utf8(text).is_ok()
}

// How many characters a text has: each has one byte that begins it.
fn characters(text: &[u8]) -> usize
    ensures { result ≤ length text.now }
{
    text.iter()
        .filter(|byte| !matches!(byte, 128..=191))
        .count()
}

// The size of a title's letters, at most 20: one takes up to seven tenths of it, and all are to fit the width. Fewer than 30 letters count as 30, and more
// than 200 as 200.
pub fn size(text: &[u8], width: u64) -> u64
    ensures { result ≤ 20 }
{
    if 10000 < width {
        return 20;
    }
    let counted = characters(text).clamp(30, 200) as u64;
    (width * 10 / (counted * 7)).min(20)
}

// What stands for a byte in SVG and HTML: what would begin or end a tag, an entity or a value is written as an entity, and a control character as a space;
// nothing where the byte stands for itself.
fn stand_in(byte: u8) -> Option<&'static [u8]> {
    match byte {
        0..=31 => Some(b" "),
        b'&' => Some(b"&amp;"),
        b'<' => Some(b"&lt;"),
        b'>' => Some(b"&gt;"),
        b'"' => Some(b"&quot;"),
        b'\'' => Some(b"&#39;"),
        _ => None,
    }
}

// Puts a text, as it stands in SVG and HTML.
pub fn put<const N: usize>(line: &mut Line<N>, text: &[u8]) {
    for &byte in text {
        match stand_in(byte) {
            Some(words) => line.put(words),
            None => line.put(&[byte]),
        }
    }
}
