// What of PSD is text: its runs of printable characters, in ASCII, UTF-8 or ISO 8859-1, as UTF-8; on `words` and `page`.
#![tactic(auto)]

ghost use Rattle.std.specs.Prelude.{◌≤◌, length};

use page::title;
use text::Line;

// The longest text, in bytes.
pub const MOST: usize = 200;

// How many bytes of PSD are looked at.
const LOOKED_AT: usize = 1024;

// The bytes of a data word, which has one to three.
fn put_word(line: &mut Line<LOOKED_AT>, word: u32) {
    let b = words::bytes_of(word);
    match b[3] % 4 {
        1 => line.put(&[b[2]]),
        2 => line.put(&[b[2], b[1]]),
        _ => line.put(&[b[2], b[1], b[0]]),
    }
}

// The bytes of data words, as many as are looked at.
fn unpacked(data: &[u32]) -> Line<LOOKED_AT> {
    let mut bytes = Line::new();
    for &word in data {
        if bytes.len() == LOOKED_AT {
            break;
        }
        put_word(&mut bytes, word);
    }
    bytes
}

// Whether a byte may be one of a printable character: of ASCII, or of another set.
fn is_printable(byte: u8) -> bool {
    (32 <= byte) & (byte != 127)
}

// How many bytes of a run are ASCII.
fn plain(run: &[u8]) -> usize
    ensures { result ≤ length run.now }
{
    run.iter().filter(|byte| byte.is_ascii()).count()
}

// A character of ISO 8859-1 as UTF-8; a blank for one that is not printable.
fn put_letter(line: &mut Line<LOOKED_AT>, byte: u8) {
    match byte {
        0..=127 => line.put(&[byte]),
        128..=159 => line.put(b" "),
        160..=255 => line.put(&[192 + byte / 64, 128 + byte % 64]),
    }
}

// A run as UTF-8: what is not that is taken for ISO 8859-1.
fn put_unicode(line: &mut Line<LOOKED_AT>, run: &[u8]) {
    if title::is_fit(run, LOOKED_AT) {
        line.put(run);
        return;
    }
    for &byte in run {
        put_letter(line, byte);
    }
}

// A run, with a blank before it unless it is the first; nothing for one with less than three characters of ASCII, unless these are all that there is.
fn put_run(line: &mut Line<LOOKED_AT>, run: &[u8], all: usize) {
    let count = plain(run);
    if (count < 3) & (count != all) {
        return;
    }
    if line.len() != 0 {
        line.put(b" ");
    }
    put_unicode(line, run);
}

// The runs of bytes, joined by blanks.
fn runs(bytes: &[u8]) -> Line<LOOKED_AT> {
    let mut line = Line::new();
    for run in bytes.split(|byte| !is_printable(*byte)) {
        put_run(&mut line, run, bytes.len());
    }
    line
}

// Whether a byte of UTF-8 goes on with a character.
fn is_inside(byte: u8) -> bool {
    (128..=191).contains(&byte)
}

// The whole characters of a text, as many as are not too long. A character has at most four bytes.
fn whole(text: &[u8]) -> &[u8] {
    if text.len() <= MOST {
        return text;
    }
    for end in (MOST - 2..=MOST).rev() {
        if !is_inside(text[end]) {
            return &text[..end];
        }
    }
    &text[..MOST - 3]
}

// The text of PSD, of the bytes of its data words, as much of it as is not too long.
pub fn of_words(data: &[u32]) -> Line<MOST> {
    let bytes = unpacked(data);
    let line = runs(bytes.bytes());
    let mut text = Line::new();
    text.put(whole(line.bytes()));
    text
}
