// Words of 32 bits in bytes, four for each, low byte first, and read again (document 02, Ask 13); on `packet_log` and the toolchain's `io`.
#![tactic(auto)]

ghost use Rattle.std.specs.Prelude.{◌≡◌, ◌+◌, ◌*◌, ◌/◌, ◌≤◌, ◌<◌, length, get_or};
ghost use Rattle.io.specs.Counts.{IsPrefixLen};
ghost use Rattle.buffer.specs.Buffer.{put_at};
ghost use Rattle.word_bytes.specs.WordBytes.{word_bytes, word_of, bytes_of, words_of, bytes_for, words_for};

// Writes the bytes of a word from a place on.
fn put_word(out: &mut [u8], at: usize, word: u32)
    requires { at + 4 ≤ length out.old }
    ensures { out.new ≡ put_at out.old at (word_bytes word) }
{
    out[at] = (word % 0x100) as u8;
    out[at + 1] = (word / 0x100 % 0x100) as u8;
    out[at + 2] = (word / 0x10000 % 0x100) as u8;
    out[at + 3] = (word / 0x1000000) as u8;
}

// Writes the bytes of words to the buffer's start.
fn put_words(words: &[u32], out: &mut [u8])
    requires { 4 * length words.now ≤ length out.old }
    ensures { out.new ≡ put_at out.old 0 (bytes_of words.now) }
{
    for (i, word) in words.iter().enumerate() {
        put_word(&mut *out, 4 * i, *word);
    }
}

// Writes the bytes of words to the buffer's start, if it has room for all. Answers how many.
pub fn put(words: &[u32], out: &mut [u8]) -> usize
    ensures prefix_len { IsPrefixLen result out.new }
    ensures value { result ≡ length (bytes_for words.now (length out.old)) }
    ensures out_after { out.new ≡ put_at out.old 0 (bytes_for words.now (length out.old)) }
{
    if out.len() / 4 < words.len() {
        return 0;
    }
    put_words(words, &mut *out);
    4 * words.len()
}

// The word whose bytes stand from a place on.
fn word_at(bytes: &[u8], at: usize) -> u32
    requires { at + 4 ≤ length bytes.now }
    ensures { result ≡ word_of (get_or bytes.now at 0) (get_or bytes.now (at + 1) 0) (get_or bytes.now (at + 2) 0) (get_or bytes.now (at + 3) 0) }
{
    let high = u32::from(bytes[at + 2]) + 0x100 * u32::from(bytes[at + 3]);
    u32::from(bytes[at]) + 0x100 * (u32::from(bytes[at + 1]) + 0x100 * high)
}

// Writes the words of bytes to the buffer's start.
fn get_words(bytes: &[u8], words: &mut [u32])
    requires { length bytes.now / 4 ≤ length words.old }
    ensures { words.new ≡ put_at words.old 0 (words_of bytes.now) }
{
    for i in 0..bytes.len() / 4 {
        words[i] = word_at(bytes, 4 * i);
    }
}

// Writes the words of bytes to the buffer's start, if they are whole words and it has room for all. Answers how many.
pub fn get(bytes: &[u8], words: &mut [u32]) -> usize
    ensures prefix_len { IsPrefixLen result words.new }
    ensures value { result ≡ length (words_for bytes.now (length words.old)) }
    ensures words_after { words.new ≡ put_at words.old 0 (words_for bytes.now (length words.old)) }
{
    if bytes.len() % 4 != 0 {
        return 0;
    }
    if words.len() < bytes.len() / 4 {
        return 0;
    }
    get_words(bytes, &mut *words);
    bytes.len() / 4
}
