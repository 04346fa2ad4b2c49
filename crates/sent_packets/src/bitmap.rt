// A bitmap of the packets of a file, a bit for each by its index: 64 to a word, the first in the lowest bit. Where there is no room, bits are 0.
ghost use Rattle.std.specs.Prelude.{◌≡◌, ℕ, ◌/◌, ◌<◌, length};
ghost use Rattle.sent_packets.specs.Bitmap.{bit_at, zeros_below};

// The bit of an index.
pub fn at(words: &[u64], index: u64) -> u64
    ensures { result ≡ bit_at words.now index }
{
    let k = (index / 64) as usize;
    if words.len() <= k {
        return 0;
    }
    (words[k] >> (index % 64)) % 2
}

// Sets the bit of an index, and leaves the others.
pub fn set(words: &mut [u64], index: u64)
    ensures this { index / 64 < length words.old → bit_at words.new index ≡ 1 }
    ensures others { (k : ℕ) → (k ≡ index → ⊥) → bit_at words.new k ≡ bit_at words.old k }
{
    let k = (index / 64) as usize;
    if words.len() <= k {
        return;
    }
    words[k] = words[k] | (1 << (index % 64));
}

// How many of the first bits, so many, are 0.
pub fn zeros(words: &[u64], many: u64) -> u64
    ensures { result ≡ zeros_below words.now many }
{
    let mut count: u64 = 0;
    for index in 0..many {
        count += 1 - at(words, index);
    }
    count
}
