// Copies into lent buffers; they stand on nothing.
#![tactic(auto)]

ghost use Rattle.std.specs.Prelude.{◌≡◌, ◌+◌, ◌≤◌, length, replicate};
ghost use Rattle.buffer.specs.Buffer.{put_at};

// All bytes of src into dst, from a place on.
pub fn put_bytes(dst: &mut [u8], at: usize, src: &[u8])
    requires { at + length src.now ≤ length dst.old }
    ensures { dst.new ≡ put_at dst.old at src.now }
{
    for (j, byte) in src.iter().enumerate() {
        dst[at + j] = *byte;
    }
}

// Every byte 0.
pub fn clear(dst: &mut [u8])
    ensures { dst.new ≡ replicate (length dst.old) 0 }
{
    dst.fill(0);
}
