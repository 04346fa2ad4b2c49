// The header of an ADTS frame, by its bytes; it stands on nothing.
#![tactic(auto)]

ghost use Rattle.std.specs.Prelude.{◌≡◌, ◌<◌};
ghost use Rattle.frames.specs.Adts.{is_sync, frame_length, header_length};

// The syncword, twelve bits set.
pub fn is_sync(first: u8, second: u8) -> bool
    ensures { result ≡ is_sync first second }
{
    (first == 255) & (240 <= second)
}

// The frame's length, which counts the header: thirteen bits.
pub fn frame_length(third: u8, fourth: u8, fifth: u8) -> usize
    ensures { result ≡ frame_length third fourth fifth }
{
    usize::from(third % 4) * 2048 + usize::from(fourth) * 8 + usize::from(fifth) / 32
}

// The header's length, by the bit that says that there is no check.
pub fn header_length(second: u8) -> usize
    ensures { result ≡ header_length second }
{
    if second % 2 == 1 {
        return 7;
    }
    9
}
