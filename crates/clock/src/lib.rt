// The time that PDUs take on the air, and times as text; on `modes` and `text`.
//
// An L1 frame takes 65,536 / 44,100 s (Station Information Service Transport, 5.4.1), and has 8 PDUs of a stream whose sequence is 0 to 7, and one of a stream whose
// sequence is 0 to 1 (Audio Transport, table 5-2).
#![tactic(auto)]

ghost use Rattle.std.specs.Prelude.{◌<◌};

use modes::Listing;
use text::Line;

// How long a PDU takes: `parts` / `whole` ms.
#[derive(Clone, Copy, Debug)]
pub struct Clock {
    parts: u32,
    whole: u32,
    ghost has_whole: { 0 < whole },
}

impl Clock {
    // That of a PDU of so many ms.
    pub fn of_ms(ms: u32) -> Clock {
        Clock {
            parts: ms,
            whole: 1,
        }
    }

    // That of a mode and stream; nothing where they are not in the table.
    pub fn of_mode(mode: u8, stream: u8) -> Option<Clock> {
        match modes::look_up(mode, stream) {
            Listing::Listed(mode) => Some(Clock::of_sequences(mode.sequences)),
            Listing::Refused(_) => None,
        }
    }

    // That of a stream with so many sequences: an L1 frame takes 655,360 / 441 ms.
    fn of_sequences(sequences: u8) -> Clock {
        let parts = if sequences == 8 { 81920 } else { 655360 };
        Clock { parts, whole: 441 }
    }

    // How long so many PDUs take, in ms.
    pub fn ms(self, pdus: u32) -> u64 {
        times(pdus, self.parts) / u64::from(self.whole)
    }
}

// A product.
pub fn times(a: u32, b: u32) -> u64 {
    u64::from(a) * u64::from(b)
}

// Puts a time as hours, minutes and seconds.
pub fn put<const N: usize>(line: &mut Line<N>, seconds: u64) {
    let minutes = seconds / 60;
    let m = minutes % 60;
    let s = seconds % 60;
    line.fill(b"@:@@:@@", &[minutes / 60, m / 10, m % 10, s / 10, s % 10]);
}

// Puts a time in seconds with one decimal, by a template that has two at signs for it.
pub fn put_tenths<const N: usize>(line: &mut Line<N>, template: &[u8], ms: u64) {
    line.fill(template, &[ms / 1000, ms / 100 % 10]);
}
