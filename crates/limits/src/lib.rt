// How much PSD a mode and settings leave room for, and which limit is passed by settings that the writer refuses, in words; on `modes`, `settings` and `text`.
#![tactic(auto)]

use modes::{Listing, Mode};
use settings::Settings;
use text::Line;

// The limits that a refusal may stand for.
#[derive(Clone, Copy, Debug, PartialEq, Eq)]
enum Limit {
    Length,
    Width,
    Table,
    Class,
    ClassProgram,
    ClassAccess,
    Services,
    ServicesClass,
    AccessClass,
    Displacement,
    Blend,
    BlendProgram,
    CoreGain,
    Gain,
    Common,
    Latency,
    Program,
    Access,
    Marker,
    NoPsd,
    Psd,
    Room,
    Other,
}

impl Limit {
    // The words that say it. An at sign stands for the bytes of PSD that there is room for.
    fn words(self) -> &'static [u8] {
        match self {
            Limit::Length => b"--length: not 96 to 20480\n",
            Limit::Width => {
                b"--length: over 4096, the most with locators of 12 bits (--help has the modes)\n"
            }
            Limit::Table => {
                b"--mode, --stream: not in the table: stream 0 has modes 0, 1, 2, 3, 10 and 13, stream 1 has modes 1, 2, 3 and 10\n"
            }
            Limit::Class => b"--class: not 1\n",
            Limit::ClassProgram => b"--class 1: --program is not 1 to 7\n",
            Limit::ClassAccess => b"--class 1: --access is not 1\n",
            Limit::Services => b"--services: not 0 or 1\n",
            Limit::ServicesClass => b"--services 1: --class is not 1\n",
            Limit::AccessClass => b"--access 1: --class is not 1\n",
            Limit::Displacement => b"--displacement: the PDU has over 16384 bytes\n",
            Limit::Blend => b"--blend: not 0 to 2\n",
            Limit::BlendProgram => b"--blend: not 0, and nor is --program\n",
            Limit::CoreGain => b"--gain: not 0 to 6 or 24 to 31 (stream 0)\n",
            Limit::Gain => b"--gain: not 0 to 31\n",
            Limit::Common => b"--common-delay: not 0 to 63\n",
            Limit::Latency => b"--latency: not 0 to 7\n",
            Limit::Program => b"--program: not 0 to 7\n",
            Limit::Access => b"--access: not 0 or 1\n",
            Limit::Marker => b"--marker: not 0 to 2097151\n",
            Limit::NoPsd => b"--psd: stream 1 has no PSD (--help has the modes)\n",
            Limit::Psd => {
                b"--psd: over @ bytes, the most that the mode has beside expansion fields\n"
            }
            Limit::Room => {
                b"--length: no room beside PSD and expansion fields for a piece of one byte\n"
            }
            Limit::Other => b"the writer's state or its packets are wrong\n",
        }
    }
}

// What a writer is asked for: PDUs of a mode, a stream and a length, with settings.
#[derive(Clone, Copy)]
pub struct Request {
    pub mode: u8,
    pub stream: u8,
    pub length: usize,
    pub settings: Settings,
}

// The bytes of PSD that a mode of the table has beside the expansion fields of settings.
fn room_in(mode: Mode, s: Settings) -> usize {
    if !mode.psd {
        return 0;
    }
    let x = expansion::expansion_bytes(settings::fields_for(s, 1));
    usize::from(mode.limit).saturating_sub(x.length)
}

// The bytes of PSD that a mode and stream have beside the expansion fields of settings.
pub fn room_for(mode: u8, stream: u8, s: Settings) -> usize {
    match modes::look_up(mode, stream) {
        Listing::Listed(m) => room_in(m, s),
        Listing::Refused(_) => 0,
    }
}

// Which limit a length is past.
fn of_length(length: usize) -> Limit {
    if (length < 96) | (20480 < length) {
        return Limit::Length;
    }
    Limit::Width
}

// Which rule of the expansion fields is broken.
fn of_fields(s: Settings) -> Limit {
    if s.classed & (s.class != 1) {
        return Limit::Class;
    }
    if s.classed & (!s.programmed | (s.program == 0)) {
        return Limit::ClassProgram;
    }
    if s.classed & (!s.typed | (s.access != 1)) {
        return Limit::ClassAccess;
    }
    if s.serviced & (1 < s.services) {
        return Limit::Services;
    }
    if s.serviced & (s.services == 1) & !s.classed {
        return Limit::ServicesClass;
    }
    if s.typed & (s.access == 1) & !s.classed {
        return Limit::AccessClass;
    }
    Limit::Displacement
}

// Which value of each PDU is past its limit, if one is.
fn of_control(stream: u8, s: Settings) -> Option<Limit> {
    if 2 < s.blend {
        return Some(Limit::Blend);
    }
    if (s.blend != 0) & s.programmed & (s.program != 0) {
        return Some(Limit::BlendProgram);
    }
    if 31 < s.gain {
        return Some(Limit::Gain);
    }
    if (stream == 0) & (6 < s.gain) & (s.gain < 24) {
        return Some(Limit::CoreGain);
    }
    if 63 < s.common {
        return Some(Limit::Common);
    }
    if 7 < s.latency {
        return Some(Limit::Latency);
    }
    None
}

// Which value of the expansion fields is past its limit.
fn of_field_values(s: Settings) -> Limit {
    if s.programmed & (7 < s.program) {
        return Limit::Program;
    }
    if s.typed & (1 < s.access) {
        return Limit::Access;
    }
    Limit::Marker
}

// Which value is past its limit.
fn of_values(stream: u8, s: Settings) -> Limit {
    of_control(stream, s).unwrap_or(of_field_values(s))
}

fn of_psd(stream: u8) -> Limit {
    if stream == 0 {
        return Limit::Psd;
    }
    Limit::NoPsd
}

impl Request {
    // Which limit is passed, where the writer refuses with a number.
    fn limit(self, refusal: u32) -> Limit {
        match refusal {
            3 => of_length(self.length),
            5 => Limit::Table,
            10 => of_fields(self.settings),
            14 => of_values(self.stream, self.settings),
            16 => of_psd(self.stream),
            17 => Limit::Room,
            _ => Limit::Other,
        }
    }

    // The bytes of PSD that there is room for.
    fn room(self) -> usize {
        room_for(self.mode, self.stream, self.settings)
    }
}

// The words for a refusal and the limit that is passed.
pub fn put<const N: usize>(line: &mut Line<N>, refusal: u32, request: Request) {
    line.fill(b": refused with @: ", &[u64::from(refusal)]);
    line.fill(request.limit(refusal).words(), &[request.room() as u64]);
}

// The words for a mode and stream that are not in the table.
pub fn put_unlisted<const N: usize>(line: &mut Line<N>) {
    line.put(b": refused with 5: ");
    line.put(Limit::Table.words());
}
