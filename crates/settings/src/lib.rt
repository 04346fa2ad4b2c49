// A writer's settings for a PDU (document 01, "Expansion, PSD, pieces"), on `expansion` and `refusal`.
#![tactic(auto)]

ghost use Rattle.std.specs.Prelude.{◌≡◌, ◌≤◌};
ghost use Rattle.refusal.specs.Refusal.{any_of};
ghost use Rattle.settings.specs.Settings.{program_of, class_one, access_one, broken_rules, wrong_values, fields_for};

use expansion::Fields;

#[repr(C)]
#[derive(Clone, Copy)]
pub struct Settings {
    pub blend: u8,
    // Gain (core) or stream delay (enhanced).
    pub gain: u8,
    pub common: u8,
    pub latency: u8,
    // Expansion fields, each with a flag that says whether it is asked for.
    pub classed: bool,
    pub class: u8,
    pub programmed: bool,
    pub program: u8,
    // Whether the displacement is wanted; its value is the PDU's length minus 1.
    pub displaced: bool,
    pub typed: bool,
    pub access: u8,
    pub ptype: u8,
    pub serviced: bool,
    pub services: u8,
    pub marker: u32,
}

// The program; 0 without ID 1.
fn program_of(s: Settings) -> u8
    ensures { result ≡ program_of s }
{
    if s.programmed {
        return s.program;
    }
    0
}

fn class_one(s: Settings) -> bool
    ensures { result ≡ class_one s }
{
    s.classed & (s.class == 1)
}

fn access_one(s: Settings) -> bool
    ensures { result ≡ access_one s }
{
    s.typed & (s.access == 1)
}

// Whether a rule of the expansion's writing is broken, for a PDU of `size` bytes: refusal 10.
pub fn breaks_rules(s: Settings, size: usize) -> bool
    ensures { result ≡ any_of (broken_rules s size) }
{
    let program = program_of(s);
    let class = class_one(s);
    let access = access_one(s);
    (s.classed & (s.class != 1))
        | ((s.classed & (program == 0))
            | ((s.classed & !access)
                | ((s.serviced & (1 < s.services))
                    | ((s.serviced & ((s.services == 1) & !class))
                        | ((access & !class) | (s.displaced & (16384 < size)))))))
}

// Whether a value is not to be sent or past its width: refusal 14.
pub fn wrong_values(stream: u8, s: Settings) -> bool
    ensures { result ≡ any_of (wrong_values stream s) }
{
    let program = program_of(s);
    (3 <= s.blend)
        | (((s.blend != 0) & (program != 0))
            | (((stream == 0) & ((7 <= s.gain) & (s.gain <= 23)))
                | ((31 < s.gain)
                    | ((63 < s.common)
                        | ((7 < s.latency)
                            | ((s.classed & (15 < s.class))
                                | ((s.programmed & (7 < s.program))
                                    | ((s.typed & (1 < s.access))
                                        | ((s.typed & (255 < s.ptype))
                                            | ((s.serviced & (7 < s.services))
                                                | (s.serviced & (2097151 < s.marker))))))))))))
}

// The fields that are sent in a PDU of `size` bytes.
pub fn fields_for(s: Settings, size: u16) -> Fields
    requires { 1 ≤ size }
    ensures { result ≡ fields_for s size }
{
    let program = program_of(s);
    Fields {
        classed: s.classed,
        class: s.class,
        programmed: s.classed | (s.programmed | (s.displaced | (s.typed | s.serviced))),
        program: program,
        displaced: s.displaced,
        displacement: size - 1,
        typed: s.typed,
        access: s.access,
        ptype: s.ptype,
        serviced: s.serviced,
        services: s.services,
        marker: s.marker,
    }
}
