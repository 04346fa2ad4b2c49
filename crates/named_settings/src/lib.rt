// A writer's settings by the names of their options: the value of each name that is given; on `settings` and the toolchain's `check`.
#![tactic(auto)]

use settings::Settings;

// The names.
#[derive(Clone, Copy, Debug, PartialEq, Eq)]
pub enum Name {
    Blend,
    Gain,
    CommonDelay,
    Latency,
    Class,
    Program,
    Displacement,
    Access,
    Type,
    Services,
    Marker,
}

// All of them, in the order of `options::SETTINGS`.
pub const NAMES: [Name; 11] = [
    Name::Blend,
    Name::Gain,
    Name::CommonDelay,
    Name::Latency,
    Name::Class,
    Name::Program,
    Name::Displacement,
    Name::Access,
    Name::Type,
    Name::Services,
    Name::Marker,
];

impl Name {
    fn words(self) -> &'static [u8] {
        match self {
            Name::Blend => b"blend",
            Name::Gain => b"gain",
            Name::CommonDelay => b"common-delay",
            Name::Latency => b"latency",
            Name::Class => b"class",
            Name::Program => b"program",
            Name::Displacement => b"displacement",
            Name::Access => b"access",
            Name::Type => b"type",
            Name::Services => b"services",
            Name::Marker => b"marker",
        }
    }

    // The name that a text is; nothing where it is none.
    pub fn find(text: &[u8]) -> Option<Name> {
        for name in NAMES {
            if check::same(name.words(), text) {
                return Some(name);
            }
        }
        None
    }

    // The greatest number that is read for a name: whether it may be sent is for the writer to say.
    pub fn most(self) -> u32 {
        match self {
            Name::Marker => 4294967295,
            _ => 255,
        }
    }

    // Whether the name takes no value.
    pub fn is_flag(self) -> bool {
        self == Name::Displacement
    }

    // Whether the name is sent in each PDU; the others are of expansion fields.
    pub fn is_always_sent(self) -> bool {
        matches!(
            self,
            Name::Blend | Name::Gain | Name::CommonDelay | Name::Latency
        )
    }

    // The other name of the name's field, where it has two, or the name itself.
    fn partner(self) -> Name {
        match self {
            Name::Access => Name::Type,
            Name::Type => Name::Access,
            Name::Services => Name::Marker,
            Name::Marker => Name::Services,
            _ => self,
        }
    }
}

// The value of each name that is given.
#[derive(Clone, Copy, Debug, PartialEq, Eq)]
pub struct Given {
    blend: Option<u32>,
    gain: Option<u32>,
    common: Option<u32>,
    latency: Option<u32>,
    class: Option<u32>,
    program: Option<u32>,
    displacement: Option<u32>,
    access: Option<u32>,
    ptype: Option<u32>,
    services: Option<u32>,
    marker: Option<u32>,
}

impl Given {
    // Nothing is given.
    pub fn none() -> Given {
        Given {
            blend: None,
            gain: None,
            common: None,
            latency: None,
            class: None,
            program: None,
            displacement: None,
            access: None,
            ptype: None,
            services: None,
            marker: None,
        }
    }

    // What is given of a name.
    fn value(&mut self, name: Name) -> &mut Option<u32> {
        match name {
            Name::Blend => &mut self.blend,
            Name::Gain => &mut self.gain,
            Name::CommonDelay => &mut self.common,
            Name::Latency => &mut self.latency,
            Name::Class => &mut self.class,
            Name::Program => &mut self.program,
            Name::Displacement => &mut self.displacement,
            Name::Access => &mut self.access,
            Name::Type => &mut self.ptype,
            Name::Services => &mut self.services,
            Name::Marker => &mut self.marker,
        }
    }

    // The same with a value of a name.
    pub fn with(self, name: Name, value: u32) -> Given {
        let mut next = self;
        *next.value(name) = Some(value);
        next
    }

    // The same without the field of a name.
    pub fn without(self, name: Name) -> Given {
        let mut next = self;
        *next.value(name) = None;
        *next.value(name.partner()) = None;
        next
    }

    // The settings: an expansion field is asked for where a name of it is given.
    pub fn settings(self) -> Settings {
        Settings {
            blend: low(self.blend),
            gain: low(self.gain),
            common: low(self.common),
            latency: low(self.latency),
            classed: self.class.is_some(),
            class: low(self.class),
            programmed: self.program.is_some(),
            program: low(self.program),
            displaced: self.displacement.is_some(),
            typed: self.access.is_some() | self.ptype.is_some(),
            access: low(self.access),
            ptype: low(self.ptype),
            serviced: self.services.is_some() | self.marker.is_some(),
            services: low(self.services),
            marker: self.marker.unwrap_or(0),
        }
    }
}

// A value of one byte, 0 where it is not given.
fn low(value: Option<u32>) -> u8 {
    (value.unwrap_or(0) % 256) as u8
}
