// The subcommands.
use crate::Opt;

// The subcommands, and the program by itself.
#[derive(Clone, Copy, Debug, PartialEq, Eq)]
pub enum Command {
    Barzhilup,
    Generate,
    Channel,
    Log,
    Coverage,
    Latency,
    Join,
}

const GENERATE: [Opt; 26] = [
    Opt::In,
    Opt::Out,
    Opt::Mode,
    Opt::Stream,
    Opt::CrcStart,
    Opt::Length,
    Opt::Psd,
    Opt::PsdStream,
    Opt::PsdBytes,
    Opt::PsdRepeat,
    Opt::Settings,
    Opt::Adts,
    Opt::Resync,
    Opt::Blend,
    Opt::Gain,
    Opt::CommonDelay,
    Opt::LatencySetting,
    Opt::Class,
    Opt::Program,
    Opt::Displacement,
    Opt::Access,
    Opt::Type,
    Opt::Services,
    Opt::Marker,
    Opt::Force,
    Opt::Help,
];

const CHANNEL: [Opt; 14] = [
    Opt::In,
    Opt::Out,
    Opt::MarksOut,
    Opt::Force,
    Opt::Seed,
    Opt::Loss,
    Opt::Burst,
    Opt::Damage,
    Opt::Bytes,
    Opt::Bursts,
    Opt::Twice,
    Opt::Swap,
    Opt::Cut,
    Opt::Help,
];

const LOG: [Opt; 23] = [
    Opt::Summary,
    Opt::In,
    Opt::Out,
    Opt::Second,
    Opt::Marks,
    Opt::Save,
    Opt::Resume,
    Opt::Skip,
    Opt::Resync,
    Opt::Force,
    Opt::Mode,
    Opt::Stream,
    Opt::CrcStart,
    Opt::Entitled,
    Opt::Format,
    Opt::Batch,
    Opt::PacketsOut,
    Opt::AdtsOut,
    Opt::PsdOut,
    Opt::Sent,
    Opt::SentAdts,
    Opt::Compared,
    Opt::Help,
];

const COVERAGE: [Opt; 16] = [
    Opt::In,
    Opt::Out,
    Opt::Force,
    Opt::Title,
    Opt::Columns,
    Opt::Format,
    Opt::Rows,
    Opt::Page,
    Opt::Mode,
    Opt::Stream,
    Opt::PduMs,
    Opt::Station,
    Opt::Date,
    Opt::Source,
    Opt::Note,
    Opt::Help,
];

const LATENCY: [Opt; 26] = [
    Opt::In,
    Opt::Counts,
    Opt::Packets,
    Opt::Out,
    Opt::Svg,
    Opt::Draw,
    Opt::Force,
    Opt::Help,
    Opt::Mode,
    Opt::Stream,
    Opt::Adts,
    Opt::Resync,
    Opt::Length,
    Opt::Psd,
    Opt::CrcStart,
    Opt::Blend,
    Opt::Gain,
    Opt::CommonDelay,
    Opt::LatencySetting,
    Opt::Class,
    Opt::Program,
    Opt::Displacement,
    Opt::Access,
    Opt::Type,
    Opt::Services,
    Opt::Marker,
];

const JOIN: [Opt; 8] = [
    Opt::In,
    Opt::Out,
    Opt::Enhanced,
    Opt::Force,
    Opt::Format,
    Opt::CorePdus,
    Opt::EnhancedPdus,
    Opt::Help,
];

impl Command {
    // The words of a subcommand, as messages have them.
    pub fn words(self) -> &'static [u8] {
        match self {
            Command::Barzhilup => b"barzhilup",
            Command::Generate => b"barzhilup generate",
            Command::Channel => b"barzhilup channel",
            Command::Log => b"barzhilup log",
            Command::Coverage => b"barzhilup coverage",
            Command::Latency => b"barzhilup latency",
            Command::Join => b"barzhilup join",
        }
    }

    // The options that a subcommand knows; the program itself knows none.
    pub fn known(self) -> &'static [Opt] {
        match self {
            Command::Barzhilup => &[],
            Command::Generate => &GENERATE,
            Command::Channel => &CHANNEL,
            Command::Log => &LOG,
            Command::Coverage => &COVERAGE,
            Command::Latency => &LATENCY,
            Command::Join => &JOIN,
        }
    }

    // The option of a name; nothing where the subcommand knows none of that name.
    pub fn option(self, name: &[u8]) -> Option<Opt> {
        for &option in self.known() {
            if check::same(option.name(), name) {
                return Some(option);
            }
        }
        None
    }
}
