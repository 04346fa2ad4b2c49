// The options.
use text::entry;

// The options of all subcommands, by what they stand for.
#[derive(Clone, Copy, Debug, PartialEq, Eq)]
pub enum Opt {
    // Files that are read, whose names may not be empty.
    In,
    Second,
    Psd,
    Marks,
    Enhanced,
    // Files that are written; the first three, and log's --psd, may not be empty.
    Out,
    Svg,
    MarksOut,
    Save,
    PacketsOut,
    AdtsOut,
    PsdOut,
    Compared,
    // More files that are read.
    Sent,
    Resume,
    Summary,
    PsdStream,
    Settings,
    // What is sent, and how it is received.
    Length,
    CrcStart,
    PsdBytes,
    Entitled,
    Batch,
    Counts,
    Draw,
    CorePdus,
    EnhancedPdus,
    // The settings, in the order of `named_settings::NAMES`.
    Blend,
    Gain,
    CommonDelay,
    LatencySetting,
    Class,
    Program,
    Displacement,
    Access,
    Type,
    Services,
    Marker,
    // How bad a channel is.
    Seed,
    Loss,
    Burst,
    Damage,
    Bytes,
    Bursts,
    Twice,
    Swap,
    Cut,
    // What a picture shows; the lines of its head follow one another.
    Station,
    Date,
    Source,
    Mode,
    Stream,
    Title,
    Note,
    Format,
    Columns,
    Rows,
    Page,
    PduMs,
    // Flags.
    Force,
    Help,
    Adts,
    Resync,
    Packets,
    PsdRepeat,
    Skip,
    SentAdts,
}

// The names of the options, in their order.
const NAMES: [u8; 462] =
    *b"in\0second\0psd\0marks\0enhanced\0out\0svg\0marks\0save\0packets\0adts\0psd\0compared\0sent\0resume\0summary\0psd-stream\0settings\0length\0crc-start\0psd-bytes\0entitled\0batch\0counts\0draw\0core-pdus\0enhanced-pdus\0blend\0gain\0common-delay\0latency\0class\0program\0displacement\0access\0type\0services\0marker\0seed\0loss\0burst\0damage\0bytes\0bursts\0twice\0swap\0cut\0station\0date\0source\0mode\0stream\0title\0note\0format\0columns\0rows\0page\0pdu-ms\0force\0help\0adts\0resync\0packets\0psd-repeat\0skip\0sent-adts\0";

// The options of the settings, in the order of `named_settings::NAMES`.
pub const SETTINGS: [Opt; 11] = [
    Opt::Blend,
    Opt::Gain,
    Opt::CommonDelay,
    Opt::LatencySetting,
    Opt::Class,
    Opt::Program,
    Opt::Displacement,
    Opt::Access,
    Opt::Type,
    Opt::Services,
    Opt::Marker,
];

impl Opt {
    // The option's name, without its dashes.
    pub fn name(self) -> &'static [u8] {
        entry(&NAMES, self as u32)
    }

    // Whether a value follows the option; it is a flag otherwise.
    pub fn is_valued(self) -> bool {
        !matches!(
            self,
            Opt::Displacement
                | Opt::Force
                | Opt::Help
                | Opt::Adts
                | Opt::Resync
                | Opt::Packets
                | Opt::PsdRepeat
                | Opt::Skip
                | Opt::SentAdts
        )
    }

    // Whether the option names a file that is written.
    pub fn is_written(self) -> bool {
        matches!(
            self,
            Opt::Out
                | Opt::Svg
                | Opt::MarksOut
                | Opt::Save
                | Opt::PacketsOut
                | Opt::AdtsOut
                | Opt::PsdOut
                | Opt::Compared
        )
    }

    // Whether the option's value may not be empty: a file has a name.
    pub fn is_name_needed(self) -> bool {
        matches!(
            self,
            Opt::In
                | Opt::Second
                | Opt::Psd
                | Opt::Marks
                | Opt::Enhanced
                | Opt::Out
                | Opt::Svg
                | Opt::MarksOut
                | Opt::PsdOut
        )
    }
}
