ghost use Rattle.std.specs.Prelude.{◌≡◌, ◌≤◌, length};
ghost use Rattle.wdf_report.specs.KindNames.{netlist_name, usage_name, wave_name};

use crate::UsageKind;
use wdf_netlist::NetKind;
use wdf_wav::WavKind;

// The name of a kind of fault in the words.
pub(crate) fn usage_name(kind: UsageKind) -> &'static [u8]
    ensures name { result.now ≡ usage_name kind }
    ensures short { length result.now ≤ 15 }
{
    match kind {
        UsageKind::NoCommand => b"NoCommand",
        UsageKind::UnknownCommand => b"UnknownCommand",
        UsageKind::NoEquals => b"NoEquals",
        UsageKind::UnknownOperand => b"UnknownOperand",
        UsageKind::DoubleOperand => b"DoubleOperand",
        UsageKind::EmptyValue => b"EmptyValue",
        UsageKind::BadNumber => b"BadNumber",
        UsageKind::OutOfRange => b"OutOfRange",
        UsageKind::MissingOperand => b"MissingOperand",
    }
}

// The name of a kind of fault in a netlist's text.
pub(crate) fn netlist_name(kind: NetKind) -> &'static [u8]
    ensures name { result.now ≡ netlist_name kind }
    ensures short { length result.now ≤ 15 }
{
    match kind {
        NetKind::Syntax => b"Syntax",
        NetKind::DoubleRate => b"DoubleRate",
        NetKind::DoubleSource => b"DoubleSource",
        NetKind::DoubleLoad => b"DoubleLoad",
        NetKind::DoubleRoot => b"DoubleRoot",
        NetKind::InputFirst => b"InputFirst",
        NetKind::RateRange => b"RateRange",
        NetKind::BadName => b"BadName",
        NetKind::DoubleName => b"DoubleName",
        NetKind::Shorted => b"Shorted",
        NetKind::BadValue => b"BadValue",
        NetKind::UnknownUnit => b"UnknownUnit",
        NetKind::ZeroValue => b"ZeroValue",
        NetKind::TooManyElements => b"TooManyElements",
        NetKind::TooManyStates => b"TooManyStates",
        NetKind::TooManyInputs => b"TooManyInputs",
        NetKind::NoRate => b"NoRate",
        NetKind::NoSource => b"NoSource",
        NetKind::NoLoad => b"NoLoad",
        NetKind::LoadUnknown => b"LoadUnknown",
        NetKind::LoadNotResistor => b"LoadNotResistor",
        NetKind::RootUnknown => b"RootUnknown",
        NetKind::NoBranch => b"NoBranch",
        NetKind::EmptyBranch => b"EmptyBranch",
    }
}

// The name of a kind of fault in a wave's head.
pub(crate) fn wave_name(kind: WavKind) -> &'static [u8]
    ensures name { result.now ≡ wave_name kind }
    ensures short { length result.now ≤ 15 }
{
    match kind {
        WavKind::NotRiff => b"NotRiff",
        WavKind::NotWave => b"NotWave",
        WavKind::ShortHead => b"ShortHead",
        WavKind::NoData => b"NoData",
        WavKind::TooManyChunks => b"TooManyChunks",
        WavKind::DataFirst => b"DataFirst",
        WavKind::DoubleFmt => b"DoubleFmt",
        WavKind::BadFmtSize => b"BadFmtSize",
        WavKind::BadTag => b"BadTag",
        WavKind::BadChannels => b"BadChannels",
        WavKind::BadBits => b"BadBits",
        WavKind::BadAlign => b"BadAlign",
        WavKind::BadSubformat => b"BadSubformat",
        WavKind::UnknownLength => b"UnknownLength",
    }
}
