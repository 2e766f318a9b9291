//! The answers that the stops of commands become.

ghost use Rattle.std.specs.Prelude.{◌≡◌};
ghost use Rattle.wdf.specs.Statuses.{status_of_beginning, status_of_bound, status_of_certify, status_of_certifying, status_of_check, status_of_checking, status_of_design, status_of_filtering, status_of_frame, status_of_load, status_of_netlist, status_of_networks, status_of_open, status_of_reporting, status_of_soak, status_of_soaking, status_of_usage};

use crate::{
    BeginningStop, CertifyingStop, CheckingStop, FilteringStop, NetworksStop, ReportingStop,
    SoakingStop,
};
use wdf_certificates::{CertifyStop, CheckStop, LoadStop};
use wdf_frames::FrameStop;
use wdf_report::Status;
use wdf_soak::SoakStop;
use wdf_stages::{BoundStop, DesignStop, NetlistStop, OpenStop};
use wdf_words::UsageFault;

/// The answer where the words break the rules of the command line.
pub fn usage_status(fault: UsageFault) -> Status
    ensures { result ≡ status_of_usage fault }
{
    Status::Usage {
        word: fault.word,
        kind: fault.kind,
    }
}

fn netlist_status(stop: NetlistStop) -> Status
    ensures { result ≡ status_of_netlist stop }
{
    match stop {
        NetlistStop::Missing { word } => Status::Missing { word },
        NetlistStop::FileTooLarge { word } => Status::FileTooLarge { word },
        NetlistStop::NetText { fault } => Status::NetText { fault },
        NetlistStop::LoadFault => Status::LoadFault,
        NetlistStop::NoMemory => Status::NoMemory,
    }
}

fn design_status(stop: DesignStop) -> Status
    ensures { result ≡ status_of_design stop }
{
    match stop {
        DesignStop::NotSeriesParallel {
            side,
            element,
            core,
        } => Status::NotSeriesParallel {
            side,
            element,
            core,
        },
        DesignStop::PortRange { side, element, low } => Status::PortRange { side, element, low },
        DesignStop::NoMemory => Status::NoMemory,
    }
}

fn networks_status(stop: NetworksStop) -> Status
    ensures { result ≡ status_of_networks stop }
{
    match stop {
        NetworksStop::Netlist(stop) => netlist_status(stop),
        NetworksStop::Design(stop) => design_status(stop),
    }
}

fn certify_status(stop: CertifyStop) -> Status
    ensures { result ≡ status_of_certify stop }
{
    match stop {
        CertifyStop::Unobservable {
            side,
            element,
            kernel,
        } => Status::Unobservable {
            side,
            element,
            kernel,
        },
        CertifyStop::NoMemory => Status::NoMemory,
    }
}

impl From<CertifyingStop> for Status {
    ghost from_gives = { λ stop s. s ≡ status_of_certifying stop };

    fn from(stop: CertifyingStop) -> Self {
        match stop {
            CertifyingStop::Networks(stop) => networks_status(stop),
            CertifyingStop::Certify(stop) => certify_status(stop),
            CertifyingStop::Write => Status::WriteFault,
        }
    }
}

fn load_status(stop: LoadStop) -> Status
    ensures { result ≡ status_of_load stop }
{
    match stop {
        LoadStop::Missing { word } => Status::Missing { word },
        LoadStop::FileTooLarge { word } => Status::FileTooLarge { word },
        LoadStop::CertText { at, range } => Status::CertText { at, range },
        LoadStop::LoadFault => Status::LoadFault,
        LoadStop::NoMemory => Status::NoMemory,
    }
}

fn check_status(stop: CheckStop) -> Status
    ensures { result ≡ status_of_check stop }
{
    match stop {
        CheckStop::CertWrong { side, fault } => Status::CertWrong { side, fault },
        CheckStop::NoMemory => Status::NoMemory,
    }
}

impl From<CheckingStop> for Status {
    ghost from_gives = { λ stop s. s ≡ status_of_checking stop };

    fn from(stop: CheckingStop) -> Self {
        match stop {
            CheckingStop::Networks(stop) => networks_status(stop),
            CheckingStop::Load(stop) => load_status(stop),
            CheckingStop::Check(stop) => check_status(stop),
            CheckingStop::Write => Status::WriteFault,
        }
    }
}

fn open_status(stop: OpenStop) -> Status
    ensures { result ≡ status_of_open stop }
{
    match stop {
        OpenStop::BadWave { kind, at } => Status::BadWave { kind, at },
        OpenStop::RateMismatch { netlist, wave } => Status::RateMismatch { netlist, wave },
        OpenStop::ChannelCount { have, want } => Status::ChannelCount { have, want },
        OpenStop::TooLong { frames, limit } => Status::TooLong { frames, limit },
        OpenStop::ReadFault => Status::ReadFault,
    }
}

fn bound_status(stop: BoundStop) -> Status
    ensures { result ≡ status_of_bound stop }
{
    match stop {
        BoundStop::Bound {
            side,
            element,
            ratio,
            need,
            limit,
        } => Status::Bound {
            side,
            element,
            ratio,
            need,
            limit,
        },
        BoundStop::NoMemory => Status::NoMemory,
    }
}

impl From<ReportingStop> for Status {
    ghost from_gives = { λ stop s. s ≡ status_of_reporting stop };

    fn from(stop: ReportingStop) -> Self {
        match stop {
            ReportingStop::Networks(stop) => networks_status(stop),
            ReportingStop::Bound(stop) => bound_status(stop),
            ReportingStop::NoMemory => Status::NoMemory,
            ReportingStop::Write => Status::WriteFault,
        }
    }
}

fn frame_status(stop: FrameStop) -> Status
    ensures { result ≡ status_of_frame stop }
{
    match stop {
        FrameStop::Amplitude {
            frame,
            channel,
            sample,
        } => Status::Amplitude {
            frame,
            channel,
            sample,
        },
        FrameStop::Truncated { frames } => Status::Truncated { frames },
        FrameStop::ReadFault => Status::ReadFault,
        FrameStop::WriteFault => Status::WriteFault,
    }
}

fn beginning_status(stop: BeginningStop) -> Status
    ensures { result ≡ status_of_beginning stop }
{
    match stop {
        BeginningStop::Networks(stop) => networks_status(stop),
        BeginningStop::Open(stop) => open_status(stop),
        BeginningStop::Bound(stop) => bound_status(stop),
        BeginningStop::NoMemory => Status::NoMemory,
    }
}

impl From<FilteringStop> for Status {
    ghost from_gives = { λ stop s. s ≡ status_of_filtering stop };

    fn from(stop: FilteringStop) -> Self {
        match stop {
            FilteringStop::Begin(stop) => beginning_status(stop),
            FilteringStop::Frame(stop) => frame_status(stop),
            FilteringStop::Note => Status::NoteFault,
        }
    }
}

fn soak_status(stop: SoakStop) -> Status
    ensures { result ≡ status_of_soak stop }
{
    match stop {
        SoakStop::PortRange { side, element, low } => Status::PortRange { side, element, low },
        SoakStop::Bound {
            side,
            element,
            ratio,
            need,
            limit,
        } => Status::Bound {
            side,
            element,
            ratio,
            need,
            limit,
        },
        SoakStop::NoMemory => Status::NoMemory,
    }
}

impl From<SoakingStop> for Status {
    ghost from_gives = { λ stop s. s ≡ status_of_soaking stop };

    fn from(stop: SoakingStop) -> Self {
        match stop {
            SoakingStop::Soak(stop) => soak_status(stop),
            SoakingStop::Write => Status::WriteFault,
        }
    }
}
