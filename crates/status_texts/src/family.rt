//! The families of metrics: names, kinds and help texts.
ghost use Rattle.std.specs.Prelude.{◌≡◌, ◌++◌, length, take, OnOk, OnErr};
ghost use Rattle.exposition.specs.declared.kind.MetricKind.TheVariants.{Counter, Gauge};
ghost use Rattle.status_texts.specs.Families.{counter, gauge, head_text, mount_head, process_head, server_head};

use exposition::{MetricKind, put_head};
use std::alloc::AllocError;
use std::marker::Model;

/// The head of a family. A contract sees its texts as lists of bytes.
#[derive(Drop)]
pub(crate) struct FamilyHead {
    name: &'static str,
    kind: MetricKind,
    help: &'static str,
}

impl Model for FamilyHead {
    ghost use Rattle.status_texts.specs.Heads.{Head};

    ghost Value = { Head };

    ghost view = { λ h. record { name = h.name.now; kind = h.kind; help = h.help.now } };
}

impl FamilyHead {
    pub(crate) fn counter(name: &'static str, help: &'static str) -> FamilyHead
        ensures { result ≡ counter name.now help.now }
    {
        FamilyHead {
            name,
            kind: MetricKind::Counter,
            help,
        }
    }

    pub(crate) fn gauge(name: &'static str, help: &'static str) -> FamilyHead
        ensures { result ≡ gauge name.now help.now }
    {
        FamilyHead {
            name,
            kind: MetricKind::Gauge,
            help,
        }
    }

    /// The name of the metric.
    pub(crate) fn name(&self) -> &'static str
        ensures { result.now ≡ self.now.name }
    {
        self.name
    }

    /// Appends the two lines of the head.
    #[tactic(auto, unfolding(crate::specs::Families::head_text))]
    pub(crate) fn put(&self, out: &mut Vec<u8>) -> Result<(), AllocError>
        ensures ok { OnOk result (out.new.items ≡ out.old.items ++ head_text self.now) }
        ensures err { OnErr result (out.new.items ≡ out.old.items) }
    {
        put_head(out, self.name, self.kind, self.help)
    }
}

/// A family with samples for each name of a mount.
#[derive(Clone, Copy, Debug, PartialEq, Eq)]
pub(crate) enum MountFamily {
    Packets,
    BytesIn,
    PlayerPackets,
    PlayerBytes,
    Slowed,
    Live,
    Players,
    BehindMax,
}

/// A family with samples for the whole server.
#[derive(Clone, Copy, Debug, PartialEq, Eq)]
pub(crate) enum ServerFamily {
    AllPackets,
    AllBytesIn,
    AllPlayerPackets,
    AllPlayerBytes,
    ConnectionsMax,
    MountsMax,
    SeatsMax,
    BuildInfo,
}

/// A family with a sample for the process, as the client libraries of Prometheus name it
/// (<https://prometheus.io/docs/instrumenting/writing_clientlibs/#process-metrics>).
#[derive(Clone, Copy, Debug, PartialEq, Eq)]
pub(crate) enum ProcessFamily {
    StartTime,
    CpuSeconds,
    ResidentMemory,
    OpenFds,
    MaxFds,
}

impl MountFamily {
    pub(crate) fn head(self) -> FamilyHead
        ensures { result ≡ mount_head self }
    {
        match self {
            MountFamily::Packets => FamilyHead::counter(
                "vasklun_mount_packets_total",
                "Frames that came to the mounts of the name, by what became of them.",
            ),
            MountFamily::BytesIn => FamilyHead::counter(
                "vasklun_mount_bytes_in_total",
                "Bytes of the packets that were published to the mounts of the name.",
            ),
            MountFamily::PlayerPackets => FamilyHead::counter(
                "vasklun_mount_player_packets_total",
                "Packets for the players of the name's mounts, by what became of them.",
            ),
            MountFamily::PlayerBytes => FamilyHead::counter(
                "vasklun_mount_player_bytes_total",
                "Bytes of the packets that were sent to the players of the name's mounts.",
            ),
            MountFamily::Slowed => FamilyHead::counter(
                "vasklun_mount_slowed_seconds_total",
                "Seconds that packets of the name's mounts waited for players.",
            ),
            MountFamily::Live => FamilyHead::gauge(
                "vasklun_mount_live",
                "1 if a mount of the name is recorded, 0 if its last mount has ended.",
            ),
            MountFamily::Players => FamilyHead::gauge(
                "vasklun_mount_players",
                "Players that have a seat of a mount of the name.",
            ),
            MountFamily::BehindMax => FamilyHead::gauge(
                "vasklun_mount_behind_packets_max",
                "Packets that the slowest player of the name's mounts is behind.",
            ),
        }
    }
}

impl ServerFamily {
    pub(crate) fn head(self) -> FamilyHead
        ensures { result ≡ server_head self }
    {
        match self {
            ServerFamily::AllPackets => FamilyHead::counter(
                "vasklun_packets_total",
                "Frames that came to all mounts since the server started, by what became of them.",
            ),
            ServerFamily::AllBytesIn => FamilyHead::counter(
                "vasklun_bytes_in_total",
                "Bytes of the packets that were published to all mounts since the server started.",
            ),
            ServerFamily::AllPlayerPackets => FamilyHead::counter(
                "vasklun_player_packets_total",
                "Packets for all players since the server started, by what became of them.",
            ),
            ServerFamily::AllPlayerBytes => FamilyHead::counter(
                "vasklun_player_bytes_total",
                "Bytes of the packets that were sent to all players since the server started.",
            ),
            ServerFamily::ConnectionsMax => {
                FamilyHead::gauge("vasklun_connections_max", "The limit of connections.")
            }
            ServerFamily::MountsMax => {
                FamilyHead::gauge("vasklun_mounts_max", "The limit of mounts.")
            }
            ServerFamily::SeatsMax => {
                FamilyHead::gauge("vasklun_seats_max", "The limit of players of a mount.")
            }
            ServerFamily::BuildInfo => {
                FamilyHead::gauge("vasklun_build_info", "1, with the version of the server.")
            }
        }
    }
}

impl ProcessFamily {
    pub(crate) fn head(self) -> FamilyHead
        ensures { result ≡ process_head self }
    {
        match self {
            ProcessFamily::StartTime => FamilyHead::gauge(
                "process_start_time_seconds",
                "Start time of the process since the Unix epoch in seconds.",
            ),
            ProcessFamily::CpuSeconds => FamilyHead::counter(
                "process_cpu_seconds_total",
                "Total user and system CPU time spent in seconds.",
            ),
            ProcessFamily::ResidentMemory => FamilyHead::gauge(
                "process_resident_memory_bytes",
                "Resident memory size in bytes.",
            ),
            ProcessFamily::OpenFds => {
                FamilyHead::gauge("process_open_fds", "Number of open file descriptors.")
            }
            ProcessFamily::MaxFds => FamilyHead::gauge(
                "process_max_fds",
                "Maximum number of open file descriptors.",
            ),
        }
    }
}
