//! The settings of `relay serve` and `relay pass`, from their command lines.
ghost use Rattle.std.specs.Prelude.{◌≤◌, IfSome};
ghost use Rattle.relay_command.specs.Serving.{IsInRange};

use clap::ArgMatches;
use networks::Networks;
use pacing::Back;
use transport_header::TrackChannels;

/// The send buffer of a connection: what the system may hold for a peer that is behind.
#[derive(Clone, Copy, Debug, PartialEq, Eq, Drop)]
pub enum SendBuffer {
    /// The program's default if the system grants it, else the system's own size.
    Default,
    /// The system's own size.
    System,
    /// This many bytes, 16,384 to 4,194,304, as far as the system grants them.
    Bytes(u32),
}

/// The numbers and switches of a server.
#[derive(Clone, Copy, Debug, PartialEq, Eq, Drop)]
pub struct Settings {
    /// How many packets a mount keeps for players that are behind, 1 to 4,095.
    pub keep: usize,
    /// How many players a mount has, 1 to 1,024.
    pub seats: usize,
    /// The bytes of the longest packet, 12 to 65,535.
    pub packet_bytes: usize,
    /// After how many connections the server ends; `None` for never.
    pub accept: Option<u64>,
    /// For how long packets gather before players are woken, 0 to 100 milliseconds.
    pub gather: u64,
    /// With which packets from before each PLAY begins that takes a seat: 0 to 4,095 packets, or those of 0 to 10,000 milliseconds.
    pub back: Back,
    /// Whether a player is disconnected after the last packet of its mount.
    pub hang_up_ended: bool,
    /// After how many seconds of silence a connection without a session is disconnected; `None` for never.
    pub idle: Option<u64>,
    /// After how many seconds of silence, 1 to 86,400, a connection that records is disconnected; `None` leaves it to the expiry of
    /// its session.
    pub silent: Option<u64>,
    /// How many connections an address may have, 1 to 1,024; `None` for any number.
    pub per_address: Option<usize>,
    /// How many mounts an address may have, 1 to 64; `None` for any number.
    pub mounts_per_address: Option<usize>,
    /// How many threads send the frames of all players, 0 to 64; 0 gives each player a thread of its own, and `None` is one for
    /// each processor.
    pub writers: Option<usize>,
    /// Whether each player's thread writes packets from their place in the ring. Then `writers` is 0 or `None`.
    pub is_direct: bool,
    /// Whether lines report each mount and each player.
    pub is_verbose: bool,
    /// How many seconds, 1 to 86,400, are between two reports of mounts and losses; `None` for no reports.
    pub report: Option<u64>,
    /// What the system may hold for a peer that is behind.
    pub send_buffer: SendBuffer,
    /// Whether the server ends when standard input does.
    pub until_eof: bool,
}

/// The addresses at which a server listens, as texts of an address and a port.
#[derive(Debug, Drop)]
pub struct Endpoints {
    /// Where publishers and players connect.
    pub rtsp: String,
    /// Where status pages are served; `None` for nowhere.
    pub http: Option<String>,
    /// Whether the metrics have samples for each player. Then `http` is an address.
    pub http_players: bool,
}

/// The networks from which peers may publish and play: `None` is everywhere, or for `exempt` and `proxies` nowhere.
#[derive(Debug, Drop)]
pub struct Origins {
    /// The networks from which mounts may be announced.
    pub publish: Option<Networks>,
    /// The networks from which mounts may be described and played.
    pub play: Option<Networks>,
    /// The networks for which `per_address` and `mounts_per_address` don't apply.
    pub exempt: Option<Networks>,
    /// The addresses of proxies, whose connections begin with a header.
    pub proxies: Option<Networks>,
}

/// What `relay pass` passes on.
#[derive(Drop)]
pub struct Passing {
    /// How many packets the ring keeps for its player, 1 to 4,095.
    pub keep: usize,
    /// The channels on which the tracks come in.
    pub from: TrackChannels,
    /// The channels on which they go out.
    pub to: TrackChannels,
}

impl Settings {
    /// Returns the settings of the arguments of `serve`. The command line has a default for each number but `accept`, and lets
    /// no number through that is out of its range.
    pub fn of(matches: &ArgMatches) -> Settings
        ensures ranges { IsInRange result }
    {
        Settings {
            keep: number(matches, "keep").clamp(1, 4095),
            seats: number(matches, "seats").clamp(1, 1024),
            packet_bytes: number(matches, "packet-bytes").clamp(12, 65_535),
            accept: matches.get_one::<u64>("accept"),
            gather: number(matches, "gather").min(100) as u64,
            back: match matches.get_one::<u16>("back-ms") {
                None => Back::Packets(number(matches, "back").min(4095) as u64),
                Some(milliseconds) => Back::Milliseconds(u64::from(milliseconds).min(10_000)),
            },
            hang_up_ended: !matches.get_flag("keep-ended"),
            idle: match number(matches, "idle") {
                0 => None,
                seconds => Some(seconds as u64),
            },
            silent: seconds(matches, "silent"),
            per_address: matches
                .get_one::<u16>("per-address")
                .map(|count| usize::from(count).clamp(1, 1_024)),
            mounts_per_address: matches
                .get_one::<u16>("mounts-per-address")
                .map(|count| usize::from(count).clamp(1, 64)),
            writers: matches
                .get_one::<u16>("writers")
                .map(|count| usize::from(count).min(64)),
            is_direct: matches.get_flag("direct"),
            is_verbose: matches.get_flag("verbose"),
            report: seconds(matches, "report"),
            send_buffer: match matches.get_one::<u64>("send-buffer") {
                None => SendBuffer::Default,
                Some(0) => SendBuffer::System,
                Some(bytes) => SendBuffer::Bytes(bytes.clamp(1, 4_194_304) as u32),
            },
            until_eof: matches.get_flag("until-eof"),
        }
    }
}

/// Seconds of the command line, 1 to 86,400. `None` without the option.
fn seconds(matches: &ArgMatches, name: &str) -> Option<u64>
    ensures { IfSome result (λ seconds. (1 ≤ seconds) × (seconds ≤ 86400)) }
{
    matches
        .get_one::<u64>(name)
        .map(|seconds| seconds.clamp(1, 86_400))
}

/// A number of the command line.
pub(crate) fn number(matches: &ArgMatches, name: &str) -> usize {
    usize::from(matches.get_one::<u16>(name).unwrap_or(0))
}
