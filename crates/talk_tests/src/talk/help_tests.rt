//! What command lines print that ask for help or the version, or whose actor isn't one.
use relay_command::read_words;
use std::alloc::Global;
use std::process::Abort;
use std::test::Fail;

const RELAY_HELP: &str = "A live relay for RTSP 1.0 (RFC 2326)

Usage: relay <COMMAND>

Commands:
  serve  Relays streams from publishers to players over TCP
  pull   Fetches the stream of a camera that is an RTSP server, and publishes it
  talk   Answers one RTSP connection on standard input and standard output
  steps  Runs a schedule of the ring's atomic steps from standard input, and prints each step
  pass   Passes a publisher's stream from standard input through a ring to standard output
  help   Print this message or the help of the given subcommand(s)

Options:
  -h, --help     Print help
  -V, --version  Print version

Example: a server for clients on this machine

./relay serve 127.0.0.1:8554
";

const SERVE_HELP: &str = "Relays streams from publishers to players over TCP

Usage: relay serve [OPTIONS] <ADDR>

Arguments:
  <ADDR>  The address and port to listen on, as 127.0.0.1:8554; port 0: a free one

Options:
      --keep <N>                How many packets a mount keeps for players that are behind
                                (1 to 4095) [default: 512]
      --seats <N>               How many players a mount can have (1 to 1024) [default: 64]
      --packet-bytes <N>        The longest packet that is relayed, in bytes
                                (12 to 65535) [default: 16384]
      --gather <MS>             At most how many milliseconds packets wait for more packets
                                before they are sent, unless 16 have come (0 to 100) [default: 5]
      --writers <N>             How many threads send packets; 0: one thread per player
                                (0 to 64) [default: one per processor]
      --direct                  Copy each packet once for each player, from the ring, and imply
                                --writers 0. If 16 packets exceed 32 KB, a player that stops
                                reading can block its mount for 20 seconds, a slow one for longer
      --back-ms <MS>            Start each PLAY with the packets of the last MS milliseconds,
                                at most half of --keep; not with --back (0 to 10000)
                                [default: 0]
      --back <N>                Start each PLAY with the last N packets of all tracks. If N is
                                near --keep, some are lost (0 to 4095) [default: 0]
      --keep-ended              Keep players connected after their mount's end
      --hang-up-ended           Disconnect players ten seconds after their mount's end, which
                                is the default, and undo --keep-ended
      --idle <SECONDS>          Disconnect clients that have no session after SECONDS of
                                silence; 0: never (0 to 65535) [default: 300]
      --silent <SECONDS>        Disconnect a publisher that sends nothing for SECONDS while it
                                records (1 to 86400)
                                [default: its session expires after 60 seconds]
      --per-address <N>         How many connections an address can have; IPv6 counts by /64
                                (1 to 1024) [default: no limit]
      --mounts-per-address <N>  How many mounts an address can publish (1 to 64)
                                [default: no limit]
      --limit-exempt <NET>      Networks that --per-address and --mounts-per-address don't
                                apply to, as 10.0.0.5,fd00::/8 [default: none]
      --proxy-from <NET>        Addresses of proxies, as HAProxy with send-proxy-v2: a connection
                                from one begins with a PROXY header, whose client's address counts
                                [default: none]
      --publish-from <NET>      Networks that can publish; others get 403. This is no
                                authentication [default: all]
      --play-from <NET>         Networks that can play; others get 403. This is no
                                authentication [default: all]
      --send-buffer <BYTES>     The send buffer of a connection, in bytes; Linux holds up to
                                twice as much (16384 to 4194304, or 0 for the system's own)
                                [default: 524288 if the system grants it, else 0]
      --verbose                 Log mounts, players, each session's packet counts, and refused
                                requests
      --report <SECONDS>        Log every SECONDS what each mount received and what each player
                                lost (1 to 86400) [default: off]
      --http <ADDR>             Serve metrics for Prometheus and status pages at this address
                                and port, as 127.0.0.1:9554, without a password [default: none]
      --http-players            Add each player's own counts to the metrics of --http, by mount and
                                seat
      --until-eof               End when standard input ends, and first log what each
                                connection lost and, with --report, a last report
      --accept <N>              End after N connections were accepted and have ended
                                (1 or more) [default: no end]
  -h, --help                    Print help

Example: on all addresses, and players start with a picture at once

./relay serve 0.0.0.0:8554 --keep 2048 --back-ms 2000
";

const TALK_HELP: &str = "Answers one RTSP connection on standard input and standard output

Usage: relay talk [OPTIONS]

Options:
      --word <HEX8>  The last eight hexadecimal digits of each session identifier
                     [default: random]
  -h, --help         Print help

Example: the methods that the relay knows

printf 'OPTIONS * RTSP/1.0\\r\\nCSeq: 1\\r\\n\\r\\n' | ./relay talk --word 0000abcd
";

const STEPS_HELP: &str =
    "Runs a schedule of the ring's atomic steps from standard input, and prints each step

Usage: relay steps [OPTIONS]

Options:
      --stopped <A>  Stop an actor after the schedule, p (the publisher) or the number of a seat,
                     and let the others finish their calls
  -h, --help         Print help

Example: a seat loses the first of three packets, since the ring keeps two

printf \\
'keep 2\\nseats 1\\np 41\\np 42\\np 43\\n0 attach\\n0 take\\n0 take\\n0 detach\\ngo 0 p*15 0 0*5 0\\n' |
./relay steps
";

const PASS_HELP: &str =
    "Passes a publisher's stream from standard input through a ring to standard output

Usage: relay pass [OPTIONS]

Options:
      --keep <N>        How many packets the ring keeps for its player (1 to 4095) [default: 512]
      --channels <A-B>  On which channels the tracks come in, as 0-1,2-3: those of RTP and RTCP
                        of the first track, then of the second [default: 0-1]
      --to <A-B>        On which channels they go out
                        [default: those on which they come in]
  -h, --help            Print help

Example: a recorded stream's first track, from channels 0 and 1 to 2 and 3

printf '$\\000\\000\\014\\200\\140\\000\\001\\000\\000\\000\\001\\000\\000\\000\\007' |
./relay pass --to 2-3 | od -An -tx1
";

/// The error of a line whose channels aren't pairs.
const NO_CHANNELS: &str =
    "error: invalid value '0-0' for '--to <A-B>': not up to 16 pairs of different channels, as 0-1,2-3

Usage: relay pass [OPTIONS]

For more information, try '--help'.
";

/// The error of a line whose actor isn't one.
const NO_ACTOR: &str = "error: invalid value '1x' for '--stopped <A>': not p and no seat's number

Usage: relay steps [OPTIONS]

For more information, try '--help'.
";

const PULL_HELP: &str = "Fetches the stream of a camera that is an RTSP server, and publishes it

Usage: relay pull [OPTIONS] <SOURCE> <TARGET>

Arguments:
  <SOURCE>  The URL of the camera's stream, as rtsp://admin@10.0.0.9/stream,
            without a password: see --password-file
  <TARGET>  The URL under which it is published, as
            rtsp://127.0.0.1:8554/door

Options:
      --once                  Try once. The status is 0 if packets went on until the source
                              ended or a stop, and else 1
      --password-file <FILE>  The file that has the password of SOURCE's user, read anew at
                              each try [default: none]
      --tracks <KINDS>        Which tracks go on: video, audio, or
                              video,audio [default: video,audio]
      --silent <SECONDS>      End a try if no packet of a track comes for SECONDS
                              (1 to 86400) [default: 10]
      --retry <MS>            How many milliseconds are between the first two tries; the time
                              doubles with each try, to thirty times MS
                              (10 to 60000) [default: 1000]
      --verbose               Log replies that are ignored, too
      --report <SECONDS>      Log every SECONDS what went on and what was missing
                              (1 to 86400) [default: off]
      --until-eof             End when standard input ends, and first log what went on
  -h, --help                  Print help

Example: a camera's stream as the mount door of the relay on this machine

./relay pull rtsp://10.0.0.9/stream rtsp://127.0.0.1:8554/door
";

/// The error of a line that isn't understood and can have a password, which isn't repeated.
const HIDDEN: &str =
    "error: the command line isn't understood; it isn't repeated here, since it can have a password

Usage: relay pull [OPTIONS] <SOURCE> <TARGET>

For more information, try '--help'.
";

/// The error of a line that asks for no tracks.
const NO_TRACKS: &str =
    "error: invalid value for '--tracks <KINDS>': not video, audio or video,audio

Usage: relay pull [OPTIONS] <SOURCE> <TARGET>

For more information, try '--help'.
";

/// Lines, and what they print.
const PRINTED: [(&str, &str); 15] = [
    ("relay --help", RELAY_HELP),
    ("relay serve --help", SERVE_HELP),
    ("relay talk --help", TALK_HELP),
    ("relay steps --help", STEPS_HELP),
    ("relay steps --stopped 1x", NO_ACTOR),
    ("relay pass --help", PASS_HELP),
    ("relay pass --to 0-0", NO_CHANNELS),
    ("relay --version", "relay 0.1.0\n"),
    ("relay pull --help", PULL_HELP),
    ("relay pull rtsp://a:b@h/x rtsp://h/x --nothing", HIDDEN),
    ("relay pull --silent rtsp://a:b@h/x rtsp://h/x", HIDDEN),
    (
        "relay pull rtsp://h/x rtsp://h/x rtsp://h/x?password=b",
        HIDDEN,
    ),
    ("relay rtsp://a:b@h/x rtsp://h/x", HIDDEN),
    ("relay help pull rtsp://a:b@h/x", HIDDEN),
    ("relay pull rtsp://h/x rtsp://h/x --tracks meta", NO_TRACKS),
];

/// Returns whether a line is answered by this text.
fn prints(alloc: Global, line: &str, text: &str) -> Result<bool, Fail> {
    let words: Vec<&str> = line.split(' ').collect(alloc)?;
    match read_words(alloc, words.as_slice()) {
        Ok(_) => Ok(false),
        Err(error) => Ok(format!(in alloc; "{error}")?.as_str() == text),
    }
}

#[test]
fn each_command_prints_its_options_and_an_example(rt: HostRuntime) -> Result<(), Fail> {
    for (line, want) in &PRINTED {
        assert!(rt; prints(rt.alloc(), line, want)?, "{line}");
        let is_narrow = want.lines().all(|line| line.chars().count() <= 100);
        assert!(rt; is_narrow, "{line}");
    }
    Ok(())
}
