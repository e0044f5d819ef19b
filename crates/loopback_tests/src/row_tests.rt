//! Rows of requests over loopback.
use crate::loopback::{Client, MODES, Set, start};
use relay_server::OpenGate;
use std::alloc::Global;
use std::net::{Net, SocketAddr, TcpStream};
use std::process::Abort;
use test_kit::FRAME;

/// A request of one of two clients, and the status and the body that it is answered with.
#[derive(Clone, Copy)]
struct Row {
    client: usize,
    request: &'static [u8],
    status: u16,
    body: &'static [u8],
}

/// The reply to a player's DESCRIBE of `cam`.
const DESCRIBED: &[u8] =
    b"v=0\r\na=control:*\r\nm=video 0 RTP/AVP 96\r\na=control:trackID=0\r\nm=audio 0 RTP/AVP 0\r\na=control:trackID=1\r\n";

/// A player's DESCRIBE of `cam`.
const DESCRIBE: Row = Row {
    client: 1,
    request: b"DESCRIBE rtsp://h/cam RTSP/1.0\r\nCSeq: 1\r\n\r\n",
    status: 200,
    body: DESCRIBED,
};

/// The first client owns `cam`, whose first track was announced as `trackID=1`. It isn't announced by another.
const OWNER_AND_CONTROL_NAMES: [Row; 9] = [
    Row {
        client: 0,
        request: b"ANNOUNCE rtsp://h/cam RTSP/1.0\r\nCSeq: 1\r\nContent-Length: 69\r\n\r\nv=0\r\nm=video 0 RTP/AVP 96\r\na=control:trackID=1\r\nm=audio 0 RTP/AVP 0\r\n",
        status: 200,
        body: b"",
    },
    DESCRIBE,
    Row {
        client: 1,
        request: b"ANNOUNCE rtsp://h/cam RTSP/1.0\r\nCSeq: 1\r\nContent-Length: 26\r\n\r\nv=0\nm=audio 0 RTP/AVP 0  \n",
        status: 403,
        body: b"",
    },
    DESCRIBE,
    Row {
        client: 1,
        request: b"SETUP rtsp://h/cam RTSP/1.0\r\nCSeq: 2\r\nTransport: RTP/AVP/TCP\r\n\r\n",
        status: 459,
        body: b"",
    },
    Row {
        client: 0,
        request: b"SETUP rtsp://h/cam/trackID=1 RTSP/1.0\r\nCSeq: 2\r\nTransport: RTP/AVP/TCP;interleaved=0-1;mode=record\r\n\r\n",
        status: 200,
        body: b"",
    },
    Row {
        client: 0,
        request: b"RECORD rtsp://h/cam RTSP/1.0\r\nCSeq: 3\r\nSession: 000000010000abcd\r\n\r\n",
        status: 200,
        body: b"",
    },
    Row {
        client: 1,
        request: b"SETUP rtsp://h/cam/trackID=0 RTSP/1.0\r\nCSeq: 3\r\nTransport: RTP/AVP/TCP;interleaved=8-9\r\n\r\n",
        status: 200,
        body: b"",
    },
    Row {
        client: 1,
        request: b"PLAY rtsp://h/cam/trackID=0 RTSP/1.0\r\nCSeq: 4\r\nSession: 000000020000abcd\r\n\r\n",
        status: 200,
        body: b"",
    },
];

/// What the player asks once the mount has ended.
const BEHIND_THE_END: [Row; 3] = [
    Row {
        client: 0,
        request: b"TEARDOWN rtsp://h/cam RTSP/1.0\r\nCSeq: 4\r\nSession: 000000010000abcd\r\n\r\n",
        status: 200,
        body: b"",
    },
    Row {
        client: 1,
        request: b"DESCRIBE rtsp://h/cam RTSP/1.0\r\nCSeq: 5\r\n\r\n",
        status: 404,
        body: b"",
    },
    Row {
        client: 1,
        request: b"TEARDOWN rtsp://h/cam RTSP/1.0\r\nCSeq: 6\r\nSession: 000000020000abcd\r\n\r\n",
        status: 200,
        body: b"",
    },
];

/// Returns whether a row's client gets the row's reply.
fn is_as(rt: &impl Abort, clients: &mut [Client; 2], row: &Row) -> bool {
    let Some(client) = clients.get_mut(row.client) else {
        return false;
    };
    client.status_of(rt, row.request) == row.status && client.reads(rt, row.body)
}

fn rows_hold<R: Abort>(rt: &R, clients: &mut [Client; 2], rows: &[Row]) {
    for row in rows {
        assert!(rt; is_as(rt, clients, row), "{}", row.request.escape_ascii());
    }
}

fn owner_and_player_ask<R: Net<Stream = TcpStream> + Abort>(
    rt: &R,
    alloc: Global,
    addr: SocketAddr,
) {
    let mut clients = [
        Client::connect(rt, alloc, addr),
        Client::connect(rt, alloc, addr),
    ];
    rows_hold(rt, &mut clients, &OWNER_AND_CONTROL_NAMES);
    // The track that its owner set up as 1 is the one that its player set up as 0.
    clients[0].say(rt, FRAME);
    let came = clients[1].bytes(rt, 16);
    assert!(rt; came.as_slice().starts_with(b"\x24\x08\x00\x0c"));
    rows_hold(rt, &mut clients, &BEHIND_THE_END)
}

/// The mount's end leaves its player's connection open, and the player may ask for more.
#[test]
fn a_track_has_its_owners_name_and_its_players(rt: HostRuntime) {
    let alloc = rt.alloc();
    for writers in MODES {
        let set = Set {
            gather: 0,
            ..Set::of(2, 1).by(writers)
        };
        let server = start(rt, alloc, set, OpenGate);
        owner_and_player_ask(&rt, alloc, server.addr);
        server.end(&rt);
    }
}
