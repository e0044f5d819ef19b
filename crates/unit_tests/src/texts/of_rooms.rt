//! The spare capacity of units, of copies of requests and of replies, of the lists of them and of texts.
use base_syntax::{Bytes, Items};
use rtsp_message::{Fields, Reader, Reply, Request, Status, Unit, put_reply};
use std::alloc::{AllocError, Global};
use std::mem;
use std::process::Abort;

/// How many frames, and how many header fields, are read.
const MANY: usize = 2_000;

/// Returns whether a capacity is at most twice the length, and a few more.
fn is_close(capacity: usize, len: usize) -> bool {
    capacity / 2 <= len.saturating_add(4)
}

/// Looks at the room of a text, and leaves none in its place.
fn look_at_bytes(rt: &impl Abort, alloc: Global, bytes: &mut Bytes) {
    look_at_list(rt, &mem::replace(bytes, Bytes::empty(alloc)).into_vec());
}

/// Looks at the room of a list of bytes.
fn look_at_list(rt: &impl Abort, bytes: &Vec<u8>) {
    assert!(rt;
        is_close(bytes.capacity(), bytes.len()),
        "{} of {}",
        bytes.len(),
        bytes.capacity()
    );
}

/// Looks at the room of each text of a request, and of the list of its header fields.
fn look_at_request(rt: &impl Abort, alloc: Global, mut request: Request) {
    look_at_bytes(rt, alloc, &mut request.method);
    look_at_bytes(rt, alloc, &mut request.uri);
    look_at_bytes(rt, alloc, &mut request.version);
    look_at_bytes(rt, alloc, &mut request.body);
    let headers = mem::replace(&mut request.headers, Items::empty(alloc)).into_vec();
    assert_eq!(rt; headers.len(), MANY);
    assert!(rt;
        is_close(headers.capacity(), headers.len()),
        "{}",
        headers.capacity()
    );
    for mut header in headers {
        look_at_bytes(rt, alloc, &mut header.name);
        look_at_bytes(rt, alloc, &mut header.value);
    }
}

/// Many frames of a byte, and a request of many header fields.
fn long_piece(alloc: Global) -> Result<Vec<u8>, AllocError> {
    let mut piece = Vec::new(alloc);
    for _ in 0..MANY {
        piece.extend_from_slice(b"$\x00\x00\x01a")?;
    }
    piece.extend_from_slice(b"OPTIONS * RTSP/1.0\r\nContent-Length: 3\r\n")?;
    for _ in 1..MANY {
        piece.extend_from_slice(b"a:\n")?;
    }
    piece.extend_from_slice(b"\r\nabc")?;
    Ok(piece)
}

#[test]
fn units_take_at_most_twice_the_room_they_need(rt: HostRuntime) {
    let alloc = rt.alloc();
    let piece = long_piece(alloc).expect(&rt, "memory");
    let mut reader = Reader::new(alloc);
    let fed = reader.feed(piece.as_slice()).ok().expect(&rt, "memory");
    let units = fed.units;
    assert_eq!(rt; units.len(), MANY + 1);
    assert!(rt;
        is_close(units.capacity(), units.len()),
        "{}",
        units.capacity()
    );
    for unit in units {
        match unit {
            Unit::Frame(frame) => {
                // The piece has a request too, so that each frame has a list of its own.
                let list = frame.payload.into_vec().ok().expect(&rt, "a list");
                look_at_list(&rt, &list);
            }
            Unit::Message(request) => {
                look_at_request(&rt, alloc, request.copy(alloc).expect(&rt, "memory"));
                look_at_request(&rt, alloc, request);
            }
        }
    }
}

/// Each field that a reply may have, with a value.
fn all_fields(rt: &impl Abort, alloc: Global) -> Fields {
    let given = |value: &[u8]| Some(Bytes::from_slice(alloc, value).expect(rt, "memory"));
    Fields {
        session: given(b"0"),
        public: given(b"P"),
        allow: given(b"A"),
        unsupported: given(b""),
        transport: given(b"T"),
        rtp_info: given(b"R"),
        content_base: given(b"B/"),
        content_type: given(b"C"),
    }
}

/// A reply with each field, and a body of `MANY` bytes.
fn long_reply(rt: &impl Abort, alloc: Global) -> Reply {
    Reply {
        status: Status::Ok,
        cseq: Some(1),
        fields: all_fields(rt, alloc),
        body: Bytes::from_slice(alloc, &[b'a'; MANY]).expect(rt, "memory"),
    }
}

/// Looks at the room of each text of a reply.
fn look_at_reply(rt: &impl Abort, alloc: Global, mut reply: Reply) {
    look_at_bytes(rt, alloc, &mut reply.body);
    let Fields {
        session,
        public,
        allow,
        unsupported,
        transport,
        rtp_info,
        content_base,
        content_type,
    } = mem::replace(&mut reply.fields, Fields::none());
    let values = [
        session,
        public,
        allow,
        unsupported,
        transport,
        rtp_info,
        content_base,
        content_type,
    ];
    for value in values {
        look_at_bytes(rt, alloc, &mut value.expect(rt, "a field"));
    }
}

#[test]
fn replies_take_at_most_twice_the_room_they_need(rt: HostRuntime) {
    let alloc = rt.alloc();
    let reply = long_reply(&rt, alloc);
    look_at_reply(&rt, alloc, reply.copy(alloc).expect(&rt, "memory"));
    let mut text = Vec::new(alloc);
    put_reply(&mut text, &reply).expect(&rt, "memory");
    assert!(rt;
        is_close(text.capacity(), text.len()),
        "{} of {}",
        text.len(),
        text.capacity()
    );
}
