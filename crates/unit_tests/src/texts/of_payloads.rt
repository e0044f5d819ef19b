//! Which frames are parts of the block that was read, and which have a list of their own; how many frames are read at once.
use base_syntax::Bytes;
use interleaved::{Frame, ListSource, Payload};
use rtsp_message::{Intake, Next, Reader, Unit};
use std::alloc::{AllocError, Global};
use std::process::Abort;
use std::test::Fail;

/// Two frames.
const FRAMES: &[u8] = b"$\x00\x00\x03abc$\x01\x00\x02de";

/// The frames that a piece brings.
fn frames_of(alloc: Global, reader: &mut Reader, piece: &[u8]) -> Result<Vec<Frame>, AllocError> {
    frames_in(alloc, reader.feed(piece)?.units)
}

/// The frames of these units.
fn frames_in(alloc: Global, units: Vec<Unit>) -> Result<Vec<Frame>, AllocError> {
    let mut frames = Vec::with_capacity(alloc, units.len())?;
    for unit in units {
        if let Unit::Frame(frame) = unit {
            frames.push(frame)?;
        }
    }
    Ok(frames)
}

/// Channel and data of each frame are as expected.
fn look_at(rt: &impl Abort, frames: &[Frame], want: &[(u8, &[u8])]) {
    assert_eq!(rt; frames.len(), want.len());
    for (frame, (channel, data)) in frames.iter().zip(want) {
        assert_eq!(rt; frame.channel, *channel);
        assert_eq!(rt; frame.payload.as_slice(), *data);
    }
}

/// How many of these frames are parts of a block, and how many have a list of their own.
fn kinds(frames: Vec<Frame>) -> (usize, usize) {
    let all = frames.len();
    let mut lists: usize = 0;
    for frame in frames {
        if frame.payload.into_vec().is_ok() {
            lists = lists.saturating_add(1);
        }
    }
    (all.saturating_sub(lists), lists)
}

/// A piece that is whole frames is cut; one that holds anything else, or comes while bytes wait, is copied.
#[test]
fn whole_frames_are_parts_and_others_are_lists(rt: HostRuntime) -> Result<(), Fail> {
    let rows: [(&[u8], (usize, usize)); 6] = [
        (FRAMES, (2, 0)),
        (b"$\x00\x00\x00", (1, 0)),
        (b"$\x00\x00\x03abc$", (0, 1)),
        (b"\x01\x00\x02de", (0, 1)),
        (b"\r\n$\x00\x00\x03abc", (0, 1)),
        (b"$\x00\x00\x03abcOPTIONS * RTSP/1.0\r\n\r\n", (0, 1)),
    ];
    let mut reader = Reader::new(rt.alloc());
    for (piece, want) in rows {
        assert_eq!(rt; kinds(frames_of(rt.alloc(), &mut reader, piece)?), want);
    }
    assert_eq!(rt; (reader.waiting(), reader.room()), (0, 0));
    Ok(())
}

/// Each byte of a head is looked at twice, and no other byte of whole frames.
#[test]
fn whole_frames_are_looked_at_by_their_heads(rt: HostRuntime) -> Result<(), Fail> {
    let mut reader = Reader::new(rt.alloc());
    let _ = reader.feed(FRAMES)?;
    assert_eq!(rt; (reader.looked(), reader.fed()), (16, 13));
    Ok(())
}

#[test]
fn a_copy_of_a_part_is_a_list(rt: HostRuntime) -> Result<(), Fail> {
    let mut reader = Reader::new(rt.alloc());
    for frame in frames_of(rt.alloc(), &mut reader, FRAMES)? {
        let copied = frame.payload.copy(rt.alloc())?;
        let list = copied.into_vec().ok().expect(&rt, "a list");
        assert_eq!(rt; list.as_slice(), frame.payload.as_slice());
    }
    let list = Payload::from(Bytes::from_slice(rt.alloc(), b"abc")?);
    assert!(rt; list.into_vec().is_ok());
    Ok(())
}

/// The frames of a piece stay as they are while the reader goes on, meets a fault and is dropped.
#[test]
fn parts_outlive_the_reader(rt: HostRuntime) -> Result<(), Fail> {
    let want: [(u8, &[u8]); 2] = [(0, b"abc"), (1, b"de")];
    let mut reader = Reader::new(rt.alloc());
    let first = frames_of(rt.alloc(), &mut reader, FRAMES)?;
    let second = frames_of(rt.alloc(), &mut reader, b"$\x02\x00\x01fA B C\nX : 1\n")?;
    assert!(rt; reader.fault().is_some());
    assert_eq!(rt; (reader.waiting(), reader.room()), (0, 0));
    look_at(&rt, &first, &want);
    drop(reader);
    look_at(&rt, &first, &want);
    look_at(&rt, &second, &[(2, b"f")]);
    Ok(())
}

/// The frames that a piece brings, which is fed once more if memory is refused. `None` if the refusal changed what the reader
/// reports.
fn frames_at_last(
    alloc: Global,
    reader: &mut Reader,
    piece: &[u8],
) -> Result<Option<Vec<Frame>>, Fail> {
    let before = (
        reader.waiting(),
        reader.room(),
        reader.looked(),
        reader.fed(),
    );
    if let Ok(fed) = reader.feed(piece) {
        return Ok(Some(frames_in(alloc, fed.units)?));
    }
    if (
        reader.waiting(),
        reader.room(),
        reader.looked(),
        reader.fed(),
    ) != before
    {
        return Ok(None);
    }
    Ok(Some(frames_of(alloc, reader, piece)?))
}

/// If a request for memory is refused while the frames of a piece are cut, the same piece brings them when it is fed again.
#[test]
fn a_refused_cut_is_undone(rt: HostRuntime) -> Result<(), Fail> {
    let mut reader = Reader::new(rt.alloc());
    let mut all = Vec::new(rt.alloc());
    for piece in [FRAMES, b"$\x02\x00\x01f"] {
        let frames = frames_at_last(rt.alloc(), &mut reader, piece)?;
        for frame in frames.expect(&rt, "a reader as it was") {
            all.push(frame)?;
        }
    }
    look_at(&rt, &all, &[(0, b"abc"), (1, b"de"), (2, b"f")]);
    Ok(())
}

/// How many bytes the data of a long frame has, and such a frame.
const LONG: usize = 1_200;

/// How many long frames the stream has.
const MANY: usize = 200;

/// A stream of long frames.
fn long_frames(alloc: Global) -> Result<Vec<u8>, AllocError> {
    let mut stream = Vec::new(alloc);
    for _ in 0..MANY {
        stream.extend_from_slice(b"$\x00\x04\xb0")?;
        stream.extend_from_slice(&[b'x'; LONG])?;
    }
    Ok(stream)
}

/// Reads of 4,096 bytes, twice as many each time, and then of 50,000, each but the last end within a frame. What is fed next is that
/// frame's end alone, and then whole frames again, 13 of them in 16,384 bytes: an intake that lost its step would feed 2,048 bytes each
/// time, one or two frames.
#[test]
fn parts_are_whole_frames_again_after_a_frame_in_two_reads(rt: HostRuntime) -> Result<(), Fail> {
    let source = ListSource::new(long_frames(rt.alloc())?, 50_000, None);
    let mut intake = Intake::new(rt.alloc(), source);
    let mut parts: usize = 0;
    for _ in 0..MANY {
        assert!(rt; matches!(intake.next(), Next::Unit(Unit::Frame(_))));
        // What is left is a multiple of a frame's bytes, and the units queued.
        if intake.left() % (LONG as u64 + 4) == 0 {
            parts = parts.saturating_add(1);
        }
    }
    assert!(rt; matches!(intake.next(), Next::End));
    // Parts of frames in each of eight reads, of 4,096, 8,192, 16,384, 32,768, three times 50,000 and 29,360 bytes: the end of the last
    // read's frame, 13 frames as often as more than 16,384 bytes are at hand, and the frames of the rest. 3; 1, 6; 1, 12; 1, 13, 13, 1;
    // 1, 13, 13, 13, 1; 1, 13, 13, 13, 2; 1, 13, 13, 13, 1; 1, 13, 11.
    assert_eq!(rt; parts, 1 + 2 + 2 + 4 + 5 + 5 + 5 + 3);
    Ok(())
}

/// Of a hundred requests of 31 bytes in one read the first part has 2,048 bytes: 66 requests, and two bytes that wait.
#[test]
fn requests_are_read_in_parts(rt: HostRuntime) -> Result<(), Fail> {
    let mut bytes = Vec::new(rt.alloc());
    for _ in 0..100 {
        bytes.extend_from_slice(b"OPTIONS * RTSP/1.0\r\nCSeq: 1\r\n\r\n")?;
    }
    let mut intake = Intake::new(rt.alloc(), ListSource::new(bytes, 65_536, None));
    assert!(rt; matches!(intake.next(), Next::Unit(Unit::Message(_))));
    // Bytes that were not fed, bytes that wait, and requests that are queued.
    assert_eq!(rt; intake.left(), (3_100 - 2_048) + 2 + 65);
    Ok(())
}
