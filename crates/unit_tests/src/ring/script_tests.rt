//! A worked run over devices that fail, and a long run.
use interleaved::{ListSink, ListSource};
use ring_script::{StepsEnd, run_steps, steps_end};
use std::alloc::{AllocError, Global};
use std::process::Abort;

/// A ring that keeps two packets passes a slow seat, which then counts its loss.
const LOST: &[u8] =
    b"keep 2\nseats 1\np 41\np 42\np 43\np 44\n0 attach\n0 take\n0 take\ngo 0 p*10 0 p*6 0*8\n";

const LOST_TRACE: &[u8] =
    b"0 0 load 0 0\n1 p begin 0 0 0\n2 p len 1\n3 p byte 41\n4 p finish 0 1 0\n5 p append 1\n6 p begin 0 0 0\n7 p len 1\n8 p byte 42\n9 p finish 0 1 0\n10 p append 2\n11 0 load 2 0\n12 p begin 0 0 0\n13 p len 1\n14 p byte 43\n15 p finish 0 1 0\n16 p append 3\n17 p begin 0 0 1\n18 0 pin 0 1 1\n19 0 unpin 1 1 1\n20 0 load 3 0\n21 0 load 3 0\n22 0 pin 0 0 2\n23 0 len 1\n24 0 byte 42\n25 0 unpin 1 0 2\n@0 0 attach 0\n@5 p appended 0\n@10 p appended 1\n@16 p appended 2\n@20 0 lost 1\n@21 0 took 1 42\n";

/// Returns what is written for this input, read in pieces of at most `piece` bytes, and how the run ends, in words.
fn steps(
    rt: &impl Abort,
    alloc: Global,
    input: &[u8],
    piece: usize,
    fail_at: Option<usize>,
    room: usize,
) -> String {
    let input = Vec::from_slice(alloc, input).expect(rt, "memory");
    let mut source = ListSource::new(input, piece.max(1), fail_at);
    let mut sink = ListSink::new(alloc, room).expect(rt, "memory");
    let end = run_steps(alloc, &mut source, &mut sink);
    let (_, line) = steps_end(alloc, &end).expect(rt, "memory");
    let text = String::from_utf8_lossy(alloc, sink.bytes()).expect(rt, "memory");
    format!(in alloc; "{text}{line}").expect(rt, "memory")
}

#[test]
fn reader_that_fails(rt: HostRuntime) {
    for place in 0..LOST.len() + 1 {
        let text = steps(&rt, rt.alloc(), LOST, 7, Some(place), 1000);
        assert_eq!(rt; text.as_str(), "relay: read failed", "{place}");
    }
}

#[test]
fn writer_of_each_room(rt: HostRuntime) {
    for room in 0..LOST_TRACE.len() {
        let text = steps(&rt, rt.alloc(), LOST, 1000, None, room);
        let written = text.as_bytes().strip_suffix(b"relay: write failed");
        assert_eq!(rt; written, Some(&LOST_TRACE[..room]));
    }
}

/// 100,000 publishes of six bytes, each of which is ten steps.
fn long_input(alloc: Global) -> Result<Vec<u8>, AllocError> {
    let mut input = Vec::from_slice(alloc, b"keep 7\nseats 1\n")?;
    for _ in 0..100_000 {
        input.extend_from_slice(b"p 000102030405\n")?;
    }
    input.extend_from_slice(b"go")?;
    for _ in 0..10 {
        input.extend_from_slice(b" p*100000")?;
    }
    Ok(input)
}

#[test]
fn a_million_steps(rt: HostRuntime) {
    let mut source = ListSource::new(long_input(rt.alloc()).expect(&rt, "memory"), 100_000, None);
    let mut sink = ListSink::new(rt.alloc(), 40_000_000).expect(&rt, "memory");
    let end = run_steps(rt.alloc(), &mut source, &mut sink);
    assert!(rt; end == StepsEnd::Done && sink.bytes().ends_with(b"@999999 p appended 99999\n"));
}
