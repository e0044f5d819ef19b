//! Sessions of a talk that expire.
ghost use Rattle.std.specs.Prelude.{⊤};

use crate::talk::devices::{Host, in_pieces, made_host, outcome_at};
use crate::talk::exchange_tests::{ANNOUNCED, CAMERA, DESCRIBED, IS_SET_UP, RECORDS};
use relay_talk::TalkEnd;
use session_state::Moments;
use session_words::FixedWord;
use std::test::Fail;

/// A clock that is at each of these moments in turn, and then at the maximum.
#[derive(Drop)]
struct Listed {
    moments: &'static [u64],
    /// How often it was read.
    asked: usize,
}

impl Moments for Listed {
    ghost gives = { λ _ _ _. ⊤ };

    fn now(&mut self) -> u64 {
        let place = self.asked;
        self.asked = place.saturating_add(1);
        self.moments.get(place).copied().unwrap_or(u64::MAX)
    }
}

/// What a camera is sent if its session has expired before its RECORD: its mount has ended, too.
const EXPIRED: [&[u8]; 4] = [
    ANNOUNCED,
    IS_SET_UP,
    b"RTSP/1.0 454 Session Not Found\r\nCSeq: 4\r\n\r\n",
    b"RTSP/1.0 404 Not Found\r\nCSeq: 5\r\n\r\n",
];

/// What it is sent else.
const LIVES: [&[u8]; 4] = [ANNOUNCED, IS_SET_UP, RECORDS, DESCRIBED];

/// The moments of a camera's four messages, what comes in before its RECORD, and what it is sent.
const ROWS: [(&[u64], &[u8], [&[u8]; 4]); 9] = [
    (&[0, 0, 0, 0], b"", LIVES),
    (&[5, 1_000, 60_999, 120_998], b"", LIVES),
    (&[5, 1_000, 61_000, 61_000], b"", EXPIRED),
    // A frame is heard, too, whatever becomes of it, and part of one isn't whole before the message is.
    (&[5, 1_000, 61_000, 61_000], b"$\x04\x00\x01x", LIVES),
    (&[5, 1_000, 1_000_000, 1_059_999], b"$\x00\x00\x00", LIVES),
    // Blank lines are no message.
    (&[5, 1_000, 61_000, 61_000], b"\r\n\r\n", EXPIRED),
    // The clock jumps ahead by a day, and as far as it can.
    (&[5, 1_000, 86_401_000, 86_401_000], b"", EXPIRED),
    (&[0, 0, u64::MAX, u64::MAX], b"", EXPIRED),
    // It goes back.
    (&[1_000_000, 1_000_000, 0, 0], b"", LIVES),
];

/// Returns whether a camera is sent the expected replies, and the clock was read once for each message.
fn is_told(
    host: Host,
    moments: &'static [u64],
    before: &[u8],
    want: &[&[u8]],
) -> Result<bool, Fail> {
    let (first, last) = CAMERA.sent.split_at(2);
    let sent = [
        first.concat(host.alloc)?.as_slice(),
        before,
        last.concat(host.alloc)?.as_slice(),
    ]
    .concat(host.alloc)?;
    let mut moments = Listed { moments, asked: 0 };
    let mut word = FixedWord(0xabcd);
    let outcome = outcome_at(host, &sent, in_pieces(7), &mut word, &mut moments)?;
    let read = want.concat(host.alloc)?;
    let is_read = outcome.written.as_slice() == read.as_slice();
    Ok(is_read && outcome.end == TalkEnd::Done && moments.asked == 4)
}

#[test]
fn a_session_expires_at_sixty_seconds_of_silence(rt: HostRuntime) -> Result<(), Fail> {
    let host = made_host(&rt, 0xabcd)?;
    for (moments, before, want) in &ROWS {
        assert!(rt; is_told(host, moments, before, want)?, "{moments:?}");
    }
    Ok(())
}
