//! Writing one frame.
ghost use Rattle.std.specs.Prelude.{◌≡◌, ◌≤◌, ◌<◌, true, length, take, IfErr, OnOk, OnErr};
ghost use Rattle.std.specs.Io.KnownBytes.{Appends};
ghost use Rattle.interleaved.specs.Frame.{frame_of};

use interleaved::{FRAME_HEAD, Sink, WriteCut, frame_head, write_all};

/// Writes the frame of the data on the channel (RFC 2326, 10.12), or as much of it as the sink takes.
pub(crate) fn write_frame<W: Sink>(
    writer: &mut W,
    channel: u8,
    payload: &[u8],
) -> Result<(), WriteCut>
    requires { length payload.now ≤ 65_535 }
    ensures ok { OnOk result (Appends (W.written writer.old) (W.written writer.new) (frame_of channel payload.now)) }
    ensures same { OnOk result (W.failed writer.new ≡ W.failed writer.old) }
    ensures cut { IfErr result (λ e. e.written < length (frame_of channel payload.now)) }
    ensures front { IfErr result (λ e. Appends (W.written writer.old) (W.written writer.new) (take e.written (frame_of channel payload.now))) }
    ensures failed { OnErr result (W.failed writer.new ≡ true) }
{
    let head = frame_head(channel, payload.len() as u16);
    write_all(writer, &head)?;
    match write_all(writer, payload) {
        Ok(()) => Ok(()),
        Err(WriteCut { written }) => Err(WriteCut {
            written: FRAME_HEAD + written,
        }),
    }
}
