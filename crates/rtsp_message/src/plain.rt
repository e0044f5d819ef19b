//! Replies without memory.
ghost use Rattle.std.specs.Prelude.{◌≡◌, ◌++◌, ◌+◌, ◌≤◌, length, take};
ghost use Rattle.rtsp_message.specs.Reply.{plain_text};

use crate::status::Status;
use itoa::Buffer;

/// Writes a reply that has no field but CSeq to the front of `out`, and answers its length. It takes no memory.
pub fn put_plain(out: &mut [u8; 128], status: Status, cseq: Option<u32>) -> usize
    ensures fits { result ≤ 128 }
    ensures text { take result out.new ≡ plain_text status cseq }
{
    let mut digits = Buffer::new();
    let at = put_at(out, 0, b"RTSP/1.0 ");
    let at = put_at(out, at, digits.format(status.code()).as_bytes());
    let at = put_at(out, at, b" ");
    let at = put_at(out, at, status.reason().as_bytes());
    let at = put_at(out, at, b"\r\n");
    let at = match cseq {
        None => at,
        Some(number) => {
            let at = put_at(out, at, b"CSeq: ");
            let at = put_at(out, at, digits.format(number).as_bytes());
            put_at(out, at, b"\r\n")
        }
    };
    put_at(out, at, b"\r\n")
}

/// Writes bytes at a place, and answers the place after them.
fn put_at(out: &mut [u8], at: usize, bytes: &[u8]) -> usize
    requires { at + length bytes.now ≤ length out.old }
    ensures end { result ≡ at + length bytes.now }
    ensures front { take result out.new ≡ take at out.old ++ bytes.now }
{
    let end = at + bytes.len();
    out[at..end].copy_from_slice(bytes);
    end
}
