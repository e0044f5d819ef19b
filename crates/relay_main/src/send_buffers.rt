//! The send buffers of a server's connections.

use log::{Log, warn};
use relay_command::SendBuffer;
use relay_server::set_send_buffer;
use std::net::{Net, TcpListener, TcpStream};

/// The source that lines are logged with.
const TARGET: &str = "relay_main::serve";

/// The send buffer of a connection if no other is asked for, in bytes: a burst of a camera's key frame fits in it.
const SEND_BUFFER: u32 = 524_288;

/// Bounds the send buffer of each connection that the listener accepts. The default is set if the system grants all of it: with
/// less a burst loses more than with what the system does by itself. Returns how many bytes the system grants, if these are fewer.
pub(crate) fn bound_send_buffers<R>(
    rt: &R,
    listener: &TcpListener,
    buffer: SendBuffer,
) -> Option<u32>
where
    R: Net<Listener = TcpListener, Stream = TcpStream>,
{
    match buffer {
        SendBuffer::System => None,
        SendBuffer::Bytes(bytes) => fewer_than(listener, bytes),
        SendBuffer::Default => {
            // Of another listener, since what was set once isn't taken back.
            let Ok(other) = TcpListener::bind(rt, "127.0.0.1:0") else {
                return fewer_than(listener, SEND_BUFFER);
            };
            match fewer_than(&other, SEND_BUFFER) {
                Some(granted) => Some(granted),
                None => fewer_than(listener, SEND_BUFFER),
            }
        }
    }
}

/// Sets a listener's send buffer. Returns how many bytes the system grants, if these are fewer.
fn fewer_than(listener: &TcpListener, bytes: u32) -> Option<u32> {
    let granted = set_send_buffer(listener, bytes).unwrap_or(0);
    (granted < bytes).then_some(granted)
}

/// Warns that send buffers aren't what was asked for, or aren't bounded.
pub(crate) fn warn_of_buffers<R: Log>(rt: &R, buffer: SendBuffer, granted: u32) {
    match buffer {
        SendBuffer::System => {}
        SendBuffer::Bytes(bytes) => {
            warn!(rt; target: TARGET, "send buffers have {granted} bytes, fewer than the {bytes} asked for: net.core.wmem_max is too small")
        }
        SendBuffer::Default => {
            warn!(rt; target: TARGET, "send buffers are the system's own, since it grants {granted} bytes, fewer than {SEND_BUFFER}: net.core.wmem_max is too small")
        }
    }
}
