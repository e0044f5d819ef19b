//! Why a client ends.

use crate::asked::{Asked, Side};
use crate::opened::SessionFault;
use crate::reply_channels::ChannelFault;

/// Why a client ends.
#[derive(Clone, Copy, Debug, PartialEq, Eq, Drop)]
pub enum End {
    /// The source refused DESCRIBE with this status.
    DescribeRefused { status: u16 },
    /// The description was elsewhere more than three times.
    TooManyRedirects,
    /// The description can't be read.
    DescriptionUnusable,
    /// The description has no track that can be used.
    NoUsableTrack,
    /// The source refused SETUP of each track, of the last one with this status.
    AllTracksRefused { status: u16 },
    /// The channels that a server gave a track can't be used.
    Channels { side: Side, fault: ChannelFault },
    /// The first reply to SETUP opened no session.
    Session { side: Side, fault: SessionFault },
    /// The target refused ANNOUNCE, SETUP or RECORD with this status.
    TargetRefused { asked: Asked, status: u16 },
    /// The target asks for a password.
    TargetAsksPassword,
    /// The source refused the password, or there is none.
    PasswordRefused,
    /// The server has no such session any more.
    SessionGone { side: Side },
    /// The source refused PLAY with this status.
    PlayRefused { status: u16 },
    /// There was no reply within ten seconds.
    NoReply { asked: Asked },
    /// All numbers of requests were used on this connection.
    NumbersUsedUp { side: Side },
    /// The stream has ended: its server closed the connection.
    StreamEnded { side: Side },
    /// The connection was lost, or what came on it can't be read.
    ConnectionLost { side: Side },
    /// The program was told to stop, and no session is open any more.
    Stopped,
}
