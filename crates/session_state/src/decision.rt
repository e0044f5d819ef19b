//! What a request comes to, for whoever writes it down.

use crate::act::Act;
use rtsp_message::Reply;

/// What a request is answered, with a copy of the reply.
#[derive(Drop)]
pub struct Decision {
    pub reply: Reply,
    /// The same reply, for the entry.
    pub copy: Reply,
    pub act: Act,
}
