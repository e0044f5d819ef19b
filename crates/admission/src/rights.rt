//! What a connection may do by the address of its peer.
ghost use Rattle.std.specs.Prelude.{◌≡◌, ◌↔◌, None, IsTrue};
ghost use Rattle.admission.specs.Access.{everything};
ghost use Rattle.admission.specs.Barred.{barred as barred_by};

use crate::peers::Peers;
use rtsp_message::Status;
use session_state::Method;
use std::alloc::Global;
use std::marker::Model;
use std::sync::{Arc, Wait};

/// What a connection may do by its peer's address.
pub struct Rights {
    pub(crate) may_publish: bool,
    pub(crate) may_play: bool,
    /// The mount that counts for its address, if those are limited.
    pub(crate) place: Option<MountPlace>,
}

impl Drop for Rights {
    fn drop(self) {
        let Rights {
            may_publish: _,
            may_play: _,
            place: _,
        } = self;
    }
}

impl Model for Rights {
    ghost use Rattle.std.specs.Option.{option_map};
    ghost use Rattle.admission.specs.Access.{Granted};

    ghost Value = { Granted };

    ghost view = { λ r. record { may_publish = r.may_publish; may_play = r.may_play; most_mounts = option_map (λ place. place.most) r.place } };
}

/// The mount of a connection, which counts for its address.
#[derive(Drop)]
pub(crate) struct MountPlace {
    pub(crate) peers: Arc<Peers, Global>,
    pub(crate) conn: u64,
    /// How many mounts the address may have.
    pub(crate) most: usize,
    /// Whether the connection has a mount, or is about to have one.
    pub(crate) is_taken: bool,
}

impl Rights {
    /// Everything.
    pub fn all() -> Rights
        ensures { result ≡ everything }
    {
        Rights::new(true, true)
    }

    /// To publish, to play, or not, any number of mounts.
    pub fn new(may_publish: bool, may_play: bool) -> Rights
        ensures { result ≡ record { may_publish = may_publish; may_play = may_play; most_mounts = None } }
    {
        Rights {
            may_publish,
            may_play,
            place: None,
        }
    }

    /// Whether no request is refused by them.
    pub fn are_all(&self) -> bool
        ensures { IsTrue result ↔ self.now ≡ everything }
    {
        self.may_publish && self.may_play && self.place.is_none()
    }

    /// How a request of this method is refused, if it is. An ANNOUNCE that isn't counts as a mount of its address from now on.
    pub fn refuses(&mut self, rt: &impl Wait, method: Method, has_mount: bool) -> Option<Status> {
        if let Some(status) = barred(self.may_publish, self.may_play, method, has_mount) {
            return Some(status);
        }
        match &mut self.place {
            Some(place) if method == Method::Announce => {
                place.is_taken = place.peers.take_mount(rt, place.conn, place.most);
                (!place.is_taken).then_some(Status::ServiceUnavailable)
            }
            _ => None,
        }
    }

    /// The connection has no mount, or none any more.
    pub fn leave_mount(&mut self, rt: &impl Wait) {
        if let Some(place) = &mut self.place {
            if place.is_taken {
                place.is_taken = false;
                place.peers.leave_mount(rt, place.conn);
            }
        }
    }
}

/// How a request of this method is refused on a connection that may publish, may play, and has a mount that lives, or not.
fn barred(may_publish: bool, may_play: bool, method: Method, has_mount: bool) -> Option<Status>
    ensures { result ≡ barred_by may_publish may_play method has_mount }
{
    match method {
        Method::Announce if !may_publish => Some(Status::Forbidden),
        Method::Describe if !may_play => Some(Status::Forbidden),
        Method::Setup if !may_play && !has_mount => Some(Status::Forbidden),
        _ => None,
    }
}
