//! What peers may do by their addresses.
ghost use Rattle.std.specs.Prelude.{◌≡◌, ◌↔◌, None, IfOk, IsTrue};
ghost use Rattle.networks.specs.Groups.{IsGroupOf};
ghost use Rattle.admission.specs.Access.{IsIn, IsLimitOf, IsListed};

use crate::peers::Peers;
use crate::rights::{MountPlace, Rights};
use networks::{Address, Networks};
use std::alloc::{AllocError, Global};
use std::sync::{Arc, Wait};

/// What peers may do by their addresses, and how much one address may have. This is no authentication: an address says where a
/// packet comes from, and not from whom.
#[derive(Debug, Drop)]
pub struct Access {
    /// From where mounts may be announced. `None` for everywhere.
    pub publish_from: Option<Networks>,
    /// From where mounts may be described and played. `None` for everywhere.
    pub play_from: Option<Networks>,
    /// How many connections an address may have. `None` for any number. IPv6 addresses with the same first 64 bits count as one.
    pub connections: Option<usize>,
    /// How many mounts an address may have, counted in the same way. `None` for any number.
    pub mounts: Option<usize>,
    /// Where the two limits don't apply.
    pub exempt: Option<Networks>,
    /// The addresses of proxies: a connection from one begins with a header that gives its client's address, which counts in its
    /// place. `None` for none.
    pub proxies: Option<Networks>,
}

impl Access {
    /// Everything may be done from everywhere.
    pub fn unlimited() -> Access
        ensures { result ≡ record { publish_from = None; play_from = None; connections = None; mounts = None; exempt = None; proxies = None } }
    {
        Access {
            publish_from: None,
            play_from: None,
            connections: None,
            mounts: None,
            exempt: None,
            proxies: None,
        }
    }

    /// Whether one more connection of an address is too many.
    pub fn is_full(&self, rt: &impl Wait, peers: &Peers, address: Address) -> bool {
        match self.room_of(address) {
            (group, Some(most)) => peers.connections(rt, group) >= most,
            (_, None) => false,
        }
    }

    /// Returns the group by which an address's connections are counted, and how many of them there may be. `None` for any number.
    pub fn room_of(&self, address: Address) -> (Address, Option<usize>)
        ensures group { IsGroupOf address result.0 }
        ensures most { IsLimitOf self.now.exempt self.now.connections address result.1 }
    {
        (address.group(), self.limit_of(self.connections, address))
    }

    /// Whether a connection of this address begins with a proxy's header.
    pub fn is_proxy(&self, address: Address) -> bool
        ensures { IsTrue result ↔ IsListed self.now.proxies address }
    {
        match &self.proxies {
            Some(networks) => networks.contains(address),
            None => false,
        }
    }

    /// One of the two limits, as it applies to an address.
    fn limit_of(&self, most: Option<usize>, address: Address) -> Option<usize>
        ensures { IsLimitOf self.now.exempt most address result }
    {
        match &self.exempt {
            Some(networks) if networks.contains(address) => None,
            _ => most,
        }
    }

    /// What a connection of an address may do.
    pub fn rights(
        &self,
        peers: &Arc<Peers, Global>,
        conn: u64,
        address: Address,
    ) -> Result<Rights, AllocError>
        ensures publish { IfOk result (λ rights. IsTrue rights.may_publish ↔ IsIn self.now.publish_from address) }
        ensures play { IfOk result (λ rights. IsTrue rights.may_play ↔ IsIn self.now.play_from address) }
        ensures mounts { IfOk result (λ rights. IsLimitOf self.now.exempt self.now.mounts address rights.most_mounts) }
    {
        let place = match self.limit_of(self.mounts, address) {
            Some(most) => Some(MountPlace {
                peers: Arc::try_clone(peers)?,
                conn,
                most,
                is_taken: false,
            }),
            None => None,
        };
        Ok(Rights {
            may_publish: is_in(&self.publish_from, address),
            may_play: is_in(&self.play_from, address),
            place,
        })
    }
}

/// Whether an address is in these networks, of which `None` is everywhere.
fn is_in(networks: &Option<Networks>, address: Address) -> bool
    ensures { IsTrue result ↔ IsIn networks.now address }
{
    match networks {
        Some(networks) => networks.contains(address),
        None => true,
    }
}
