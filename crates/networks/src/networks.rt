//! The networks of a command line's option.
ghost use Rattle.std.specs.Prelude.{◌≡◌, ◌↔◌, Any, IfErr, IfOk, IsTrue};
ghost use Rattle.networks.specs.Networks.{Holds};
ghost use Rattle.networks.specs.Reading.{AreNetworks, IsRefused, parts_of};

use crate::address::Address;
use crate::fault::NetworkFault;
use crate::network::Network;
use crate::text::read_network;
use base_syntax::cut;
use std::alloc::Global;
use std::marker::Model;

/// Networks, one or more. A contract sees their list.
#[derive(Debug, Drop)]
pub struct Networks {
    networks: Vec<Network>,
}

impl Model for Networks {
    ghost use Rattle.std.specs.Prelude.{List};
    ghost use Rattle.networks.specs.declared.network.Network.{Network};

    ghost Value = { List Network };

    ghost view = { λ n. n.networks.items };
}

impl Networks {
    /// The networks that a text has between its commas, each an address with its number of bits after a slash, or an
    /// address alone with all of its bits. The first one that is refused decides the error, unless memory runs out.
    pub fn read(alloc: Global, text: &str) -> Result<Networks, NetworkFault>
        ensures ok { IfOk result (AreNetworks (parts_of text.now)) }
        ensures err { IfErr result (IsRefused (parts_of text.now)) }
    {
        let mut networks = Vec::new(alloc);
        let mut rest = Some(text.as_bytes());
        while let Some(text) = rest {
            let (part, others) = cut(text, b',');
            networks.push(read_network(part)?)?;
            rest = others;
        }
        Ok(Networks { networks })
    }

    /// Whether an address is in one of the networks.
    pub fn contains(&self, address: Address) -> bool
        ensures { IsTrue result ↔ Any (λ network. Holds network address) self.now }
    {
        self.networks
            .iter()
            .any(|network| network.contains(address))
    }

    pub fn as_slice(&self) -> &[Network]
        ensures { result.now ≡ self.now }
    {
        self.networks.as_slice()
    }
}
