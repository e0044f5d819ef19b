//! What the definitions of this crate mean, as theorems that call nothing.
ghost use Rattle.std.specs.Prelude.{◌≡◌, ◌↔◌, ℕ, List};
ghost use Rattle.networks.specs.declared.address.Address.{Address};
ghost use Rattle.networks.specs.declared.fault.NetworkFault.{NetworkFault};
ghost use Rattle.networks.specs.declared.network.Network.{Network};
ghost use Rattle.networks.specs.Addresses.{FitsFamily};
ghost use Rattle.networks.specs.Groups.{IsGroupOf, AreCountedTogether};
ghost use Rattle.networks.specs.Reading.{IsFaulty, Spells};

/// Two addresses have one group exactly if they are equal IPv4 addresses, or IPv6 addresses whose first 64 bits agree.
pub fn groups()
    ensures { (a b g h : Address) → FitsFamily g → FitsFamily h → IsGroupOf a g → IsGroupOf b h → (g ≡ h) ↔ AreCountedTogether a b }
{}

/// A text writes one network at most, and one that is refused for any reason writes none.
pub fn reading()
    ensures address { (text : List ℕ) (a b : Network) → Spells text a → Spells text b → a.address ≡ b.address }
    ensures bits { (text : List ℕ) (a b : Network) → Spells text a → Spells text b → a.bits ≡ b.bits }
    ensures refused { (text : List ℕ) (network : Network) (fault : NetworkFault) → Spells text network → IsFaulty text fault → ⊥ }
{}
