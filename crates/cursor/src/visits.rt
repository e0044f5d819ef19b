ghost use Rattle.std.specs.Prelude.{◌≡◌, ◌≤◌, ℕ, length};
ghost use Rattle.cursor.specs.declared.packets.Packet.{Packet};
ghost use Rattle.cursor.specs.Log.{packet_of};

/// Is shown packets where they lie, one after another.
pub trait Visit {
    /// The longest packet that it may be shown, in bytes.
    ghost packet_bytes: { Self → ℕ };

    /// Whether a look at this packet may leave the visitor so.
    ghost see_gives: { Self → Packet → Self → Type 0 };

    /// Looks at one packet. Its bytes are lent for this call alone.
    fn see(&mut self, tag: u8, bytes: &[u8])
        requires { length bytes.now ≤ packet_bytes self.old }
        ensures gives { see_gives self.old (packet_of tag bytes.now) self.new }
        ensures same { packet_bytes self.new ≡ packet_bytes self.old };
}
