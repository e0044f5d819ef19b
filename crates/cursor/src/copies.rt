ghost use Rattle.std.specs.Prelude.{◌≡◌, length};

use crate::takes::copy_front;
use crate::visits::Visit;

/// A visitor that copies the packet that it is shown to the front of a buffer.
#[derive(Drop)]
pub struct Copying<'a> {
    buffer: &'a mut [u8],
}

impl<'a> Copying<'a> {
    pub fn new(buffer: &'a mut [u8]) -> Copying<'a>
        ensures same { result.buffer.ghost_name ≡ buffer.entry.ghost_name }
        ensures now { result.buffer.now ≡ buffer.old }
    {
        Copying { buffer }
    }
}

impl Visit for Copying<'_> {
    ghost use Rattle.cursor.specs.Visits.{IsCopied};

    ghost packet_bytes = { λ c. length c.buffer.now };

    ghost see_gives = { λ old packet new. (new.buffer.ghost_name ≡ old.buffer.ghost_name) × IsCopied packet old.buffer.now new.buffer.now };

    fn see(&mut self, tag: u8, bytes: &[u8]) {
        let _ = tag;
        let _len = copy_front(bytes, self.buffer);
    }
}
