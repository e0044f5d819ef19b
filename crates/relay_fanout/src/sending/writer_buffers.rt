//! What a writer has of its own for its looks.
ghost use Rattle.std.specs.Prelude.{◌≡◌, ◌≢◌, ◌≤◌, ◌<◌, ◌+◌, [], length, max, IfOk, IfSome, OnOk, OnErr};
ghost use Rattle.relay_fanout.specs.WriterBuffers.{longest_with};

use crate::limits::GATHERED;
use crate::sending::batch::Line;
use interleaved::{FRAME_HEAD, Sink};
use std::alloc::{AllocError, Global};
use std::mem;

/// A writer's own buffers: one for a packet that is taken, and one for the frames of a look, which the player's line has meanwhile. One that
/// a line kept and gives back is the spare one.
#[derive(Drop)]
pub(crate) struct WriterBuffers {
    alloc: Global,
    pub(super) packet: Vec<u8>,
    frames: Vec<u8>,
    spare: Vec<u8>,
}

/// A line has a writer's buffer, or keeps its own. It has no `Drop`, so that it ends in `take_back`.
pub(super) struct Lent(());

impl WriterBuffers {
    /// Takes no memory.
    pub(super) fn new(alloc: Global) -> WriterBuffers {
        WriterBuffers {
            alloc,
            packet: Vec::new(alloc),
            frames: Vec::new(alloc),
            spare: Vec::new(alloc),
        }
    }

    /// Makes them large enough for packets of this number of bytes. The only error is out of memory.
    pub(super) fn fit(&mut self, packet_bytes: usize) -> Result<(), AllocError>
        ensures packet { OnOk result (packet_bytes ≤ length self.new.packet.items) }
        ensures frames { OnOk result (packet_bytes + 32_772 ≤ length self.new.frames.items) }
        ensures packet_most { OnOk result (length self.new.packet.items ≤ max packet_bytes (length self.old.packet.items)) }
        ensures most { length self.new.frames.items ≤ longest_with (packet_bytes + 32_772) self.old }
        ensures spare { length self.new.spare.items ≤ longest_with 0 self.old }
    {
        if self.packet.len() < packet_bytes {
            self.packet.resize(packet_bytes, 0)?;
        }
        let size = frames_size(packet_bytes).ok_or(AllocError)?;
        self.make_frames(size)
    }

    /// Gives a line that keeps nothing the buffer for frames.
    pub(super) fn lend<W: Sink + Drop>(&mut self, line: &mut Line<W>) -> Lent
        ensures line { (line.new.inner ≡ line.old.inner) × (line.new.kept ≡ line.old.kept) }
        ensures lent { line.old.kept ≡ [] → line.new.size ≡ length self.old.frames.items }
        ensures had { line.old.kept ≡ [] → length self.new.frames.items ≡ line.old.size }
        ensures keeps { line.old.kept ≢ [] → (self.new ≡ self.old) × (line.new ≡ line.old) }
        ensures packet { (self.new.packet ≡ self.old.packet) × (self.new.spare ≡ self.old.spare) }
    {
        let _ = line.swap_buffer(&mut self.frames);
        Lent(())
    }

    /// Takes the buffer back from a line that keeps nothing, which has none then. A line that keeps something keeps its buffer, and another
    /// one is made. The only error is out of memory: then what the line kept is dropped, and the buffer is taken back.
    pub(super) fn take_back<W: Sink + Drop>(
        &mut self,
        lent: Lent,
        line: &mut Line<W>,
    ) -> Result<(), AllocError>
        ensures inner { line.new.inner ≡ line.old.inner }
        ensures kept { OnOk result (line.new.kept ≡ line.old.kept) }
        ensures gives { OnOk result (line.old.kept ≡ [] → line.new.size ≡ 0) }
        ensures again { line.old.size ≤ length self.new.frames.items }
        ensures most { length self.new.frames.items ≤ longest_with line.old.size self.old }
        ensures spare { length self.new.spare.items ≤ longest_with 0 self.old }
        ensures longer { OnOk result (line.old.kept ≡ [] → length self.new.spare.items ≡ longest_with 0 self.old) }
        ensures packet { self.new.packet ≡ self.old.packet }
        ensures refused { OnErr result ((line.old.kept ≢ []) × (line.new.kept ≡ []) × (line.new.size ≡ 0)) }
    {
        let Lent(()) = lent;
        let mut buffer = Vec::new(self.alloc);
        if line.swap_buffer(&mut buffer) {
            self.keep_spare();
            self.frames = buffer;
            return Ok(());
        }
        let made = self.make_frames(line.size());
        if made.is_err() {
            line.clear();
            let _ = line.swap_buffer(&mut buffer);
            self.frames = buffer;
        }
        made
    }

    /// Takes the spare buffer for frames, or makes one, if the one that it has is shorter than this.
    fn make_frames(&mut self, size: usize) -> Result<(), AllocError>
        ensures frames { OnOk result (size ≤ length self.new.frames.items) }
        ensures same { size ≤ length self.old.frames.items → self.new ≡ self.old }
        ensures most { length self.new.frames.items ≤ longest_with size self.old }
        ensures spare { length self.new.spare.items ≤ longest_with 0 self.old }
        ensures packet { self.new.packet ≡ self.old.packet }
    {
        if self.frames.len() < size {
            mem::swap(&mut self.frames, &mut self.spare);
        }
        if self.frames.len() < size {
            self.frames = Vec::from_elem(self.alloc, 0, size)?;
        }
        Ok(())
    }

    /// What a line had before this look is the spare buffer, unless there is a longer one.
    fn keep_spare(&mut self)
        ensures longer { length self.new.spare.items ≡ longest_with 0 self.old }
        ensures packet { self.new.packet ≡ self.old.packet }
    {
        if self.spare.len() < self.frames.len() {
            mem::swap(&mut self.frames, &mut self.spare);
        }
    }
}

/// Returns a buffer for what is gathered of the frames of packets of this number of bytes. The only error is out of memory.
pub(super) fn frames_buffer(alloc: Global, packet_bytes: usize) -> Result<Vec<u8>, AllocError>
    ensures { IfOk result (λ buffer. length buffer.items ≡ packet_bytes + 32_772) }
{
    let size = frames_size(packet_bytes).ok_or(AllocError)?;
    Vec::from_elem(alloc, 0, size)
}

/// Returns the length of a buffer in which a frame has room after what is gathered for one write (`GATHERED`), in bytes.
fn frames_size(packet_bytes: usize) -> Option<usize>
    ensures { IfSome result (λ size. size ≡ packet_bytes + 32_772) }
{
    packet_bytes.checked_add(GATHERED + FRAME_HEAD)
}
