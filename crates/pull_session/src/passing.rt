//! Frames of the source that go on in the block that they were read into.
ghost use Rattle.std.specs.Prelude.{◌≡◌, ◌+◌, ◌≤◌, ◌⊎◌, ℕ, [], List, None, IsSome, IsTrue, drop, length, map, max, min, take, vec_capacity};
ghost use Rattle.interleaved.specs.declared.frame.Frame.{Frame as Block};
ghost use Rattle.interleaved.specs.Frame.{FrameBegins};
ghost use Rattle.rtsp_message.specs.Stream.{Waits};
ghost use Rattle.rtsp_message.specs.declared.unit.Unit.TheVariants.{Frame};
ghost use Rattle.pull_session.specs.Blocks.{AreFrames, frame_in, with_block};
ghost use Rattle.pull_session.specs.Passing.{CountsFrame, LosesFrame, Passes, StaysUnread, TakesFrame, TakesUnits, pass_state};

use crate::limits::BLOCK_BYTES;
use crate::reason::Reason;
use crate::session::PullSession;
use interleaved::{FRAME_HEAD, FrameAt, frame_at};
use rtsp_client::{FrameFate, Side};

impl PullSession {
    /// Takes this block for what waits for the target, if nothing waits. Blocks are exchanged later only if this one has 65,536 bytes or more.
    pub fn give_block(&mut self, mut block: Vec<u8>)
        ensures { self.new ≡ self.old ⊎ self.new ≡ with_block (vec_capacity block) block.items self.old }
    {
        if self.target_line.waiting.is_empty() {
            self.target_line.waiting.swap(&mut block);
        }
    }

    /// Exchanges the block for that of what waits for the target, if nothing waits. So the source can be read into the same block again
    /// after the target took all of it. A block of fewer than 65,536 bytes isn't given.
    pub fn swap_block(&mut self, block: &mut Vec<u8>)
        ensures same { self.new ≡ self.old ⊎ self.new ≡ with_block (vec_capacity block.old) block.old.items self.old }
        ensures long { min 65_536 (length block.old.items) ≤ length block.new.items }
        ensures room { vec_capacity block.new ≤ max (vec_capacity block.old) self.old.target.waiting.room }
    {
        if self.may_take() {
            self.target_line.waiting.swap(block);
        }
    }

    /// The first bytes of this block came of the source at this moment. They are read as by `read`, but whole frames at their front aren't
    /// copied if nothing waits for the target: the block is exchanged for that of what waits, of 65,536 bytes or more.
    pub fn read_block(&mut self, block: &mut Vec<u8>, count: usize, now: u64)
        requires { count ≤ length block.old.items }
        ensures frames { self.old.client.end ≡ None → Passes (take count block.old.items) now self.old self.new
            ⊎ (Passes (take count block.old.items) now (with_block (vec_capacity block.old) block.old.items self.old) self.new ⊎ StaysUnread self.old self.new) }
        ensures ended { IsSome self.old.client.end → self.new ≡ self.old }
        ensures long { min 65_536 (length block.old.items) ≤ length block.new.items }
        ensures room { vec_capacity block.new ≤ max (vec_capacity block.old) self.old.target.waiting.room }
        ensures mount { self.new.mount ≡ self.old.mount }
    {
        if self.client.end().is_some() {
            return;
        }
        let len = if self.may_pass() {
            whole_frames(&block[..count])
        } else {
            0
        };
        if len == 0 {
            self.read_source(&block[..count], now);
        } else {
            self.read_frames(block, len, count, now);
        }
    }

    /// Returns whether blocks can be exchanged: nothing waits for the target, and the block for that has 65,536 bytes or more.
    fn may_take(&self) -> bool
        ensures empty { IsTrue result → self.now.target.waiting.items ≡ [] }
        ensures room { IsTrue result → 65_536 ≤ length self.now.target.waiting.free }
    {
        let waiting = &self.target_line.waiting;
        waiting.is_empty() && waiting.free().len() >= BLOCK_BYTES
    }

    /// Returns whether frames at the front of a block can go on in it: blocks can be exchanged, and no unit of the source is under way.
    fn may_pass(&self) -> bool
        ensures empty { IsTrue result → self.now.target.waiting.items ≡ [] }
        ensures room { IsTrue result → 65_536 ≤ length self.now.target.waiting.free }
        ensures idle { IsTrue result → self.now.source.reader.state.reading ≡ Waits [] }
    {
        let reader = &self.source_line.reader;
        self.may_take() && reader.waiting() == 0 && reader.fault().is_none()
    }

    /// The first bytes of this block came of the source, and the first of these are whole frames. The others are read first, since there
    /// may be no memory for them.
    fn read_frames(&mut self, block: &mut Vec<u8>, len: usize, count: usize, now: u64)
        requires within { (len ≤ count) × (count ≤ length block.old.items) }
        requires empty { self.old.target.waiting.items ≡ [] }
        requires room { 65_536 ≤ length self.old.target.waiting.free }
        requires idle { self.old.source.reader.state.reading ≡ Waits [] }
        requires frames { (frames : List Block) × AreFrames (take len block.old.items) frames }
        ensures passes { Passes (take count block.old.items) now (with_block (vec_capacity block.old) block.old.items self.old) self.new ⊎ StaysUnread self.old self.new }
        ensures long { min 65_536 (length block.old.items) ≤ length block.new.items }
        ensures block_room { vec_capacity block.new ≤ max (vec_capacity block.old) self.old.target.waiting.room }
        ensures mount { self.new.mount ≡ self.old.mount }
    {
        match self.source_line.reader.feed(&block[len..count]) {
            Ok(fed) => {
                self.target_line.waiting.swap(block);
                self.pass_frames(len, now);
                self.take_fed(fed, now);
            }
            Err(_) => self.fail(Reason::OutOfMemory, Side::Source),
        }
    }

    /// Takes the whole frames that are the first bytes of the room after what waits for the target.
    fn pass_frames(&mut self, len: usize, now: u64)
        requires within { len ≤ length self.old.target.waiting.free }
        requires frames { (frames : List Block) × AreFrames (take len self.old.target.waiting.free) frames }
        ensures takes { (frames : List Block) × AreFrames (take len self.old.target.waiting.free) frames
            × TakesUnits (map Frame frames) now (pass_state self.old) (pass_state self.new) }
        ensures source { self.new.source ≡ self.old.source }
        ensures target { self.new.target ≡ record self.old.target { waiting = self.new.target.waiting } }
        ensures mount { self.new.mount ≡ self.old.mount }
    {
        let mut from = 0;
        let mut at = 0;
        while from < len {
            let FrameAt::Whole(size) = frame_at(&self.target_line.waiting.free()[at..]) else {
                break;
            };
            at = self.pass_frame(at, size, now);
            from += size;
        }
    }

    /// Takes the frame that is in the room after what waits for the target, `at` bytes after it. Returns where the next one is then.
    fn pass_frame(&mut self, at: usize, size: usize, now: u64) -> usize
        requires { FrameBegins (drop at self.old.target.waiting.free) size }
        ensures taken { TakesFrame (frame_in (take size (drop at self.old.target.waiting.free))) now (pass_state self.old) (pass_state self.new)
            ⊎ LosesFrame (frame_in (take size (drop at self.old.target.waiting.free))) now (pass_state self.old) (pass_state self.new) }
        ensures next { drop result self.new.target.waiting.free ≡ drop (at + size) self.old.target.waiting.free }
        ensures source { self.new.source ≡ self.old.source }
        ensures target { self.new.target ≡ record self.old.target { waiting = self.new.target.waiting } }
        ensures mount { self.new.mount ≡ self.old.mount }
    {
        // Its length bounds the sum.
        let _room = self.target_line.waiting.free().len();
        let next = at + size;
        match self.frame_fate(at, size) {
            FrameFate::Waits { channel } => {
                self.watch.hears(now);
                let put = self.target_line.waiting.put_in_place(at, size, channel);
                if put.is_ok() {
                    at
                } else {
                    self.fail(Reason::OutOfMemory, Side::Target);
                    next
                }
            }
            FrameFate::UnknownChannel => next,
            FrameFate::BeforeRecording => next,
            FrameFate::Unsent => next,
        }
    }

    /// Counts the frame and returns what becomes of it.
    fn frame_fate(&mut self, at: usize, size: usize) -> FrameFate
        requires { FrameBegins (drop at self.old.target.waiting.free) size }
        ensures counts { CountsFrame (frame_in (take size (drop at self.old.target.waiting.free))) result self.old.client self.new.client.passage }
        ensures others { self.new.client ≡ record self.old.client { passage = self.new.client.passage } }
        ensures watch { self.new.watch ≡ self.old.watch }
        ensures source { self.new.source ≡ self.old.source }
        ensures target { self.new.target ≡ self.old.target }
        ensures mount { self.new.mount ≡ self.old.mount }
    {
        let frame = &self.target_line.waiting.free()[at..at + size];
        self.client.frame(frame[1], &frame[FRAME_HEAD..])
    }
}

/// Returns how many bytes the whole frames at the front of some bytes have, all of them.
fn whole_frames(bytes: &[u8]) -> usize
    ensures within { result ≤ length bytes.now }
    ensures frames { (frames : List Block) × AreFrames (take result bytes.now) frames }
    ensures all { (size : ℕ) → ¬ FrameBegins (drop result bytes.now) size }
{
    let mut len = 0;
    while len < bytes.len() {
        let rest = &bytes[len..];
        if rest.first() != Some(&b'$') {
            break;
        }
        let FrameAt::Whole(size) = frame_at(rest) else {
            break;
        };
        len += size;
    }
    len
}
