//! What holds of every run of puts and takings, however many bytes the system takes at a time.
ghost use Rattle.std.specs.Prelude.{◌≡◌, ◌≤◌, ◌++◌, [], ℕ, List, length, map};
ghost use Rattle.std.specs.List.{count_by};
ghost use Rattle.rtsp_message.specs.Stream.{Reads, Waits};
ghost use Rattle.request_text.specs.Sending.{Sent, sent_unit};
ghost use Rattle.outgoing.specs.Items.{Item, Sends, is_frame};
ghost use Rattle.outgoing.specs.Queues.{Queue, bytes_waiting};
ghost use Rattle.outgoing.specs.Rooms.{HasGoneWithin};
ghost use Rattle.outgoing.specs.Runs.{AreWhole, Event, HasGone, bytes_taken, frames_taken, items_put, texts_of};

/// Whatever was put and taken: what was taken and then what waits are the texts of all items that were put, in order. So what
/// was taken is always a beginning of them. And the frames that were counted as taken are those whose text lies wholly within
/// what was taken.
pub fn runs()
    ensures stream { (events : List Event) (queue : Queue) → HasGone events queue
        → bytes_taken events ++ bytes_waiting queue ≡ texts_of (items_put events) }
    ensures frames { (events : List Event) (queue : Queue) → HasGone events queue
        → (whole : List Item) × (others : List Item) × AreWhole (length (bytes_taken events)) (items_put events) whole others × (frames_taken events ≡ count_by is_frame whole) }
{}

/// If no replies were put, a reader of all that was put reads its requests and frames, in order, and nothing is left over.
pub fn readers()
    ensures { (events : List Event) (queue : Queue) (sent : List Sent) → HasGone events queue → items_put events ≡ map Sends sent
        → Reads (bytes_taken events ++ bytes_waiting queue) (map sent_unit sent) (Waits []) }
{}

/// If items are put only while it isn't full, and no block that it takes has more, it holds memory for at most 819,196 bytes of
/// texts: twice 262,143 that wait, an item of 73,728 more, and 73,727 of the first item that were taken.
pub fn rooms()
    ensures { (events : List Event) (queue : Queue) → HasGoneWithin events queue → queue.room ≤ 819_196 }
{}
