//! What sends the frames of a connection's players: its send side, and a writer, which has many players, or a frame thread of the
//! connection's own.
//!
//! Writers and frame threads run here; the thread that reads a connection starts and stops them and writes its replies. A frame
//! thread holds the seat's lock while it sends, a writer for one look. The sink's lock is held for one write: a frame thread or
//! a reply may wait for the peer under it, a writer never does. Under both only the lock of the mount's pace is taken.
pub(crate) mod batch;
pub(crate) mod coming;
pub(crate) mod counted;
pub(crate) mod fewest;
pub(crate) mod frame_thread;
pub(crate) mod gather;
pub(crate) mod given_back;
pub(crate) mod line_done;
pub(crate) mod marked_line;
pub(crate) mod phase;
pub(crate) mod player_list;
pub(crate) mod ring_look;
pub(crate) mod seat_hold;
pub(crate) mod send_side;
pub(crate) mod sent_frames;
pub(crate) mod sweeping;
pub(crate) mod tap_place;
pub(crate) mod waits;
pub(crate) mod way;
pub(crate) mod writer_buffers;
pub(crate) mod writer_look;
pub(crate) mod writer_player;
pub(crate) mod writers;
pub(crate) mod writing_side;
