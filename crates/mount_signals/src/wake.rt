//! What wakes players: the thread that gathers the marks of a burst, and the word that writers sleep on.
//!
//! The waking thread runs here, and takes only the lock of the recording mounts. Publishers, and threads that give a send side
//! back, raise the word without a lock.
pub(crate) mod end_flag;
pub(crate) mod wake_signal;
pub(crate) mod wake_word;
pub(crate) mod waking_thread;
pub(crate) mod writers_word;
