//! The book of a server, which its threads share.
ghost use Rattle.std.specs.Prelude.{◌≤◌};

use crate::limits::KEPT_ENTRIES;
use session_lock::{Book, Retired};
use session_state::ConnectFault;
use std::alloc::{AllocError, Global};
use std::collections::hash_map::RandomState;
use std::sync::{Arc, Mutex, Wait};

/// A book that threads share. Each call of it is made whole under its lock, and no other lock is taken meanwhile.
pub type SharedBook<P> = Arc<Mutex<Book<P>>, Global>;

/// Makes a book for threads to share, in which nothing has happened. Each mount that is announced has `seats` seats.
pub fn shared_book<P: Drop>(
    alloc: Global,
    seats: usize,
    hasher: RandomState,
) -> Result<SharedBook<P>, AllocError>
    requires { seats ≤ 1024 }
{
    let book = Book::with_cut(alloc, seats, hasher, KEPT_ENTRIES);
    match Arc::new(alloc, Mutex::new(book)) {
        Ok(shared) => Ok(shared),
        Err(_) => Err(AllocError),
    }
}

/// Lets a connection into a book.
pub fn let_in<P: Drop>(rt: &impl Wait, book: &SharedBook<P>) -> Result<u64, ConnectFault> {
    let (came, retired) = connect(rt, book);
    // It may be the last to hold the descriptions of many mounts that have ended.
    drop(retired);
    came
}

/// Lets a connection in under the book's lock, which is free when this returns: so what the book has cut off is dropped without it.
fn connect<P: Drop>(
    rt: &impl Wait,
    book: &SharedBook<P>,
) -> (Result<u64, ConnectFault>, Option<Retired>) {
    let mut book = book.lock(rt);
    let came = book.connect();
    (came, book.retired())
}
