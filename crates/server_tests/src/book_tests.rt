//! The book that the connections of a server share.
use packet_ring::Pass;
use relay_connection::{SharedBook, shared_book};
use relay_fanout::Seat;
use std::collections::hash_map::RandomState;

/// When the next connection comes, they are cut off, and only its own entry is kept.
#[test]
fn a_servers_book_keeps_forty_entries(rt: HostRuntime) {
    let alloc = rt.alloc();
    let hasher = RandomState::new(&rt).expect(&rt, "random bytes");
    let book: SharedBook<Seat<Pass>> = shared_book(alloc, 1, hasher).expect(&rt, "memory");
    let mut book = book.lock(&rt);
    for count in 1..41usize {
        assert!(rt; book.connect().is_ok());
        assert!(rt; book.kept() == count);
    }
    assert!(rt; book.connect().is_ok());
    assert!(rt; book.kept() == 1);
}
