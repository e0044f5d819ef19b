//! Tests of the book.
//!
//! The replies to requests are cases of `transcripts`, and what a clause states of every call has no test. Here are the tests
//! that need code: many calls, passes that count their owners, and seats of which any may be taken.

mod asking;
mod of_books;
mod of_passes;
