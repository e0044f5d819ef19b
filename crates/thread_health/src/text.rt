//! What is said of a thread that is late.
ghost use Rattle.std.specs.Prelude.{◌≡◌, IfOk};
ghost use Rattle.thread_health.specs.Names.{late_text as text_of};

use itoa::Buffer;
use server_counts::ServerThread;
use std::alloc::{AllocError, Global};

/// Returns the text that names a thread that is late. The only error is out of memory.
pub fn late_text(alloc: Global, thread: ServerThread) -> Result<Vec<u8>, AllocError>
    ensures { IfOk result (λ text. text.items ≡ text_of thread) }
{
    let mut text = Vec::from_slice(alloc, b"late: ")?;
    match thread {
        ServerThread::Accepting => text.extend_from_slice(b"accepting")?,
        ServerThread::Waking => text.extend_from_slice(b"waking")?,
        ServerThread::Writing(number) => {
            text.extend_from_slice(b"writer ")?;
            let mut buffer = Buffer::new();
            text.extend_from_slice(buffer.format(number).as_bytes())?;
        }
        ServerThread::Refusing => text.extend_from_slice(b"refusing")?,
        ServerThread::Reporting => text.extend_from_slice(b"reporting")?,
    }
    text.extend_from_slice(b"\n")?;
    Ok(text)
}
