//! The counts of a server.
use server_counts::ServerCounts;
use std::alloc::{AllocError, Global};
use std::sync::Arc;

/// The counts of a server to which nothing came.
pub fn no_counts(alloc: Global) -> Result<Arc<ServerCounts, Global>, AllocError> {
    Ok(Arc::new(alloc, ServerCounts::new())?)
}
