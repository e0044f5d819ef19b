//! What the lines of a server report, for tests.

/// Returns whether exactly one of these lines reports how a connection ended, and is this one.
pub(crate) fn is_only_end(lines: &[String], told: &str) -> bool {
    let mut count = 0usize;
    for line in lines {
        if line.as_str().starts_with("[WARN  relay_server::server] ") {
            if line.as_str() != told {
                return false;
            }
            count = count.saturating_add(1);
        }
    }
    count == 1
}
