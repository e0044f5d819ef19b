//! What the words of calls mean.

/// What a word means by a table of words, if it stands there.
pub fn meaning<T: Copy>(table: &[(&'static str, T)], word: &[u8]) -> Option<T> {
    for (name, meaning) in table {
        if name.as_bytes() == word {
            return Some(*meaning);
        }
    }
    None
}
