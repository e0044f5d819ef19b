//! What refused requests are about.

/// What a refused request was about.
#[derive(Clone, Copy, Debug, PartialEq, Eq, Drop)]
pub enum Subject<'a> {
    /// The mount of this name.
    Mount(&'a [u8]),
    /// A name that no mount has, or one for which there is no count.
    Others,
    /// A connection, before its first request.
    NoMount,
}
