//! The file `/proc/PID/limits` (proc_pid_limits(5)).
ghost use Rattle.std.specs.Prelude.{◌≡◌};
ghost use Rattle.process_figures.specs.Limits.{first_word, limit_of, max_open_files};

use crate::lines::behind_named;
use crate::numbers::read_number;
use base_syntax::{cut, trim};

/// Returns the first word of a text, behind the blanks that it begins with.
fn first_word(text: &[u8]) -> &[u8]
    ensures { result.now ≡ first_word text.now }
{
    cut(trim(text), b' ').0
}

/// Returns the limit that a word spells: a number, or 2^64 - 1 for `unlimited`.
fn limit_of(word: &[u8]) -> Option<u64>
    ensures { result ≡ limit_of word.now }
{
    if word == b"unlimited".as_slice() {
        return Some(u64::MAX);
    }
    read_number(word)
}

/// Returns the soft limit of open files: the first word behind the name of the resource.
pub(crate) fn max_open_files(limits: &[u8]) -> Option<u64>
    ensures { result ≡ max_open_files limits.now }
{
    limit_of(first_word(behind_named(b"Max open files ", limits)?))
}
