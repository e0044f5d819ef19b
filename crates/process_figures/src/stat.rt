//! The line of `/proc/PID/stat` (proc_pid_stat(5)).
ghost use Rattle.std.specs.Prelude.{◌≡◌, ◌≤◌, slice_get};
ghost use Rattle.std.specs.Option.{option_copied};
ghost use Rattle.process_figures.specs.Stat.{behind_last, between_spaces, stat_field, stat_number};

use crate::numbers::read_number;
use base_syntax::cut;

/// Returns what is behind the last such byte, if the text has one.
fn behind_last(text: &[u8], byte: u8) -> Option<&[u8]>
    ensures { option_copied result ≡ behind_last byte text.now }
{
    let mut behind = None;
    for (place, other) in text.iter().enumerate() {
        if *other == byte {
            behind = Some(&text[place + 1..]);
        }
    }
    behind
}

/// Returns what is between two spaces, or beside one at an end: the first is at place 0.
fn between_spaces(text: &[u8], place: usize) -> Option<&[u8]>
    ensures { option_copied result ≡ slice_get (between_spaces text.now) place }
{
    let mut left = text;
    for _passed in 0..place {
        left = cut(left, b' ').1?;
    }
    Some(cut(left, b' ').0)
}

/// Returns a field of the line by its number, which is 3 or more.
fn stat_field(line: &[u8], number: usize) -> Option<&[u8]>
    requires { 2 ≤ number }
    ensures { option_copied result ≡ stat_field number line.now }
{
    // The name of the program can have parentheses. What follows it has none.
    between_spaces(behind_last(line, b')')?, number - 2)
}

/// Returns the number that a field of the line spells. The field's number is 3 or more.
pub(crate) fn stat_number(line: &[u8], number: usize) -> Option<u64>
    requires { 2 ≤ number }
    ensures { result ≡ stat_number number line.now }
{
    read_number(stat_field(line, number)?)
}
