//! Which track of a mount the rest of a path names (RFC 2326, C.1.1).
ghost use Rattle.std.specs.Prelude.{◌≡◌, ◌≢◌, ◌<◌, ◌≤◌, ◌==◌, ℕ, length, slice_get, Some, IfOk, IfSome, IfNone, MatchBool, MatchOption, MatchResult};
ghost use Rattle.sdp.specs.Written.{track_control};
ghost use Rattle.mounts.specs.Names.{GoesOn};
ghost use Rattle.mounts.specs.Tracks.{HasNoControl, HasPathOf, IsCalledBy, IsControlOf, IsFirstCalledBy, IsNamedBy, IsNamedByOwner, IsNamedByPlayer, IsRestAndQuery, NoneIsCalledBy};

use crate::fault::UriFault;
use crate::mount::Mount;
use crate::names::track_digits;
use crate::target::{Target, path_of_url, read_url};
use base_syntax::read_number;
use sdp::Track;
use std::alloc::{AllocError, Global};

/// The track of a number below this count that the control of players names: `trackID=` and the number in decimal without
/// leading zeros. Takes no memory.
pub fn track_number(rest: &[u8], count: usize) -> Option<usize>
    requires { count ≤ 16 }
    ensures below { IfSome result (λ number. number < count) }
    ensures some { IfSome result (λ number. rest.now ≡ track_control number) }
    ensures none { IfNone result ((number : ℕ) → number < count → rest.now ≢ track_control number) }
{
    let Some(digits) = track_digits(rest) else {
        return None;
    };
    let Some(number) = read_number(digits, 15) else {
        return None;
    };
    let number = number as usize;
    if number < count { Some(number) } else { None }
}

/// Whether a control is the URL of the request's path.
fn has_path_of(alloc: Global, target: &Target, control: &[u8]) -> Result<bool, AllocError>
    ensures { IfOk result (λ has. MatchBool has (HasPathOf target.now control.now) (HasPathOf target.now control.now → ⊥)) }
{
    match read_url(alloc, control) {
        Ok(url) => Ok(path_of_url(&url) == target.path.as_slice()),
        Err(UriFault::BadUri) => Ok(false),
        Err(UriFault::OutOfMemory) => Err(AllocError),
    }
}

/// Whether a control is the rest of a path followed by a question mark and the request's query.
fn is_rest_and_query(target: &Target, rest: &[u8], control: &[u8]) -> bool
    ensures { MatchBool result (IsRestAndQuery target.now rest.now control.now) (IsRestAndQuery target.now rest.now control.now → ⊥) }
{
    let Some(query) = &target.query else {
        return false;
    };
    let Some(behind) = control.strip_prefix(rest) else {
        return false;
    };
    let Some(asked) = behind.strip_prefix(b"?") else {
        return false;
    };
    asked == query.as_slice()
}

/// Whether an announced control is that of a request.
fn is_control_of(
    alloc: Global,
    target: &Target,
    rest: &[u8],
    control: &[u8],
) -> Result<bool, AllocError>
    ensures { IfOk result (λ is. MatchBool is (IsControlOf target.now rest.now control.now) (IsControlOf target.now rest.now control.now → ⊥)) }
{
    if control == rest {
        return Ok(true);
    }
    if is_rest_and_query(target, rest, control) {
        return Ok(true);
    }
    has_path_of(alloc, target, control)
}

/// Whether a track was announced with a control of a request.
fn is_called_by(
    alloc: Global,
    target: &Target,
    rest: &[u8],
    track: &Track,
) -> Result<bool, AllocError>
    ensures { IfOk result (λ is. MatchBool is (IsCalledBy target.now rest.now track.now) (IsCalledBy target.now rest.now track.now → ⊥)) }
{
    match &track.control {
        Some(control) => is_control_of(alloc, target, rest, control.as_slice()),
        None => Ok(false),
    }
}

/// The first track that was announced with a control of a request.
fn first_called_by(
    alloc: Global,
    target: &Target,
    rest: &[u8],
    tracks: &[Track],
) -> Result<Option<usize>, AllocError>
    ensures { IfOk result (λ found. MatchOption found (NoneIsCalledBy target.now rest.now tracks.now) (IsFirstCalledBy target.now rest.now tracks.now)) }
{
    for (i, track) in tracks.iter().enumerate() {
        if is_called_by(alloc, target, rest, track)? {
            return Ok(Some(i));
        }
    }
    Ok(None)
}

/// Whether a track was announced without a control of its own: with none, or with `*`.
fn has_no_control(track: &Track) -> bool
    ensures { MatchBool result (HasNoControl track.now) (HasNoControl track.now → ⊥) }
{
    match &track.control {
        Some(control) => control.as_slice() == b"*".as_slice(),
        None => true,
    }
}

/// The track that the owner names, among these.
fn named_by_owner(
    alloc: Global,
    target: &Target,
    rest: &[u8],
    tracks: &[Track],
) -> Result<Option<usize>, AllocError>
    requires { length tracks.now ≤ 16 }
    ensures { IfOk result (λ found. MatchOption found ((number : ℕ) → IsNamedByOwner target.now rest.now tracks.now number → ⊥) (IsNamedByOwner target.now rest.now tracks.now)) }
{
    if let Some(called) = first_called_by(alloc, target, rest, tracks)? {
        return Ok(Some(called));
    }
    let Some(number) = track_number(rest, tracks.len()) else {
        return Ok(None);
    };
    if has_no_control(&tracks[number]) {
        Ok(Some(number))
    } else {
        Ok(None)
    }
}

impl Mount {
    /// The track that the rest of a path names for a connection that doesn't own the mount: `trackID=k` with the number of
    /// a track, in decimal without leading zeros. Takes no memory.
    pub fn track_for_player(&self, rest: &[u8]) -> Option<usize>
        ensures { MatchOption result ((number : ℕ) → IsNamedByPlayer rest.now self.now.description.tracks number → ⊥) (IsNamedByPlayer rest.now self.now.description.tracks) }
    {
        let tracks = self.description.tracks();
        track_number(rest, tracks.len())
    }

    /// The track that a request names for a connection, by the rest of its path after the mount's name. For the owner the
    /// announced controls count, in three ways: a control is the rest, it is the rest and the query, or it is a URL of the
    /// request's path; the first track counts that has such a control. Where no track has one, `trackID=k` names track k
    /// if that was announced without a control, or with `*`. For anybody else `trackID=k` alone does. The only error is
    /// out of memory, and it comes to the owner alone.
    pub fn track(
        &self,
        alloc: Global,
        connection: u64,
        target: &Target,
        rest: &[u8],
    ) -> Result<Option<usize>, AllocError>
        requires rest { GoesOn target.now.path self.now.name (Some rest.now) }
        ensures { MatchResult result
            (λ found. MatchOption found
            ((number : ℕ) → IsNamedBy (self.now.owner == connection) target.now rest.now self.now.description.tracks number → ⊥)
            (IsNamedBy (self.now.owner == connection) target.now rest.now self.now.description.tracks))
            (λ _. self.now.owner ≡ connection) }
    {
        if self.owner == connection {
            named_by_owner(alloc, target, rest, self.description.tracks())
        } else {
            Ok(self.track_for_player(rest))
        }
    }
}
