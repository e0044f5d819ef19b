//! The text of `/status.json`.
ghost use Rattle.std.specs.Prelude.{◌≡◌, ◌++◌, length, take, OnOk, OnErr};
ghost use Rattle.status_json.specs.Status.{lists_text, status_text, whole_text};

use crate::counts::write_totals;
use crate::key::Key;
use crate::lists::write_list;
use crate::objects::{mount_rows, name_rows, player_rows};
use crate::serving::write_server;
use status::Snapshot;
use std::alloc::AllocError;

/// Appends the lists of names, mounts and players, or a part of them if memory is refused.
#[tactic(auto, unfolding(crate::specs::Status::lists_text))]
fn write_lists(out: &mut Vec<u8>, snapshot: &Snapshot) -> Result<(), AllocError>
    ensures text { OnOk result (out.new.items ≡ out.old.items ++ lists_text snapshot.now) }
    ensures kept { OnErr result (take (length out.old.items) out.new.items ≡ out.old.items) }
{
    let alloc = *out.allocator();
    let names = name_rows(alloc, snapshot)?;
    let mounts = mount_rows(alloc, snapshot)?;
    let players = player_rows(alloc, snapshot)?;
    write_list(out, Key::Mounts, names.as_slice())?;
    write_list(out, Key::Recorded, mounts.as_slice())?;
    write_list(out, Key::Players, players.as_slice())
}

/// Appends what is of the whole server, or a part of it if memory is refused.
#[tactic(auto, unfolding(crate::specs::Status::whole_text))]
fn write_whole(out: &mut Vec<u8>, snapshot: &Snapshot) -> Result<(), AllocError>
    ensures text { OnOk result (out.new.items ≡ out.old.items ++ whole_text snapshot.now) }
    ensures kept { OnErr result (take (length out.old.items) out.new.items ≡ out.old.items) }
{
    write_totals(out, Key::Totals, &snapshot.sums())?;
    write_server(out, Key::Server, &snapshot.server)?;
    out.extend_from_slice(b"}")
}

/// Appends the text, or a part of it if memory is refused.
#[tactic(auto, unfolding(crate::specs::Status::status_text))]
fn write_status(out: &mut Vec<u8>, snapshot: &Snapshot) -> Result<(), AllocError>
    ensures text { OnOk result (out.new.items ≡ out.old.items ++ status_text snapshot.now) }
    ensures kept { OnErr result (take (length out.old.items) out.new.items ≡ out.old.items) }
{
    write_lists(out, snapshot)?;
    write_whole(out, snapshot)
}

/// Appends the figures of a server as one object of JSON: each name of a mount with its sums, each mount that is recorded, each player
/// that has a seat, the sums of all names, and what the server counts of itself.
///
/// The only error is out of memory. After it, `out` is as before.
pub fn put_status(out: &mut Vec<u8>, snapshot: &Snapshot) -> Result<(), AllocError>
    ensures ok { OnOk result (out.new.items ≡ out.old.items ++ status_text snapshot.now) }
    ensures err { OnErr result (out.new.items ≡ out.old.items) }
{
    let before = out.len();
    let written = write_status(out, snapshot);
    if written.is_err() {
        out.truncate(before);
    }
    written
}
