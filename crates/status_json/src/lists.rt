//! Lists of JSON, and objects whose members are a list.
ghost use Rattle.std.specs.Prelude.{◌≡◌, ◌++◌, length, take, OnOk, OnErr};
ghost use Rattle.status_json.specs.declared.key.Key.TheVariants as keys;
ghost use Rattle.status_json.specs.Json.{items_text, keyed, list_text, members_text, next_text, others_text, some_members_text};

use crate::key::Key;
use std::alloc::AllocError;

/// What is written as a value of JSON.
pub(crate) trait Written {
    ghost use Rattle.std.specs.Prelude.{ℕ, List, ◌++◌, length, take, OnOk, OnErr};

    // its text
    ghost text: { Self → List ℕ };

    /// Appends its text, or a part of it if memory is refused.
    fn write(&self, out: &mut Vec<u8>) -> Result<(), AllocError>
        ensures text { OnOk result (out.new.items ≡ out.old.items ++ text self.now) }
        ensures kept { OnErr result (take (length out.old.items) out.new.items ≡ out.old.items) };
}

/// Appends a value after a comma, or a part of it if memory is refused.
#[tactic(auto, unfolding(crate::specs::Json::keyed))]
fn write_next<T: Written>(out: &mut Vec<u8>, value: &T) -> Result<(), AllocError>
    ensures text { OnOk result (out.new.items ≡ out.old.items ++ next_text (T.text value.now)) }
    ensures kept { OnErr result (take (length out.old.items) out.new.items ≡ out.old.items) }
{
    out.extend_from_slice(Key::Item.text())?;
    value.write(out)
}

/// Appends values, each after a comma, or a part of them if memory is refused.
#[tactic(auto, unfolding(crate::specs::Json::others_text))]
fn write_others<T: Written>(out: &mut Vec<u8>, values: &[T]) -> Result<(), AllocError>
    ensures text { OnOk result (out.new.items ≡ out.old.items ++ others_text T.text values.now) }
    ensures kept { OnErr result (take (length out.old.items) out.new.items ≡ out.old.items) }
{
    for value in values {
        write_next(out, value)?;
    }
    Ok(())
}

/// Appends what is before a value, and the value, or a part of them if memory is refused.
#[tactic(auto, unfolding(crate::specs::Json::keyed))]
fn write_first<T: Written>(out: &mut Vec<u8>, key: Key, value: &T) -> Result<(), AllocError>
    ensures text { OnOk result (out.new.items ≡ out.old.items ++ keyed key (T.text value.now)) }
    ensures kept { OnErr result (take (length out.old.items) out.new.items ≡ out.old.items) }
{
    out.extend_from_slice(key.text())?;
    value.write(out)
}

/// Appends a list that isn't empty, or a part of it if memory is refused.
#[tactic(auto, unfolding(crate::specs::Json::items_text))]
fn write_items<T: Written>(out: &mut Vec<u8>, value: &T, others: &[T]) -> Result<(), AllocError>
    ensures text { OnOk result (out.new.items ≡ out.old.items ++ items_text T.text value.now others.now) }
    ensures kept { OnErr result (take (length out.old.items) out.new.items ≡ out.old.items) }
{
    write_first(out, Key::FirstItem, value)?;
    write_others(out, others)?;
    out.extend_from_slice(b"]")
}

/// Appends a list, or a part of it if memory is refused.
fn write_values<T: Written>(out: &mut Vec<u8>, values: &[T]) -> Result<(), AllocError>
    ensures text { OnOk result (out.new.items ≡ out.old.items ++ list_text T.text values.now) }
    ensures kept { OnErr result (take (length out.old.items) out.new.items ≡ out.old.items) }
{
    match values {
        [] => out.extend_from_slice(b"[]"),
        [value, others @ ..] => write_items(out, value, others),
    }
}

/// Appends what is before a list, and the list, or a part of them if memory is refused.
#[tactic(auto, unfolding(crate::specs::Json::keyed))]
pub(crate) fn write_list<T: Written>(
    out: &mut Vec<u8>,
    key: Key,
    values: &[T],
) -> Result<(), AllocError>
    ensures text { OnOk result (out.new.items ≡ out.old.items ++ keyed key (list_text T.text values.now)) }
    ensures kept { OnErr result (take (length out.old.items) out.new.items ≡ out.old.items) }
{
    out.extend_from_slice(key.text())?;
    write_values(out, values)
}

/// Appends members of an object, at least one, or a part of them if memory is refused.
#[tactic(auto, unfolding(crate::specs::Json::some_members_text))]
fn write_some_members<T: Written>(
    out: &mut Vec<u8>,
    member: &T,
    others: &[T],
) -> Result<(), AllocError>
    ensures text { OnOk result (out.new.items ≡ out.old.items ++ some_members_text T.text member.now others.now) }
    ensures kept { OnErr result (take (length out.old.items) out.new.items ≡ out.old.items) }
{
    write_first(out, Key::FirstMember, member)?;
    write_others(out, others)?;
    out.extend_from_slice(b"}")
}

/// Appends an object of members, or a part of it if memory is refused.
fn write_object<T: Written>(out: &mut Vec<u8>, members: &[T]) -> Result<(), AllocError>
    ensures text { OnOk result (out.new.items ≡ out.old.items ++ members_text T.text members.now) }
    ensures kept { OnErr result (take (length out.old.items) out.new.items ≡ out.old.items) }
{
    match members {
        [] => out.extend_from_slice(b"{}"),
        [member, others @ ..] => write_some_members(out, member, others),
    }
}

/// Appends what is before an object of members, and the object, or a part of them if memory is refused.
#[tactic(auto, unfolding(crate::specs::Json::keyed))]
pub(crate) fn write_members<T: Written>(
    out: &mut Vec<u8>,
    key: Key,
    members: &[T],
) -> Result<(), AllocError>
    ensures text { OnOk result (out.new.items ≡ out.old.items ++ keyed key (members_text T.text members.now)) }
    ensures kept { OnErr result (take (length out.old.items) out.new.items ≡ out.old.items) }
{
    out.extend_from_slice(key.text())?;
    write_object(out, members)
}
