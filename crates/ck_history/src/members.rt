//! Edits of the members of one list.

ghost use Rattle.std.specs.Prelude.{◌≡◌, ℕ, ◌≤◌, ◌==◌, length, IfOk, IsOk, OnOk, OnErr};
ghost use Rattle.std.specs.List.{position};
ghost use Rattle.ck_history.specs.Lists.{add_member, drop_member};
ghost use Rattle.ck_history.specs.Room.{HasRoom};
ghost use Rattle.ck_history.specs.declared.edit.EditReply.TheVariants.{Added};

use crate::edit::{EditReply, MOST_MEMBERS};
use std::alloc::AllocError;

/// Appends a member, unless there are as many as there may be. An `AllocError` comes only where it would be appended, and changes nothing.
pub fn add(members: &mut Vec<u64>, v: u64) -> Result<EditReply, AllocError>
    ensures reply { IfOk result (λ reply. reply ≡ (add_member members.old.items v).1) }
    ensures ok { OnOk result (members.new.items ≡ (add_member members.old.items v).0) }
    ensures err { OnErr result (members.new.items ≡ members.old.items) }
    ensures memory { OnErr result ((add_member members.old.items v).1 ≡ Added) }
    ensures room { HasRoom MOST_MEMBERS members.old → IsOk result × HasRoom MOST_MEMBERS members.new }
{
    if members.len() as u64 >= MOST_MEMBERS {
        return Ok(EditReply::Full);
    }
    members.push(v)?;
    Ok(EditReply::Added)
}

/// Where the first such member stands.
pub fn first_of(members: &[u64], v: u64) -> Option<usize>
    ensures { result ≡ position (λ x. x == v) members.now }
{
    members.iter().position(|x| *x == v)
}

/// Takes the first such member out and puts the last one into its place, which takes no memory.
pub fn drop_first(members: &mut Vec<u64>, v: u64) -> EditReply
    ensures reply { result ≡ (drop_member members.old.items v).1 }
    ensures members { members.new.items ≡ (drop_member members.old.items v).0 }
    ensures room { (most : ℕ) → HasRoom most members.old → HasRoom most members.new }
{
    match first_of(members, v) {
        Some(at) => {
            members.swap_remove(at);
            EditReply::Dropped
        }
        None => EditReply::Missing,
    }
}

/// Makes the members of `to` those of `from`. After an `AllocError` they are as before.
pub fn copy(from: &[u64], to: &mut Vec<u64>) -> Result<(), AllocError>
    ensures ok { OnOk result (to.new.items ≡ from.now) }
    ensures err { OnErr result (to.new.items ≡ to.old.items) }
    ensures room { (most : ℕ) → length from.now ≤ most → HasRoom most to.old → IsOk result × HasRoom most to.new }
{
    to.reserve(from.len().saturating_sub(to.len()))?;
    to.clear();
    to.extend_from_slice(from)
}
