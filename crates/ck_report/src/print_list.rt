//! The lines of a list's report, as they are appended to a text.
ghost use Rattle.std.specs.Prelude.{◌≡◌, ◌++◌, ◌∷◌, [], OnOk, decimal};
ghost use Rattle.ck_report.specs.ListText.{edit_reply_words, members_words, edit_reply_line, view_line, member_line};
ghost use Rattle.ck_report.specs.Tails.{after_words};

use ck_history::EditReply;
use ck_text::print_number;
use std::alloc::AllocError;

/// Appends the line of one reply.
pub fn print_edit_reply(out: &mut Vec<u8>, i: u64, reply: &EditReply) -> Result<(), AllocError>
    ensures { OnOk result (out.new.items ≡ out.old.items ++ edit_reply_line i reply.now) }
{
    append(out, b"u ")?;
    print_number(out, i as u128)?;
    append(out, edit_reply_end(reply))
}

// What stands after a reply's number.
fn edit_reply_end(reply: &EditReply) -> &'static [u8]
    ensures { result.now ≡ after_words (edit_reply_words reply.now) ++ 10 ∷ [] }
{
    match *reply {
        EditReply::Added => b" added\n",
        EditReply::Full => b" full\n",
        EditReply::Dropped => b" dropped\n",
        EditReply::Missing => b" missing\n",
        EditReply::Committed => b" committed\n",
    }
}

/// Appends the line of one answer.
pub fn print_view(out: &mut Vec<u8>, f: u64, i: u64, members: &[u64]) -> Result<(), AllocError>
    ensures { OnOk result (out.new.items ≡ out.old.items ++ view_line f i members.now) }
{
    append(out, b"q ")?;
    print_number(out, f as u128)?;
    append_word(out, i)?;
    print_members(out, members)?;
    append(out, b"\n")
}

// Appends the words for these members, each after a space.
fn print_members(out: &mut Vec<u8>, members: &[u64]) -> Result<(), AllocError>
    ensures { OnOk result (out.new.items ≡ out.old.items ++ after_words (members_words members.now)) }
{
    if members.is_empty() {
        return append(out, b" empty");
    }
    append(out, b" =")?;
    for member in members {
        append_word(out, *member)?;
    }
    Ok(())
}

// Appends a space and a number.
fn append_word(out: &mut Vec<u8>, n: u64) -> Result<(), AllocError>
    ensures { OnOk result (out.new.items ≡ out.old.items ++ 32 ∷ decimal n) }
{
    append(out, b" ")?;
    print_number(out, n as u128)
}

/// Appends the line of one member.
pub fn print_member(out: &mut Vec<u8>, v: u64) -> Result<(), AllocError>
    ensures { OnOk result (out.new.items ≡ out.old.items ++ member_line 0 v) }
{
    append(out, b"t")?;
    append_word(out, v)?;
    append(out, b"\n")
}

// Appends these bytes.
fn append(out: &mut Vec<u8>, text: &[u8]) -> Result<(), AllocError>
    ensures { OnOk result (out.new.items ≡ out.old.items ++ text.now) }
{
    out.extend_from_slice(text)
}
