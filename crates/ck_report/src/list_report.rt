//! The text of a list's report, whole.
ghost use Rattle.std.specs.Prelude.{◌≡◌, ◌++◌, map, IfOk, OnOk};
ghost use Rattle.ck_report.specs.Numbered.{files_text};
ghost use Rattle.ck_report.specs.ListText.{view_line, list_text};

use crate::lines::{EditReplies, Members, Views};
use crate::tasks::print_each;
use crate::view::View;
use ck_history::EditReply;
use std::alloc::{AllocError, Global};

/// The text of a list's report: the replies, the answers of each query file, and the committed members at the end.
pub fn report_list(
    alloc: Global,
    replies: &[EditReply],
    answers: &[Vec<View>],
    members: &[u64],
) -> Result<Vec<u8>, AllocError>
    ensures { IfOk result (λ text. text.items ≡ list_text replies.now (map (λ file. file.items) answers.now) members.now) }
{
    let mut out = Vec::new(alloc);
    print_each(&mut out, &EditReplies, 0, replies)?;
    print_views(&mut out, answers)?;
    print_each(&mut out, &Members, 0, members)?;
    out.extend_from_slice(b"end\n")?;
    Ok(out)
}

// The lines of the answers of each file.
fn print_views(out: &mut Vec<u8>, answers: &[Vec<View>]) -> Result<(), AllocError>
    ensures { OnOk result (out.new.items ≡ out.old.items ++ files_text view_line 1 (map (λ file. file.items) answers.now)) }
{
    for i in 0..answers.len() {
        print_each(out, &Views { file: i as u64 + 1 }, 0, &answers[i])?;
    }
    Ok(())
}
