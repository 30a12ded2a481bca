//! How the lines of each part of a report are printed.
ghost use Rattle.ck_report.specs.Numbered.{reply_line, answer_line, pair_line};
ghost use Rattle.ck_report.specs.ListText.{edit_reply_line, view_line, member_line};

use crate::asked::Asked;
use crate::print::{print_answer, print_pair, print_reply};
use crate::print_list::{print_edit_reply, print_member, print_view};
use crate::view::View;
use ck_history::{EditReply, Reply};
use ck_script::KeyWord;
use std::alloc::AllocError;

/// What prints the lines of one part of a report, one for each item.
pub trait LinePrinter<T> {
    ghost use Rattle.std.specs.Prelude.{◌≡◌, ℕ, List, ◌++◌, OnOk};

    /// The line of the item with this number.
    ghost line: { Self → ℕ → T → List ℕ };

    /// Appends it.
    fn print_line(&self, out: &mut Vec<u8>, number: u64, item: &T) -> Result<(), AllocError>
        ensures { OnOk result (out.new.items ≡ out.old.items ++ line self.now number item.now) };
}

/// Prints replies.
#[derive(Clone, Copy)]
pub struct Replies;

impl LinePrinter<Reply> for Replies {
    ghost line = { λ _ i reply. reply_line i reply };

    fn print_line(&self, out: &mut Vec<u8>, number: u64, item: &Reply) -> Result<(), AllocError> {
        print_reply(out, number, item)
    }
}

/// Prints the answers of one query file, of which this is the number.
#[derive(Clone, Copy)]
pub struct Answers {
    pub file: u64,
}

impl<K: KeyWord> LinePrinter<Asked<K>> for Answers {
    ghost line = { λ p i a. answer_line K.spelling p.file i a };

    fn print_line(
        &self,
        out: &mut Vec<u8>,
        number: u64,
        item: &Asked<K>,
    ) -> Result<(), AllocError> {
        print_answer(out, self.file, number, item)
    }
}

/// Prints pairs.
#[derive(Clone, Copy)]
pub struct Pairs;

impl<K: KeyWord> LinePrinter<(K, u64)> for Pairs {
    ghost line = { λ _ i p. pair_line K.spelling i p };

    fn print_line(&self, out: &mut Vec<u8>, _: u64, item: &(K, u64)) -> Result<(), AllocError> {
        print_pair(out, &item.0, item.1)
    }
}

/// Prints the replies to edits.
#[derive(Clone, Copy)]
pub struct EditReplies;

impl LinePrinter<EditReply> for EditReplies {
    ghost line = { λ _ i reply. edit_reply_line i reply };

    fn print_line(
        &self,
        out: &mut Vec<u8>,
        number: u64,
        item: &EditReply,
    ) -> Result<(), AllocError> {
        print_edit_reply(out, number, item)
    }
}

/// Prints the answers of one query file of a list, of which this is the number.
#[derive(Clone, Copy)]
pub struct Views {
    pub file: u64,
}

impl LinePrinter<View> for Views {
    ghost line = { λ p i members. view_line p.file i members };

    fn print_line(&self, out: &mut Vec<u8>, number: u64, item: &View) -> Result<(), AllocError> {
        print_view(out, self.file, number, &item.members)
    }
}

/// Prints the members at the end.
#[derive(Clone, Copy)]
pub struct Members;

impl LinePrinter<u64> for Members {
    ghost line = { λ _ i v. member_line i v };

    fn print_line(&self, out: &mut Vec<u8>, _: u64, item: &u64) -> Result<(), AllocError> {
        print_member(out, *item)
    }
}
