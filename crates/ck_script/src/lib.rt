//! Script files: what their lines say, and what is wrong with the first line that says nothing lawful.
//! `specs/Grammar.antt` is the grammar, `docs/SCRIPTS.md` tells users of it.
#![tactic(auto)]

mod arguments;
mod check;
mod circle;
mod compact;
mod fault;
mod key_word;
mod line;
mod line_list;
mod lines;
mod list_line;
mod read;
mod rows;
mod script_line;
mod views;

pub use check::{RangeFault, check_ranges};
pub use circle::check_circles;
pub use compact::{CompactCall, CompactKey, CompactLine};
pub use fault::{ScriptError, ScriptFault, Why};
pub use key_word::KeyWord;
pub use line::{AskLine, Numbered, UpLine};
pub use line_list::LineList;
pub use lines::Lines;
pub use read::{
    read_edits, read_queries, read_updates, read_views, scan_edits, scan_queries, scan_updates,
    scan_views,
};
pub use views::{MOST_VIEWS, check_views};

#[cfg(test)]
mod tests;
