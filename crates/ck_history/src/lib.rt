//! The map and the lists of one thread: the keys of a table, updates and their replies, and a plain body of the map; edits of a list of
//! members, and a plain body of the two lists that they change.
//! What every report is measured by: `specs/Map.antt` is the map, `specs/Lists.antt` are the lists, `specs/Places.antt` says when an answer is
//! right after so many updates, `specs/Legal.antt` which answers are legal.
#![tactic(auto)]

mod book;
mod edit;
mod event;
mod fixed;
mod fixed_lists;
mod key;
mod lists;
mod log;
mod members;
mod pairs;
mod update;

pub use book::Book;
pub use edit::{Edit, EditReply, MOST_MEMBERS};
pub use event::{ReaderEvent, WriterEvent};
pub use fixed::FixedBook;
pub use fixed_lists::FixedLists;
pub use key::Key;
pub use lists::Lists;
pub use log::{Busy, LogEntry, Look, Placed};
pub use update::{Reply, Update};
