//! Reports: the text of replies, answers and pairs, printed and read. `specs/Text.antt` is the format,
//! `specs/Reports.antt` says which texts are reports, and `docs/SCRIPTS.md` tells users of it.
#![tactic(auto)]

mod asked;
mod gather;
mod laws;
mod line;
mod lines;
mod list_report;
mod map_report;
mod pairing;
mod place;
mod print;
mod print_list;
mod put;
mod put_list;
mod read;
mod read_line;
mod tasks;
#[cfg(test)]
mod tests;
mod view;

pub use asked::Asked;
pub use laws::one_reading_law;
pub use list_report::report_list;
pub use map_report::{MapReport, ReportError};
pub use print::report_map;
pub use put::{PutError, put_report};
pub use put_list::put_list_report;
pub use read::read_map_report;
pub use view::View;
