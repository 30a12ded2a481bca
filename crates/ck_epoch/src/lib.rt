//! Epochs: readers' sections, and a writer that gives back what it retired once no section that is older can still reach it, after
//! `ck_epoch` of Concurrency Kit.
#![tactic(auto)]

mod about;
mod answers;
mod backlog;
mod client;
#[cfg(test)]
mod client_tests;
mod client_words;
mod domain;
mod ends;
mod handler;
mod item;
mod laws;
mod layout;
mod lists;
mod opening;
mod pending;
mod poll;
#[cfg(test)]
mod reading_tests;
mod retiring;
mod sections;
mod synchronize;
#[cfg(test)]
mod tests;
#[cfg(test)]
mod waiting_tests;

pub use about::About;
pub use answers::{Closed, Poll};
pub use client::{Client, Within};
pub use domain::Domain;
pub use ends::{Pass, Writer};
pub use item::{Item, Retired};
pub use laws::reclamation_law;
pub use layout::{FIRST_EPOCH, GLOBAL, STRIDE, active_word, epoch_word};
pub use lists::{LISTS, PendingList};
