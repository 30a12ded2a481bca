//! What was done with the tokens of a structure with signals, and where its readers' answers stand among its updates, as definitions and
//! lemmas on accounts and runs: nothing here runs.
//!
//! `specs/Events.antt` has a structure as far as its events go, and the events of a reader and of the writer; `specs/Answered.antt` the calls
//! that gave a reader's answers, and their places.
#![tactic(auto)]
