//! `lookup`: runs scripts on a table and prints a report, sums up a generated run, or judges a report. All that it does is
//! `run_program` of ck_lookup.
#![tactic(auto)]

use ck_lookup::run_program;
use std::process::ExitCode;

fn main(rt: HostRuntime) -> ExitCode {
    run_program(&rt)
}
