//! The program `lookup` again, so that a run of it that is refused is stored beside the one that isn't: one of its query
//! lines waits for an update that never comes. It prints nothing, and its status is 4.
#![tactic(auto)]

use ck_lookup::run_program;
use std::process::ExitCode;

fn main(rt: HostRuntime) -> ExitCode {
    run_program(&rt)
}
