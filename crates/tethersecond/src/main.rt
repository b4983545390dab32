//! The chip bench as a program. All that it does is in the crate `console`.
#![tactic(auto)]

use std::process::ExitCode;

// Whatever went wrong, the person has been told by `run`, so the status is all that is left to say.
fn main(rt: HostRuntime) -> ExitCode {
    match console::run(&rt) {
        Ok(()) => ExitCode::SUCCESS,
        Err(_stop) => ExitCode::FAILURE,
    }
}
