//! The program `door`: workers in threads of their own act on one cluster under a lock, and it writes the one run that tells what they did. A board
//! shows what the cluster did, so that answers are looked up with no lock.
#![tactic(auto)]

mod closing;
mod doors;
mod extents;
mod faults;
mod kept;
mod looking;
mod naming;
mod places;
mod replays;
#[cfg(test)]
mod tests;
mod tops;
mod visits;
mod workers;

use run_io::{Call, call_of};
use std::process::ExitCode;
use str_outer::{StdSink, StdSource};
use tops::{door_top, report};

fn main(rt: HostRuntime) -> ExitCode {
    let mut src = StdSource::new(rt.stdin());
    let mut out = StdSink::new(rt.stdout());
    let mut err = StdSink::new(rt.stderr());
    let status = match call_of(&rt) {
        Ok(
            Call {
                words,
                clocks,
                gates,
            },
        ) => door_top(
            &rt,
            rt.alloc(),
            words.as_slice(),
            &mut src,
            &mut out,
            &mut err,
            clocks,
            gates,
        ),
        Err(failure) => report(&mut err, Err(failure)),
    };
    ExitCode::from(status.code())
}
