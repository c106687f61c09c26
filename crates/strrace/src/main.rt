//! The program `strrace`: it runs the nodes of a scene in threads, round by round, and writes the one run that tells what they did.
#![tactic(auto)]

mod race;
mod start;
#[cfg(test)]
mod tests;
mod tops;
mod words;

use run_io::{Call, call_of};
use std::process::ExitCode;
use str_outer::{StdSink, StdSource};
use tops::{race_top, report};

fn main(rt: HostRuntime) -> ExitCode {
    let mut src = StdSource::new(rt.stdin());
    let mut out = StdSink::new(rt.stdout());
    let mut err = StdSink::new(rt.stderr());
    let status = match call_of(&rt) {
        Ok(
            Call {
                words,
                clocks,
                gates,
            },
        ) => race_top(
            &rt,
            rt.alloc(),
            words.as_slice(),
            &mut src,
            &mut out,
            &mut err,
            clocks,
            gates,
        ),
        Err(failure) => report(&mut err, Err(failure)),
    };
    ExitCode::from(status.code())
}
