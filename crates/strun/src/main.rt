//! The program `strun`: it runs a scene and writes the released answers, and the balances where it is a bank's, or how many versions are kept where
//! nodes drop old ones; or says of answers whether
//! snapshot isolation holds of them, or what stood at a timestamp; or writes a scene's text as frames or the other way, or makes a scene.
#![tactic(auto)]

mod audits;
mod banks;
mod books;
#[cfg(test)]
mod hostile;
mod inputs;
mod prunes;
mod tasks;
#[cfg(test)]
mod tests;
mod tops;
mod writing;

use std::process::ExitCode;
use str_outer::{StdSink, StdSource};
use top_status::words_of;
use tops::{report, top};

fn main(rt: HostRuntime) -> ExitCode {
    let mut src = StdSource::new(rt.stdin());
    let mut out = StdSink::new(rt.stdout());
    let mut err = StdSink::new(rt.stderr());
    let status = match words_of(&rt) {
        Ok(words) => top(rt.alloc(), words.as_slice(), &mut src, &mut out, &mut err),
        Err(failure) => report(&mut err, Err(failure)),
    };
    ExitCode::from(status.code())
}
