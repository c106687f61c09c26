//! The program `store_bench`: it fills the stores of a node, makes one call many times, and prints a check sum.
#![tactic(auto)]

mod calls;
mod changes;
mod fill;
mod judgements;

use calls::Call;
use fill::{Size, filled};
use std::alloc::{AllocError, Global};
use std::env;
use std::io::{self, ErrorKind};

/// What is asked for: a call, what the stores hold, and how often the call is made.
#[derive(Clone, Copy)]
struct Asked {
    call: Call,
    size: Size,
    times: u32,
}

/// What the words ask for: a call, the number of versions of the first key, of the other keys and of the transactions that wrote
/// those, and how often the call is made. None where they are something else.
fn asked_by(words: &[String]) -> Option<Asked> {
    match words {
        [call, versions, keys, txs, times] => Some(Asked {
            call: Call::read(call.as_str())?,
            size: Size {
                versions: versions.parse().ok()?,
                keys: keys.parse().ok()?,
                txs: txs.parse().ok()?,
            },
            times: times.parse().ok()?,
        }),
        _ => None,
    }
}

/// Fills the stores, makes the call as often as asked, and gives the check sum.
fn sum_of(alloc: Global, asked: Asked) -> Result<u64, AllocError> {
    let Asked { call, size, times } = asked;
    let mut store = filled(alloc, size)?;
    match call {
        Call::Insert => changes::exchange_all(&mut store, false, times),
        Call::Finalise => changes::exchange_all(&mut store, true, times),
        Call::Certify => judgements::certify_all(alloc, &store, times),
        Call::Prepare => judgements::prepare_all(alloc, &store, size, times),
        _ => Ok(calls::look_up_all(&store, call, size, times)),
    }
}

fn main(rt: HostRuntime) -> io::Result<()> {
    let words: Vec<String> = env::args(&rt)?.skip(1).collect(rt.alloc())?;
    match asked_by(words.as_slice()) {
        Some(asked) => {
            let sum = sum_of(rt.alloc(), asked)?;
            println!(rt; "{sum}")
        }
        None => Err(io::Error::from(ErrorKind::InvalidInput)),
    }
}
