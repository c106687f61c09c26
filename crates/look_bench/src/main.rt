//! The program `look_bench`: eight readers look up an answer beside one writer, at a board or behind a lock, and it tells how long their looks took.
#![tactic(auto)]

mod at_board;
mod behind_lock;
mod samples;

use std::env;
use std::io::{self, ErrorKind};

/// Where the readers look.
#[derive(Clone, Copy)]
enum Way {
    Board,
    Lock,
}

/// What is asked for: where, how often each reader looks, and how many entries the writer shows meanwhile.
#[derive(Clone, Copy)]
struct Asked {
    way: Way,
    looks: u32,
    entries: u32,
}

/// The way that a word names.
fn way_of(word: &str) -> Option<Way> {
    match word {
        "board" => Some(Way::Board),
        "lock" => Some(Way::Lock),
        _ => None,
    }
}

/// What the words ask for. None where they are something else.
fn asked_by(words: &[String]) -> Option<Asked> {
    match words {
        [way, looks, entries] => Some(Asked {
            way: way_of(way.as_str())?,
            looks: looks.parse().ok()?,
            entries: entries.parse().ok()?,
        }),
        _ => None,
    }
}

fn main(rt: HostRuntime) -> io::Result<()> {
    let words: Vec<String> = env::args(&rt)?.skip(1).collect(rt.alloc())?;
    let Some(
        Asked {
            way,
            looks,
            entries,
        },
    ) = asked_by(words.as_slice())
    else {
        return Err(io::Error::from(ErrorKind::InvalidInput));
    };
    let took = match way {
        Way::Board => at_board::timed(&rt, rt.alloc(), looks, entries)?,
        Way::Lock => behind_lock::timed(&rt, rt.alloc(), looks, entries)?,
    };
    println!(rt; "found={}", took.found)?;
    eprintln!(rt; "looks={} entries={}", took.looks, took.entries)
}
