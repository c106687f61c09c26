//! Looks at the same behind a lock.
use crate::samples::{Came, PLACE, Took, answer, idle, nanos_since};
use answer_board::Entry;
use std::alloc::{AllocError, Global};
use std::marker::Sync;
use std::sync::{Mutex, Wait};
use std::thread::Threads;
use std::time::{Clock, Instant};
use std::{io, thread};
use str_model::Answer;
use str_scene::TxPlace;

/// The entries in order, and the answer of the only place.
#[derive(Drop)]
struct List {
    entries: Vec<Entry>,
    answer: Option<Answer>,
}

/// What a thread does.
#[derive(Clone, Copy)]
enum Job {
    Look,
    Show,
}

impl List {
    /// The answer at a place.
    fn find(&self, place: TxPlace) -> Option<Answer> {
        match &self.answer {
            Some(answer) if answer.place == place => Some(answer.copy()),
            _ => None,
        }
    }
}

/// Lets eight readers look for the answer behind a lock beside a writer.
pub fn timed<R: Threads + Wait + Clock + Sync>(
    rt: &R,
    alloc: Global,
    looks: u32,
    entries: u32,
) -> io::Result<Took> {
    let kept = Mutex::new(List {
        entries: Vec::new(alloc),
        answer: Some(answer()),
    });
    let mut jobs = Vec::new(alloc);
    jobs.push(Job::Show)?;
    for _ in 0..8 {
        jobs.push(Job::Look)?;
    }
    let mut took = Took::default();
    for came in thread::map_vec(rt, jobs, &|job| do_job(rt, &kept, job, looks, entries))? {
        took = took.with(came?);
    }
    Ok(took)
}

/// Does a job.
fn do_job<R: Wait + Clock>(
    rt: &R,
    kept: &Mutex<List>,
    job: Job,
    looks: u32,
    entries: u32,
) -> io::Result<Came> {
    let begun = Instant::now(rt)?;
    match job {
        Job::Look => {
            let found = look_often(rt, kept, looks);
            Ok(Came::Looked {
                found,
                nanos: nanos_since(rt, begun)?,
            })
        }
        Job::Show => {
            show_often(rt, kept, entries)?;
            Ok(Came::Showed {
                nanos: nanos_since(rt, begun)?,
            })
        }
    }
}

/// Looks so often, and gives how often the answer was found.
fn look_often<R: Wait>(rt: &R, kept: &Mutex<List>, looks: u32) -> u64 {
    let mut found = 0u64;
    for _ in 0..looks {
        if kept.lock(rt).find(PLACE).is_some() {
            found = found.saturating_add(1);
        }
    }
    found
}

/// Shows so many entries, one at a time.
fn show_often<R: Wait>(rt: &R, kept: &Mutex<List>, entries: u32) -> Result<(), AllocError> {
    for _ in 0..entries {
        kept.lock(rt).entries.push(Entry::Did(idle()))?;
    }
    Ok(())
}
