//! Looks at a board.
ghost use Rattle.std.specs.Prelude.{◌≡◌, ◌∷◌, []};

use crate::samples::{Came, PLACE, Took, answer, idle, nanos_since, scene};
use answer_board::boards::Board;
use answer_board::{BoardReader, BoardWriter, Entry, board};
use std::alloc::{AllocError, Global};
use std::marker::Sync;
use std::mem::ManuallyDrop;
use std::sync::{Mutex, Wait};
use std::thread::Threads;
use std::time::{Clock, Instant};
use std::{io, thread};

/// What a thread does.
#[derive(Drop)]
enum Job {
    Look(BoardReader),
    Show,
}

/// Shows the answer, and lets eight readers look for it beside a writer.
pub fn timed<R: Threads + Wait + Clock + Sync>(
    rt: &R,
    alloc: Global,
    looks: u32,
    entries: u32,
) -> io::Result<Took> {
    let Ok(scene) = scene(alloc) else {
        return Err(AllocError.into());
    };
    let Board {
        mut writer,
        readers,
    } = board(rt, alloc, &scene, 8)?;
    let told = show_answer(rt, &mut writer);
    // The lock lets no value go, so a guard that is let go owes nothing to the writer.
    let kept = Mutex::new(unsafe { ManuallyDrop::new_unchecked(writer) });
    let took = side_by_side(rt, alloc, &kept, readers, looks, entries);
    ManuallyDrop::into_inner(kept.into_inner()).end(rt);
    told?;
    took
}

/// Shows the answer on a fresh board.
fn show_answer<R: Wait>(rt: &R, writer: &mut BoardWriter) -> Result<(), AllocError>
    requires places { writer.old.places ≡ 1 ∷ [] }
    requires list { writer.old.list ≡ [] }
    requires held { writer.old.held ≡ [] }
{
    writer.hold(&Entry::Gave(answer()))?;
    writer.publish(rt)
}

/// Does all jobs, each in a thread of its own.
fn side_by_side<R: Threads + Wait + Clock + Sync>(
    rt: &R,
    alloc: Global,
    kept: &Mutex<ManuallyDrop<BoardWriter>>,
    readers: Vec<BoardReader>,
    looks: u32,
    entries: u32,
) -> io::Result<Took> {
    let mut jobs = Vec::new(alloc);
    jobs.push(Job::Show)?;
    for reader in readers {
        jobs.push(Job::Look(reader))?;
    }
    let mut took = Took::default();
    for came in thread::map_vec(rt, jobs, &|job| do_job(rt, kept, job, looks, entries))? {
        took = took.with(came?);
    }
    Ok(took)
}

/// Does a job.
fn do_job<R: Wait + Clock>(
    rt: &R,
    kept: &Mutex<ManuallyDrop<BoardWriter>>,
    job: Job,
    looks: u32,
    entries: u32,
) -> io::Result<Came> {
    let begun = Instant::now(rt)?;
    match job {
        Job::Look(mut reader) => {
            let found = look_often(&mut reader, looks);
            Ok(Came::Looked {
                found,
                nanos: nanos_since(rt, begun)?,
            })
        }
        Job::Show => {
            let mut writer = kept.lock(rt);
            show_often(rt, &mut writer, entries)?;
            Ok(Came::Showed {
                nanos: nanos_since(rt, begun)?,
            })
        }
    }
}

/// Looks so often, and gives how often the answer was found.
fn look_often(reader: &mut BoardReader, looks: u32) -> u64 {
    let mut found = 0u64;
    for _ in 0..looks {
        if reader.look(PLACE).is_some() {
            found = found.saturating_add(1);
        }
    }
    found
}

/// Shows so many entries, one at a time.
fn show_often<R: Wait>(rt: &R, writer: &mut BoardWriter, entries: u32) -> Result<(), AllocError> {
    for _ in 0..entries {
        writer.hold(&Entry::Did(idle()))?;
        writer.publish(rt)?;
    }
    Ok(())
}
