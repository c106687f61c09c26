//! Lists of words that are taken, and others.

use crate::{Task, read_task};
use std::process::Abort;
use std::test::Fail;
use top_status::{Failure, Status};

/// What comes of these words: a task, or the status of the failure.
fn check(
    rt: &(impl Abort + AllocGlobal),
    words: &[&str],
    wanted: Result<Task, Status>,
) -> Result<(), Fail> {
    let mut given = Vec::new(rt.alloc());
    for word in words {
        given.push(String::from_str(rt.alloc(), *word)?)?;
    }
    let got = match read_task(rt.alloc(), given.as_slice()) {
        Ok(task) => Ok(task),
        Err(failure) => Err(failure.status()),
    };
    assert_eq!(rt; got, wanted);
    Ok(())
}

/// A run with these flags.
fn run_with(frames: bool, journal: bool) -> Result<Task, Status> {
    Ok(Task::Run { frames, journal })
}

/// A made scene of this seed.
fn made_of(seed: u64, run: bool) -> Result<Task, Status> {
    Ok(Task::Generate { seed, run })
}

#[test]
fn lists_that_are_taken(rt: HostRuntime) -> Result<(), Fail> {
    check(&rt, &["run"], run_with(false, false))?;
    check(&rt, &["run", "--journal"], run_with(false, true))?;
    check(&rt, &["run", "--frames"], run_with(true, false))?;
    check(&rt, &["run", "--frames", "--journal"], run_with(true, true))?;
    check(&rt, &["run", "--prune"], Ok(Task::RunPruned))?;
    check(&rt, &["pack"], Ok(Task::Pack))?;
    check(&rt, &["show"], Ok(Task::Show))?;
    check(&rt, &["bank"], Ok(Task::Bank))?;
    check(&rt, &["audit"], Ok(Task::Audit))?;
    check(&rt, &["at", "0"], Ok(Task::At { time: 0 }))?;
    check(
        &rt,
        &["at", "18446744073709551615"],
        Ok(Task::At { time: u64::MAX }),
    )?;
    check(&rt, &["gen", "0"], made_of(0, false))?;
    check(&rt, &["gen", "7", "--run"], made_of(7, true))?;
    check(
        &rt,
        &["gen", "18446744073709551615"],
        made_of(u64::MAX, false),
    )
}

#[test]
fn other_lists(rt: HostRuntime) -> Result<(), Fail> {
    let lists: [&[&str]; 49] = [
        &[],
        &[""],
        &["--"],
        &["--help"],
        &["--version"],
        &["-h"],
        &["help"],
        &["help", "run"],
        &["walk"],
        &["Run"],
        &["strun", "run"],
        &["run", ""],
        &["run", "--"],
        &["run", "--help"],
        &["run", "--fr"],
        &["run", "--frames", "--"],
        &["run", "--frames", "--frames"],
        &["run", "--journal", "--frames"],
        &["run", "--frames=true"],
        &["run", "--frames", "true"],
        &["--frames", "run"],
        &["run", "--frames", "--prune"],
        &["run", "--prune", "--journal"],
        &["run", "--prune", "--prune"],
        &["--prune", "run"],
        &["run", "pack"],
        &["pack", "--frames"],
        &["show", "--journal"],
        &["show", "x"],
        &["bank", "--journal"],
        &["--", "show"],
        &["gen"],
        &["gen", ""],
        &["gen", "07"],
        &["gen", "-1"],
        &["gen", "+1"],
        &["gen", "--", "7"],
        &["gen", "--run", "7"],
        &["gen", "7", "8"],
        &["gen", "18446744073709551616"],
        &["7", "gen"],
        &["audit", "7"],
        &["audit", "--journal"],
        &["at"],
        &["at", "07"],
        &["at", "-1"],
        &["at", "18446744073709551616"],
        &["at", "7", "8"],
        &["7", "at"],
    ];
    for words in lists {
        check(&rt, words, Err(Status::Usage))?;
    }
    Ok(())
}
