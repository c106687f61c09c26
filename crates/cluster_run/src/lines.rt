//! The lines that a run writes.
ghost use Rattle.std.specs.Prelude.{◌≡◌, ◌++◌, OnErr, OnOk, codes, decimal};
ghost use Rattle.str_model.specs.Lines.{end_line, journal_line};
ghost use Rattle.str_scene.specs.Keeping.{Keeps};
ghost use Rattle.str_scene.specs.Spelling.{event_spelled};
ghost use Rattle.cluster_run.specs.Printing.{counted};

use std::alloc::AllocError;
use str_base::push_u64;
use str_model::Done;
use str_scene::Event;

/// The numbers of the last line.
#[derive(Clone, Copy, Debug, PartialEq, Eq)]
pub struct Counts {
    pub commits: u32,
    pub aborts: u32,
    pub held: u32,
    pub unbegun: u32,
    pub messages: u64,
}

/// Appends the last line.
/// It fails where memory runs out, and then the bytes stay as they were.
pub fn push_end(counts: &Counts, out: &mut Vec<u8>) -> Result<(), AllocError>
    ensures ok { OnOk result (out.new.items ≡ out.old.items ++ end_line (counted counts.now)) }
    ensures err { OnErr result (out.new.items ≡ out.old.items) }
{
    let start = out.len();
    match push_counts(counts, out) {
        Ok(()) => Ok(()),
        Err(error) => {
            out.truncate(start);
            Err(error)
        }
    }
}

/// Appends the line of a journal entry.
/// It fails where memory runs out, and then the bytes stay as they were.
pub fn push_done(done: &Done, out: &mut Vec<u8>) -> Result<(), AllocError>
    ensures ok { OnOk result (out.new.items ≡ out.old.items ++ journal_line done.now) }
    ensures err { OnErr result (out.new.items ≡ out.old.items) }
{
    let start = out.len();
    match push_entry(done, out) {
        Ok(()) => Ok(()),
        Err(error) => {
            out.truncate(start);
            Err(error)
        }
    }
}

/// Appends a piece of a line and a number after it.
#[tactic(auto, using(str_scene::proofs::KeepingLemmas::keeping))]
fn push_field(text: &[u8], n: u64, out: &mut Vec<u8>) -> Result<(), AllocError>
    ensures ok { OnOk result (out.new.items ≡ out.old.items ++ (text.now ++ decimal n)) }
    ensures err { OnErr result (Keeps out.old.items out.new.items) }
{
    out.extend_from_slice(text)?;
    push_u64(out, n)
}

/// Appends the first three numbers of the last line.
#[tactic(auto, using(str_scene::proofs::KeepingLemmas::keeping))]
fn push_ended(counts: &Counts, out: &mut Vec<u8>) -> Result<(), AllocError>
    ensures ok { OnOk result (out.new.items ≡ out.old.items
        ++ (codes "end commits=" ++ decimal counts.now.commits
        ++ codes " aborts=" ++ decimal counts.now.aborts
        ++ codes " held=" ++ decimal counts.now.held)) }
    ensures err { OnErr result (Keeps out.old.items out.new.items) }
{
    push_field(b"end commits=", counts.commits as u64, out)?;
    push_field(b" aborts=", counts.aborts as u64, out)?;
    push_field(b" held=", counts.held as u64, out)?;
    Ok(())
}

/// Appends the last line. What was there stays, also where it fails.
#[tactic(auto, using(str_scene::proofs::KeepingLemmas::keeping))]
fn push_counts(counts: &Counts, out: &mut Vec<u8>) -> Result<(), AllocError>
    ensures ok { OnOk result (out.new.items ≡ out.old.items ++ end_line (counted counts.now)) }
    ensures err { OnErr result (Keeps out.old.items out.new.items) }
{
    push_ended(counts, out)?;
    push_field(b" unbegun=", counts.unbegun as u64, out)?;
    push_field(b" messages=", counts.messages, out)?;
    out.extend_from_slice(b"\n")?;
    Ok(())
}

/// Appends an event as it stands in a schedule.
#[tactic(auto, using(str_scene::proofs::KeepingLemmas::keeping))]
fn push_event(event: Event, out: &mut Vec<u8>) -> Result<(), AllocError>
    ensures ok { OnOk result (out.new.items ≡ out.old.items ++ event_spelled event) }
    ensures err { OnErr result (Keeps out.old.items out.new.items) }
{
    match event {
        Event::Client { session, reading } => {
            push_field(b"c ", u64::from(session.0), out)?;
            push_field(b" ", reading, out)
        }
        Event::Deliver { index } => push_field(b"d ", index, out),
    }
}

/// Appends the line of a journal entry. What was there stays, also where it fails.
#[tactic(auto, using(str_scene::proofs::KeepingLemmas::keeping))]
fn push_entry(done: &Done, out: &mut Vec<u8>) -> Result<(), AllocError>
    ensures ok { OnOk result (out.new.items ≡ out.old.items ++ journal_line done.now) }
    ensures err { OnErr result (Keeps out.old.items out.new.items) }
{
    out.extend_from_slice(b"j ")?;
    push_event(done.event, out)?;
    if done.idle {
        out.extend_from_slice(b" idle\n")
    } else {
        out.extend_from_slice(b"\n")
    }
}
