//! Laws of every run that prunes: functions without effect, each of which carries one law.
ghost use Rattle.prune_laws.specs.PruneLaw.{DrainsAlike, LateIdle, LeftAlike, LowNeverFalls, MessagesAlike, OutputsAlike, PruneHolds, ViewsPruned, WholeDrainsAlike};

/// A cluster that prunes has the journal and the answers of one that doesn't, over every list of events: each event is idle alike.
pub fn prune_holds()
    ensures { PruneHolds }
{}

/// Each event sends the same messages, one by one, but that a reply may tell another version, and a refusal may name another writer,
/// where its transaction had its decision before the event.
pub fn messages_alike()
    ensures { MessagesAlike }
{}

/// A node's low mark never falls, and no transaction of the node that is undecided later or begins later has a snapshot below it.
pub fn low_never_falls()
    ensures { LowNeverFalls }
{}

/// Each node's view is that of the run, pruned at the least of its low mark and all that it has heard of other nodes.
pub fn views_pruned()
    ensures { ViewsPruned }
{}

/// Messages that differ are idle whenever they are given, in both runs.
pub fn late_idle()
    ensures { LateIdle }
{}

/// What is left to be done is the same in both runs.
pub fn left_alike()
    ensures { LeftAlike }
{}

/// A drain takes the same next event in both runs.
pub fn drains_alike()
    ensures { DrainsAlike }
{}

/// The events of a scene and of its whole drain are the same in both runs.
pub fn whole_drains_alike()
    ensures { WholeDrainsAlike }
{}

/// What a scene's run writes, with and without its journal, is the same in both runs.
pub fn outputs_alike()
    ensures { OutputsAlike }
{}
