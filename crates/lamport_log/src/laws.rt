//! The laws of the merge: functions without effect, each of which carries one law.
ghost use Rattle.lamport_log.specs.Merge.{MergeHolds, StampsBounded};

/// Closed logs that replay merge into the run of their events: its views, messages, delivered flags, journal and answers.
pub fn merge_holds()
    ensures { MergeHolds }
{}

/// In closed logs the i-th entry of the merge has a stamp of at most i.
pub fn stamps_bounded()
    ensures { StampsBounded }
{}
