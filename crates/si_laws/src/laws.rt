//! Laws of every run: functions without effect, each of which carries one law.
ghost use Rattle.si_laws.specs.Laws.Times.{TimesBounded, TimesHold};
ghost use Rattle.si_laws.specs.Laws.Lasting.{AnswersGrow, DecidedStay};
ghost use Rattle.si_laws.specs.Laws.Cut.{CutHolds};
ghost use Rattle.si_laws.specs.Laws.Asking.{PresAsked};
ghost use Rattle.si_laws.specs.Laws.Session.{SessionHolds};
ghost use Rattle.si_laws.specs.Laws.Answers.{AbortsAnsweredHold, CommitsAnsweredHold};
ghost use Rattle.si_laws.specs.Laws.Reasons.{CausesNamed, GateLawHolds, ReasonsHold};
ghost use Rattle.si_laws.specs.Laws.Stages.{AcksKnown, StagesForward};
ghost use Rattle.si_laws.specs.Laws.Presence.{PresenceHolds, PresenceStands};
ghost use Rattle.si_laws.specs.Laws.Marks.{HomeMarksHold, MarksHold};
ghost use Rattle.si_laws.specs.Laws.Apart.{ApartHolds, OrderHolds};
ghost use Rattle.si_laws.specs.Laws.Isolation.{IsolationHolds};
ghost use Rattle.si_laws.specs.Laws.Prefix.{PrefixHolds};

/// Times at a node, over every list of events.
pub fn times_hold()
    ensures { TimesHold }
{}

/// Every timestamp is below 2^62 and the number of proposals, of which there are 1024 * 113 at most.
pub fn times_bounded()
    ensures { TimesBounded }
{}

/// A decided transaction stays as it is.
pub fn decided_stay()
    ensures { DecidedStay }
{}

/// Answers once given are never changed, nor put in another order.
pub fn answers_grow()
    ensures { AnswersGrow }
{}

/// Each Pre version is of a transaction whose origin has asked the version's partition.
pub fn pres_asked()
    ensures { PresAsked }
{}

/// Answers by session: places and names, and the order of snapshots.
pub fn session_holds()
    ensures { SessionHolds }
{}

/// A pair of another node's transaction and a partition moves only forward: untouched, parked, standing, done.
pub fn stages_forward()
    ensures { StagesForward }
{}

/// Where a node sent an Ack, the pair's versions stand there, or the pair is done.
pub fn acks_known()
    ensures { AcksKnown }
{}

/// A run that is cut off has a beginning of the journal and of the answers.
pub fn cut_holds()
    ensures { CutHolds }
{}

/// Versions of one key at its master are in order: of two, of two transactions, one is final at or below the other's snapshot, or both
/// are Local.
pub fn order_at_master()
    ensures { OrderHolds }
{}

/// Conflicting versions do not meet: a Pre and a Local version of one key never stand together, a master has one Pre version of a key at
/// most, and of two committed transactions that wrote one key one is final at or below the other's snapshot.
pub fn apart_holds()
    ensures { ApartHolds }
{}

/// Where versions of a transaction stand: at each replica of what a committed one wrote, Final, or Pre with the pair not done there; Pre at
/// the answered timestamp at each participant that answered an undecided one; and no Pre version is of a pair that is done there.
pub fn presence_stands()
    ensures { PresenceStands }
{}

/// What a committed transaction depended on or read from committed first, and cascades end in their event.
pub fn gate_law_holds()
    ensures { GateLawHolds }
{}

/// Who has read a key or waits for it has left its mark at its own node.
pub fn home_marks_hold()
    ensures { HomeMarksHold }
{}

/// The answer of an abort names the cause with which its transaction stands aborted.
pub fn causes_named()
    ensures { CausesNamed }
{}

/// Where versions of a transaction stand, by what was given: where the pair is not done, its decision was never given to the node.
pub fn presence_holds()
    ensures { PresenceHolds }
{}

/// The gate law, and each abort has the cause that it names: a conflict with another transaction that was found when it asked to commit, evicted it
/// or was refused by the master of the key's partition, a dependency that aborted or came too late, or a wish of the script.
pub fn reasons_hold()
    ensures { ReasonsHold }
{}

/// Each answer of an abort was given where its transaction aborted by the cause that the answer names, and the cause is true.
pub fn aborts_answered()
    ensures { AbortsAnsweredHold }
{}

/// Each answer of a commit was given where its transaction committed with that final timestamp, and its gets had given what the answer tells.
pub fn commits_answered()
    ensures { CommitsAnsweredHold }
{}

/// Who has read a key has left its mark: at its own node, and at the master that replied; and where it has read from a transaction that was
/// undecided then and has committed since, at each participant of that one for the key's partition, or in a Commit under way to it.
pub fn marks_hold()
    ensures { MarksHold }
{}

/// Snapshot isolation: the answers of every run are a run of the snapshot isolation machine, after each answer.
pub fn snapshot_isolation_holds()
    ensures { IsolationHolds }
{}

/// Committed answers and wishes see their snapshots, and each read of committed data by an undecided transaction is the newest at its snapshot.
pub fn prefix_holds()
    ensures { PrefixHolds }
{}
