//! Laws of every run: functions without effect, each of which carries one law.
ghost use Rattle.si_laws.specs.Laws.Times.{DependenciesEarlier};
ghost use Rattle.spsi_laws.specs.Headline.{HeadlineHolds};
ghost use Rattle.spsi_laws.specs.Laws.Cascades.{CascadesEnd};
ghost use Rattle.spsi_laws.specs.Laws.Dependencies.{DependenciesLive, DependenciesStand};
ghost use Rattle.spsi_laws.specs.Laws.Drain.{DrainFollows, DrainLowers, DrainRests, DrainStops};
ghost use Rattle.spsi_laws.specs.Laws.Ends.{EndsAtRest, RestClosed};
ghost use Rattle.spsi_laws.specs.Laws.Newest.{NewestHolds};
ghost use Rattle.spsi_laws.specs.Laws.Pairs.{PairsHold, PairsHoldFurther};
ghost use Rattle.spsi_laws.specs.Laws.Rest.{RestHolds};
ghost use Rattle.spsi_laws.specs.Laws.Speculation.{SpeculationHolds};
ghost use Rattle.spsi_laws.specs.Laws.UnderWay.{UnderWayHolds};
ghost use Rattle.spsi_laws.specs.Laws.Valid.{MessagesValid};
ghost use Rattle.spsi_laws.specs.Laws.Work.{DeliveryLowers, LeftAtOpening, RepeatsRaise, StepLowers, WorkBounded};

/// After each event each dependency is undecided, with a local commit timestamp at or below the snapshot.
pub fn dependencies_stand()
    ensures { DependenciesStand }
{}

/// A dependency has a smaller number, also where the transaction is decided.
pub fn dependencies_earlier()
    ensures { DependenciesEarlier }
{}

/// One pass by rising number ends every cascade: after a transaction's turn neither it nor one of a smaller number is undecided
/// and depends on one that aborted.
pub fn cascades_end()
    ensures { CascadesEnd }
{}

/// No writer that an undecided transaction has read from is aborted, and each of its dependencies is an undecided transaction of its node with
/// a local commit timestamp above its own snapshot and at or below that of the one that depends on it.
pub fn dependencies_live()
    ensures { DependenciesLive }
{}

/// Where an undecided transaction has read from an undecided one, that one is of its node, and its Local version with the value that was read is
/// the version that the node sees at the reader's snapshot.
pub fn newest_holds()
    ensures { NewestHolds }
{}

/// Of two transactions that an undecided one has read from or depends on, and that wrote one key, one is before the other.
pub fn pairs_hold()
    ensures { PairsHold }
{}

/// The same of any two that an undecided one or one of its dependencies has read from or depends on.
pub fn pairs_hold_further()
    ensures { PairsHoldFurther }
{}

/// Speculative snapshot isolation after every event: newest reads, live dependencies and ordered pairs of each undecided transaction.
pub fn speculative_isolation_holds()
    ensures { SpeculationHolds }
{}

/// What is promised of a run, of every one: its answers are a run of the snapshot isolation machine, after each event speculative snapshot isolation
/// holds, nothing commits before what it depends on or has read from, each abort has the cause that it names, and each answer was given where its
/// transaction was decided so.
pub fn headline_holds()
    ensures { HeadlineHolds }
{}

/// At the opening what is left is the work of the scene.
pub fn left_at_opening()
    ensures { LeftAtOpening }
{}

/// The first delivery of a message leaves less, also where it is idle.
pub fn delivery_lowers()
    ensures { DeliveryLowers }
{}

/// A client step that is not idle leaves less.
pub fn step_lowers()
    ensures { StepLowers }
{}

/// A run that gives no message twice has no more events that are not idle than there is work.
pub fn work_bounded()
    ensures { WorkBounded }
{}

/// Each event of the drain leaves less.
pub fn drain_lowers()
    ensures { DrainLowers }
{}

/// After the drain's events its rule names no event: what is left is fuel enough.
pub fn drain_stops()
    ensures { DrainStops }
{}

/// The drain's events are those that its rule names one after the other.
pub fn drain_follows()
    ensures { DrainFollows }
{}

/// The drain's rule names no event exactly where every message was given and every client step is idle.
pub fn drain_rests()
    ensures { DrainRests }
{}

/// A message that is given again raises what is left by less than it counts for.
pub fn repeats_raise()
    ensures { RepeatsRaise }
{}

/// Every message of a run goes to a node of the scene and is valid there: no node takes it for a strange one.
pub fn messages_valid()
    ensures { MessagesValid }
{}

/// Where an undecided transaction waits for a participant that it has asked, or for the value of a key, a message of that was never given, or it waits at the
/// master: its Prepare is parked there, or its read waits there.
pub fn under_way_holds()
    ensures { UnderWayHolds }
{}

/// Where every message was given and every client step is idle, every transaction is answered.
pub fn rest_holds()
    ensures { RestHolds }
{}

/// Where every message was given and every client step is idle, no transaction is begun and undecided, and none has still to begin.
pub fn rest_closed()
    ensures { RestClosed }
{}

/// The run of a scene with a drain ends where every message was given and every client step is idle: every transaction is answered, and its last line has
/// `held=0` and `unbegun=0`.
pub fn ends_at_rest()
    ensures { EndsAtRest }
{}
