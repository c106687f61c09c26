//! The laws of a race: functions without effect, each of which carries one law.
ghost use Rattle.race_round.specs.Races.{RaceBegins, RaceStands};

/// Nodes at the opening of a scene are those of a race of no round.
pub fn race_begins()
    ensures { RaceBegins }
{}

/// The logs of a race replay to its nodes and are closed.
pub fn race_stands()
    ensures { RaceStands }
{}
