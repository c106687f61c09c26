//! The law of participants: a function without effect, which carries it.
ghost use Rattle.commit_gate.specs.Answers.{ChangesKeepOrder, ParticipantsRise};

/// The participants of a transaction stand by rising partition, also once some are asked or have answered. So the partition that the
/// gate asks is the least of those that it may ask.
pub fn participants_rise()
    ensures given { ParticipantsRise }
    ensures changed { ChangesKeepOrder }
{}
