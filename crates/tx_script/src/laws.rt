//! Laws of scripts: functions without effect, each of which carries one law.
ghost use Rattle.str_model.specs.Evaluation.{AtEnd, Unmet as AtNeed, Wished as AtAbort};
ghost use Rattle.tx_script.specs.declared.turns.Turn.TheVariants.{End, Unmet, Wished};
ghost use Rattle.tx_script.specs.Doing.{ReadsDone, TurnsDone};
ghost use Rattle.tx_script.specs.Evaluating.{StopsAs};

/// A script that turns and kept reads bring to its stop has the gets and the writes of its evaluation, which stops there: past the
/// last operation, at a need that is not met, or at an abort.
pub fn scripts_evaluated()
    ensures past { StopsAs End AtEnd }
    ensures need { StopsAs Unmet AtNeed }
    ensures wish { StopsAs Wished AtAbort }
{}

/// A node does with the next operation of an own transaction what the turn of its script says, also where a value has come for it.
pub fn scripts_done()
    ensures turn { TurnsDone }
    ensures read { ReadsDone }
{}
