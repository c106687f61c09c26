//! What a closed door tells.
ghost use Rattle.door.specs.Closings.{IsClosing};

use answer_board::Shown;
use cluster_run::Counts;
use str_model::{Answer, Done};

/// All that a drained cluster did: its journal, its answers and its numbers, which are those of the list of the note `shown`. Each answer stands
/// there at its place, and no transaction is held or has still to begin.
#[derive(Drop)]
pub struct Closing {
    pub journal: Vec<Done>,
    pub answers: Vec<Answer>,
    pub counts: Counts,
    pub shown: Shown,
    pub ghost told: { ∥ IsClosing journal.items answers.items counts shown.list ∥₁ },
}
