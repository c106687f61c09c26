//! The numbers of the last line.
ghost use Rattle.cluster_run.specs.Clusters.{AreFew, world_of};
ghost use Rattle.cluster_run.specs.Printing.{counted};
ghost use Rattle.std.specs.List.{count_by, sum_by};
ghost use Rattle.std.specs.Prelude.{◌≡◌, ◌≤◌, length, not};
ghost use Rattle.str_model.specs.Lines.{counts, is_commit};

use crate::lines::Counts;
use crate::members::{begun_among, held_among};
use crate::parts::Parts;
use str_model::{Answer, Outcome};
use str_scene::Scene;

impl Parts {
    /// The numbers of the last line.
    pub fn counts(&self) -> Counts
        requires { AreFew (world_of self.now) }
        ensures { counted result ≡ counts self.now.scene (world_of self.now) }
    {
        let begun = begun_among(self.nodes.as_slice());
        let answers = self.out.answers().as_slice();
        Counts {
            commits: commits_among(answers),
            aborts: aborts_among(answers),
            held: held_among(self.nodes.as_slice()),
            unbegun: scripts_of(&self.scene).saturating_sub(begun),
            messages: self.out.messages().len() as u64,
        }
    }
}

/// Whether a transaction committed.
fn has_committed(outcome: &Outcome) -> bool
    ensures { result ≡ is_commit outcome.now }
{
    match outcome {
        Outcome::Committed { .. } => true,
        Outcome::Aborted { .. } => false,
    }
}

/// How many of these answers are commits.
fn commits_among(answers: &[Answer]) -> u32
    requires { length answers.now ≤ 1024 }
    ensures { result ≡ count_by (λ a. is_commit a.outcome) answers.now }
{
    answers.iter().filter(|a| has_committed(&a.outcome)).count() as u32
}

/// How many of these answers are aborts.
fn aborts_among(answers: &[Answer]) -> u32
    requires { length answers.now ≤ 1024 }
    ensures { result ≡ count_by (λ a. not (is_commit a.outcome)) answers.now }
{
    answers
        .iter()
        .filter(|a| !has_committed(&a.outcome))
        .count() as u32
}

/// How many transactions the sessions of a scene have.
fn scripts_of(scene: &Scene) -> u32
    ensures { result ≡ sum_by (λ s. length s.txs) scene.now.sessions }
{
    let mut total = 0;
    for session in scene.sessions() {
        total += session.txs().len() as u32;
    }
    total
}
