//! How many of a cluster's entries a board has.
ghost use Rattle.door.specs.Following.{extent_after, board_next};
ghost use Rattle.std.specs.Prelude.{◌≡◌, IfSome};

use answer_board::Entry;
use cluster_run::Cluster;

/// So many journal entries and so many answers. Of the answers that the last of these entries released so many are still due.
#[derive(Clone, Copy, Debug, Default, PartialEq, Eq)]
pub(crate) struct Extent {
    pub events: usize,
    pub answers: usize,
    pub due: u32,
}

impl Extent {
    /// The first entry of the cluster that the board lacks. It counts as one that it has from then on. None where it has them all.
    pub fn next(&mut self, cluster: &Cluster) -> Option<Entry>
        ensures entry { result ≡ board_next self.old cluster.now.world }
        ensures more { IfSome result (λ entry. self.new ≡ extent_after self.old entry) }
    {
        if self.due > 0 {
            let answer = cluster.answers().get(self.answers)?;
            self.answers += 1;
            self.due -= 1;
            return Some(Entry::Gave(answer.copy()));
        }
        let done = *cluster.journal().get(self.events)?;
        self.events += 1;
        self.due = done.answers;
        Some(Entry::Did(done))
    }
}
