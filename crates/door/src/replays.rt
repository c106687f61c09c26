//! The run that a journal tells, done again by a cluster of its own.
ghost use Rattle.cluster_run.specs.Clusters.{IsRun, drained_from, events_of};
ghost use Rattle.spsi_laws.specs.Laws.Ends.{Ended};
ghost use Rattle.std.specs.Prelude.{◌≡◌, IfOk, None};
ghost use Rattle.str_model.specs.Drains.{next_event};
ghost use Rattle.str_model.specs.Runs.{run};
ghost use Rattle.str_scene.specs.SceneLimits.{IsScene};

use cluster_run::Cluster;
use std::alloc::{AllocError, Global};
use str_model::Done;
use str_scene::Scene;

/// A cluster of the scene in which the events of the journal have happened, and then those of the drain to its stop. The error is want of memory.
pub(crate) fn replayed(alloc: Global, scene: Scene, journal: &[Done]) -> Result<Cluster, AllocError>
    ensures scene { IfOk result (λ c. c.scene ≡ scene) }
    ensures world { IfOk result (λ c. c.world ≡ drained_from scene (run scene (events_of journal.now))) }
    ensures stop { IfOk result (λ c. next_event c.scene c.world ≡ None) }
    ensures ended { IfOk result (λ c. Ended c.scene c.world) }
    ensures limits { IfOk result (λ c. IsScene c.scene) }
    ensures run { IfOk result (λ c. IsRun c.scene c.world) }
{
    let mut cluster = Cluster::new(alloc, scene)?;
    for done in journal {
        cluster.event(done.event)?;
    }
    cluster.drain()?;
    let _scene = cluster.scene();
    Ok(cluster)
}
