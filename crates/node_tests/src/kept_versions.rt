//! Scenes whose number of versions tells when a node prunes, and at what mark.

use cluster_run::PrunedCluster;
use scene_text::read_scene;
use std::alloc::Global;
use std::process::Abort;
use std::test::Fail;

/// A session writes one key three times at the only node.
const ONE_NODE: &[u8] =
    b"str 1\nnodes 1\npart 1 1\nsession 1\ntx\nput a@1 1\ntx\nput a@1 2\ntx\nput a@1 3\nschedule\nc 1 10\ndrain\nend\n";

/// The same where another node was never heard.
const UNHEARD_NODE: &[u8] =
    b"str 1\nnodes 2\npart 1 1\nsession 1\ntx\nput a@1 1\ntx\nput a@1 2\ntx\nput a@1 3\nschedule\nc 1 10\ndrain\nend\n";

/// A message that is idle tells its receiver nothing.
const HEARD_IDLE: &[u8] =
    b"str 1\nnodes 2\npart 1 1\nsession 1\ntx\nput a@1 1\ntx\nput a@1 1\ntx\nget a@1\nsession 2\ntx\nput a@1 1\n\
    schedule\nc 2 1\nc 2 0\nc 1 0\nc 1 0\nc 1 0\nc 1 0\nc 1 0\nc 1 0\nc 2 0\nd 1\nd 2\nd 3\nc 1 0\nend\n";

/// A message that comes late lowers nothing that was heard.
const HEARD_SET: &[u8] =
    b"str 1\nnodes 2\npart 1 1 2\npart 2 1\nsession 1\ntx\nput a@1 1\ntx\nput a@1 1\nsession 2\ntx\nput b@2 1\n\
    put a@1 1\ntx\nneed b@2 1\nschedule\nc 1 0\nc 2 0\nc 1 0\nc 1 0\nd 1\nc 2 0\nc 2 0\nd 2\nc 1 0\nc 1 0\nc 1 0\n\
    d 4\nc 2 0\nc 2 2\nc 2 0\nd 6\nd 5\nend\n";

/// A message carries the low mark at the end of the step that sent it.
const LOW_AT_START: &[u8] =
    b"str 1\nnodes 2\npart 1 1\nsession 1\ntx\nput a@1 1\nsession 1\ntx\nput a@1 3\nsession 2\ntx\nput a@1 1\n\
    schedule\nc 3 1\nc 1 0\nc 1 0\nc 3 0\nc 1 0\nc 3 0\nd 1\nc 2 2\nd 2\nd 3\nend\n";

/// A repeated read of a decided transaction is answered from the pruned versions.
const REPLY_DIFFERS: &[u8] =
    b"str 1\nnodes 2\npart 1 1\nsession 1\ntx\nput a@1 6\nsession 1\ntx\nput a@1 1\nsession 2\ntx\nadd a@1 1\n\
    schedule\nc 1 0\nc 3 1\nc 1 0\nc 3 0\nc 1 0\nd 1\nd 2\nc 3 0\nd 3\nd 4\nc 2 2\nd 5\nd 1\nend\n";

/// A late Prepare of a decided transaction is refused for the writer that is left.
const REFUSE_DIFFERS: &[u8] =
    b"str 1\nnodes 2\npart 1 1 2\nsession 1\ntx\nput a@1 1\ntx\nput a@1 1\nsession 2\ntx\nput a@1 7\ntx\nput a@1 1\n\
    schedule\nc 2 0\nc 2 0\nc 2 0\nc 1 0\nc 1 0\nc 1 0\nd 2\nd 4\nc 1 0\nc 1 0\nc 1 0\nc 2 2\nd 6\nd 7\nd 1\nend\n";

/// Each scene, and the versions that its nodes keep.
static CASES: [(&[u8], u64); 7] = [
    (ONE_NODE, 1),
    (UNHEARD_NODE, 3),
    (HEARD_IDLE, 2),
    (HEARD_SET, 3),
    (LOW_AT_START, 1),
    (REPLY_DIFFERS, 1),
    (REFUSE_DIFFERS, 3),
];

// Behind a call: a proof then has no table in sight.
fn cases() -> &'static [(&'static [u8], u64)] {
    &CASES
}

/// A cluster that prunes, at the beginning of the scene of a text.
fn cluster_of(alloc: Global, text: &[u8]) -> Result<PrunedCluster, Fail> {
    let scene = read_scene(alloc, text)?;
    Ok(PrunedCluster::new(alloc, scene)?)
}

/// Runs the schedule, and drains the cluster if the scene says so.
fn run(cluster: &mut PrunedCluster) -> Result<(), Fail> {
    let drains = cluster.scene().drain();
    cluster.run_schedule()?;
    if drains {
        cluster.drain()?;
    }
    Ok(())
}

fn check_kept(
    rt: &(impl Abort + AllocGlobal),
    cluster: &PrunedCluster,
    kept: u64,
) -> Result<(), Fail> {
    assert_eq!(rt; cluster.kept(), kept);
    let counts = cluster.counts();
    let answers = cluster.answers().len();
    assert_eq!(rt;
        counts.commits.wrapping_add(counts.aborts) as usize,
        answers
    );
    let events = cluster.scene().schedule().len();
    assert!(rt; events <= cluster.journal().len());
    assert!(rt; cluster.keys().len() > 0);
    Ok(())
}

fn check(rt: &(impl Abort + AllocGlobal), text: &[u8], kept: u64) -> Result<(), Fail> {
    let mut cluster = cluster_of(rt.alloc(), text)?;
    run(&mut cluster)?;
    check_kept(rt, &cluster, kept)
}

#[test]
fn old_versions_go(rt: HostRuntime) -> Result<(), Fail> {
    for (text, kept) in cases().iter() {
        check(&rt, text, *kept)?;
    }
    Ok(())
}
