//! The made scene of a seed.
ghost use Rattle.std.specs.Prelude.{◌≡◌, ◌≤◌, IfErr, IfOk, None, OnOk, length, map, true};
ghost use Rattle.scene_gen.specs.Building.{IsDrawn, IsSmall, TakesScripts, TakesSessions, numbers, with_entries, with_keys, with_rows, with_script, with_scripts, with_sessions};
ghost use Rattle.scene_gen.specs.Made.{after_scripts, after_sessions, made_entries, key_of, made, named, node_of, number_in, numbered, row_of, made_rows, made_scripts, made_sessions, with_pairs};
ghost use Rattle.str_base.specs.declared.limits.TheConstants.{KEYS};
ghost use Rattle.str_scene.specs.Drafts.{empty_draft, may_have_entry, with_key, with_nodes};
ghost use Rattle.str_scene.specs.Lists.{Each};
ghost use Rattle.str_scene.specs.Refusals.{key_fault};
ghost use Rattle.str_scene.specs.SceneLimits.{IsKey};
ghost use Rattle.str_scene.specs.declared.faults.SceneFault.TheVariants.{Memory};

use crate::draws::{Draws, MadeKey, MadeOp};
use partition_map::PartRow;
use std::alloc::{AllocError, Global};
use str_base::{KeyId, NodeId};
use str_scene::{Op, OpList, Scene, SceneBuild, SceneFault};

/// The number of nodes.
const MADE_NODES: u8 = 3;

/// The number of partitions.
const MADE_PARTS: u8 = 6;

/// The number of sessions.
const MADE_SESSIONS: u8 = 12;

/// The number of transactions of each session.
const MADE_TRANSACTIONS: u8 = 25;

/// The number of entries of the schedule.
const MADE_ENTRIES: u64 = 6000;

/// The made scene of a seed: 3 nodes, 6 partitions of two replicas each, 12 sessions of 25 transactions, a schedule of 6,000
/// entries, and a drain. All that varies is drawn from the generator of the seed. It fails where memory runs out.
pub fn make(alloc: Global, seed: u64) -> Result<Scene, AllocError>
    ensures { IfOk result (λ s. s ≡ made seed) }
{
    match build_scene(alloc, seed) {
        Ok(scene) => Ok(scene),
        Err(SceneFault::Memory) => Err(AllocError),
        Err(_) => unreachable!(),
    }
}

/// The made scene of a seed, built item by item.
fn build_scene(alloc: Global, seed: u64) -> Result<Scene, SceneFault>
    ensures scene { IfOk result (λ s. s ≡ made seed) }
    ensures refused { IfErr result (λ f. f ≡ Memory) }
{
    let mut draws = Draws::new(seed);
    let mut build = SceneBuild::new(alloc, 1);
    build.nodes(MADE_NODES)?;
    add_parts(&mut build)?;
    add_sessions(&mut build, &mut draws)?;
    add_entries(&mut build, &mut draws)?;
    build.drain()?;
    build.finish()
}

/// All partitions, each with a master and one slave. It fails where memory runs out, as do those below.
fn add_parts(build: &mut SceneBuild) -> Result<(), SceneFault>
    requires { build.old ≡ with_nodes 3 (empty_draft 1) }
    ensures built { OnOk result (build.new ≡ with_rows (made_rows 6 1) build.old) }
    ensures refused { IfErr result (λ f. f ≡ Memory) }
{
    for place in 0..MADE_PARTS {
        build.part(row_of(place + 1))?;
    }
    Ok(())
}

/// The replicas of a partition.
fn row_of(part: u8) -> PartRow
    requires low { 1 ≤ part }
    requires high { part ≤ 6 }
    ensures { result ≡ row_of part }
{
    let mut row = PartRow::new();
    row.push(NodeId(1 + (part - 1) % MADE_NODES));
    row.push(NodeId(1 + part % MADE_NODES));
    row
}

/// All sessions, one after the other.
fn add_sessions(build: &mut SceneBuild, draws: &mut Draws) -> Result<(), SceneFault>
    requires place { TakesSessions build.old }
    requires room { IsSmall (with_sessions (made_sessions 12 1 draws.old) build.old) }
    ensures built { OnOk result (build.new ≡ with_sessions (made_sessions 12 1 draws.old) build.old) }
    ensures rest { OnOk result (draws.new ≡ after_sessions 12 draws.old) }
    ensures refused { IfErr result (λ f. f ≡ Memory) }
{
    for place in 0..MADE_SESSIONS {
        build.session(node_of(place + 1))?;
        add_scripts(build, draws)?;
    }
    Ok(())
}

/// The node of a session.
fn node_of(session: u8) -> NodeId
    requires { 1 ≤ session }
    ensures { result ≡ node_of session }
{
    NodeId(1 + (session - 1) % MADE_NODES)
}

/// The transactions of a session.
fn add_scripts(build: &mut SceneBuild, draws: &mut Draws) -> Result<(), SceneFault>
    requires place { TakesScripts build.old }
    requires room { IsSmall (with_scripts (made_scripts 25 draws.old) build.old) }
    ensures built { OnOk result (build.new ≡ with_scripts (made_scripts 25 draws.old) build.old) }
    ensures rest { OnOk result (draws.new ≡ after_scripts 25 draws.old) }
    ensures refused { IfErr result (λ f. f ≡ Memory) }
{
    for _place in 0..MADE_TRANSACTIONS {
        let script = draws.script();
        add_script(build, script.as_slice())?;
    }
    Ok(())
}

/// One more transaction, whose keys are put into the table.
fn add_script(build: &mut SceneBuild, script: &[MadeOp]) -> Result<(), SceneFault>
    requires drawn { IsDrawn script.now }
    requires place { TakesScripts build.old }
    requires room { IsSmall (with_script script.now build.old) }
    ensures built { OnOk result (build.new ≡ with_script script.now build.old) }
    ensures refused { IfErr result (λ f. f ≡ Memory) }
{
    let ops = all_numbered(build, script)?;
    build.tx(ops)
}

/// Operations by the numbers of their keys, which are put into the table.
fn all_numbered(build: &mut SceneBuild, script: &[MadeOp]) -> Result<OpList, SceneFault>
    requires short { length script.now ≤ 3 }
    requires keys { Each (IsKey 6) (map key_of script.now) }
    requires place { TakesScripts build.old }
    requires room { length (with_pairs (map key_of script.now) build.old.keys.names) ≤ KEYS }
    ensures value { IfOk result (λ ops. ops ≡ numbers build.old.keys.names script.now) }
    ensures added { OnOk result (build.new ≡ with_keys script.now build.old) }
    ensures refused { IfErr result (λ f. f ≡ Memory) }
{
    let mut ops = OpList::new();
    for op in script {
        let op = numbered(build, *op)?;
        ops.push(op);
    }
    Ok(ops)
}

/// An operation by the number of its key.
fn numbered(build: &mut SceneBuild, op: MadeOp) -> Result<Op, SceneFault>
    requires { key_fault (key_of op) build.old ≡ None }
    ensures value { IfOk result (λ o. o ≡ numbered build.old.keys.names op) }
    ensures added { OnOk result (build.new ≡ with_key (key_of op) build.old) }
    ensures refused { IfErr result (λ f. f ≡ Memory) }
{
    match op {
        MadeOp::Get(key) => Ok(Op::Get(number_of(build, key)?)),
        MadeOp::Put(key, number) => Ok(Op::Put(number_of(build, key)?, number)),
        MadeOp::Add(key, number) => Ok(Op::Add(number_of(build, key)?, number)),
    }
}

/// The number of a key, which is put into the table where it is not there.
fn number_of(build: &mut SceneBuild, key: MadeKey) -> Result<KeyId, SceneFault>
    requires { key_fault (named key) build.old ≡ None }
    ensures value { IfOk result (λ k. k ≡ number_in build.old.keys.names key) }
    ensures added { OnOk result (build.new ≡ with_key (named key) build.old) }
    ensures refused { IfErr result (λ f. f ≡ Memory) }
{
    let name = [b'k', key.digit];
    build.key(&name, key.part)
}

/// The schedule.
fn add_entries(build: &mut SceneBuild, draws: &mut Draws) -> Result<(), SceneFault>
    requires place { may_have_entry build.old ≡ true }
    requires sessions { length build.old.sessions ≡ 12 }
    requires room { length build.old.schedule ≡ 0 }
    ensures built { OnOk result (build.new ≡ with_entries (made_entries 6000 1 draws.old) build.old) }
    ensures refused { IfErr result (λ f. f ≡ Memory) }
{
    for place in 0..MADE_ENTRIES {
        build.entry(draws.entry(place + 1))?;
    }
    Ok(())
}
