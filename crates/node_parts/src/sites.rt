//! What a node knows of its scene.
ghost use Rattle.node_parts.specs.NodeScripts.{scripts_of};
ghost use Rattle.node_parts.specs.Sites.{has_script, is_at};
ghost use Rattle.std.specs.Prelude.{◌≡◌, ◌≤◌, ◌-◌, IfOk, length, sum_by, true};
ghost use Rattle.str_model.specs.NodeFacts.{PlacedIn};
ghost use Rattle.str_model.specs.Strange.{has_node};
ghost use Rattle.str_scene.specs.SceneLimits.{IsScene};
ghost use Rattle.str_scene.specs.Scenes.{Session, map_of, nth, script_at};

use partition_map::{PartRow, PartitionMap};
use std::alloc::{AllocError, Global};
use std::marker::{Model, Send, Sync};
use std::sync::Arc;
use str_base::{KeyId, NodeId, PartId, SessionId};
use str_scene::{OpList, Scene, SessionText, TxPlace};

/// A node's place in a scene: the scene, one of its nodes, and the map of its partitions. It is seen as the scene and the node. Places that are
/// made beside one another share the scene and the map.
#[derive(Drop)]
pub struct Site {
    id: NodeId,
    scene: Arc<Scene, Global>,
    map: Arc<PartitionMap, Global>,
}

impl Model for Site {
    ghost use Rattle.node_parts.specs.Sites.{IsSite};
    ghost use Rattle.std.specs.Arc.{arc_value};
    ghost use Rattle.str_scene.specs.Scenes.{Here};

    ghost Value = { Here };

    ghost view = { λ s. record { scene = arc_value s.scene; node = s.id } };

    ghost invariant = { λ s. IsSite (arc_value s.scene) s.id (arc_value s.map) };
}

impl Site {
    /// A node of a scene, which is copied. It fails where memory runs out.
    pub fn new(alloc: Global, id: NodeId, scene: &Scene) -> Result<Site, AllocError>
        requires { has_node (record { scene = scene.now; node = id }) id ≡ true }
        ensures { IfOk result (λ s. s ≡ record { scene = scene.now; node = id }) }
    {
        let map = Arc::new(alloc, map_of(alloc, scene)?)?;
        let scene = Arc::new(alloc, scene.copy(alloc)?)?;
        Ok(Site { id, scene, map })
    }

    /// The place of another node in the same scene, which is shared and not copied. It fails where memory runs out.
    pub fn beside(&self, id: NodeId) -> Result<Site, AllocError>
        requires { has_node (record { scene = self.now.scene; node = id }) id ≡ true }
        ensures { IfOk result (λ s. s ≡ record { scene = self.now.scene; node = id }) }
    {
        let map = Arc::try_clone(&self.map)?;
        let scene = Arc::try_clone(&self.scene)?;
        Ok(Site { id, scene, map })
    }

    /// The node.
    pub fn id(&self) -> NodeId
        ensures value { result ≡ self.now.node }
        ensures exists { has_node self.now self.now.node ≡ true }
        ensures limits { IsScene self.now.scene }
    {
        self.id
    }

    /// The map of the partitions.
    pub fn map(&self) -> &PartitionMap
        ensures value { map_of self.now.scene ≡ result.now }
        ensures exists { has_node self.now self.now.node ≡ true }
        ensures limits { IsScene self.now.scene }
    {
        &self.map
    }

    /// The scene.
    pub fn scene(&self) -> &Scene
        ensures value { result.now ≡ self.now.scene }
        ensures exists { has_node self.now self.now.node ≡ true }
        ensures limits { IsScene self.now.scene }
    {
        &self.scene
    }

    /// Whether a session is one of the node.
    pub fn has_session(&self, session: SessionId) -> bool
        ensures { result ≡ is_at self.now (nth self.now.scene.sessions session.0) }
    {
        let sessions = self.scene.sessions();
        if session.0 == 0 || session.0 as usize > sessions.len() {
            return false;
        }
        sessions[session.0 as usize - 1].node() == self.id
    }

    /// How many scripts the sessions of the node have.
    pub fn scripts(&self) -> usize
        ensures { result ≡ scripts_of self.now.node self.now.scene.sessions }
    {
        scripts_of(self.scene.sessions(), self.id)
    }

    /// Whether there is a script at a place.
    pub fn has_script(&self, place: TxPlace) -> bool
        ensures { result ≡ has_script (nth self.now.scene.sessions place.session.0) place }
    {
        let sessions = self.scene.sessions();
        if place.session.0 == 0 || place.session.0 as usize > sessions.len() || place.index == 0 {
            return false;
        }
        let text = &sessions[place.session.0 as usize - 1];
        place.index as usize <= text.txs().len()
    }

    /// The script at a place of the node.
    pub fn script(&self, place: TxPlace) -> &OpList
        requires { PlacedIn self.now.scene (self.now.node.0 - 1) place }
        ensures { result.now ≡ script_at self.now.scene place }
    {
        let sessions = self.scene.sessions();
        let text = &sessions[place.session.0 as usize - 1];
        &text.txs()[place.index as usize - 1]
    }
}

/// How many scripts the sessions of a node have.
fn scripts_of(sessions: &[SessionText], node: NodeId) -> usize
    requires { sum_by (λ (s : Session). length s.txs) sessions.now ≤ 1024 }
    ensures { result ≡ scripts_of node sessions.now }
{
    let mut count = 0;
    for session in sessions {
        if session.node() == node {
            count += session.txs().len();
        }
    }
    count
}

/// The map of a scene.
fn map_of(alloc: Global, scene: &Scene) -> Result<PartitionMap, AllocError>
    ensures { IfOk result (λ m. map_of scene.now ≡ m) }
{
    let table = scene.keys();
    let mut keys: Vec<PartId> = Vec::new(alloc);
    for key in 0..table.len() {
        keys.push(table.part(KeyId(key)))?;
    }
    let rows = rows_of(alloc, scene)?;
    PartitionMap::new(alloc, &rows, &keys)
}

/// The rows of a scene.
fn rows_of(alloc: Global, scene: &Scene) -> Result<Vec<PartRow>, AllocError>
    ensures { IfOk result (λ v. v.items ≡ scene.now.parts) }
{
    let mut rows = Vec::new(alloc);
    for row in scene.parts() {
        rows.push(row.copy())?;
    }
    Ok(rows)
}

fn sendable<T: Send + Sync>(_: &T) {}

fn all_sendable(site: &Site) {
    sendable(site);
}
