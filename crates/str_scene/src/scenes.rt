//! Scenes and their sessions.
ghost use Rattle.std.specs.Prelude.{◌≡◌, IfOk, ◌++◌, ◌∷◌, [], OnOk, OnErr};
ghost use Rattle.str_scene.specs.SceneLimits.{IsScene};

use crate::keys::KeyTable;
use crate::names::{Event, OpList};
use partition_map::PartRow;
use std::alloc::{AllocError, Global};
use std::marker::{Model, Send, Sync};
use str_base::NodeId;

/// A session: its node, and the scripts of its transactions in order.
#[derive(Drop)]
pub struct SessionText {
    node: NodeId,
    txs: Vec<OpList>,
}

impl Model for SessionText {
    ghost use Rattle.str_scene.specs.Scenes.{Session};

    ghost Value = { Session };

    ghost view = { λ s. record { node = s.node; txs = s.txs.items } };
}

/// A scene: what is fixed in a run. Its type keeps all limits of a scene, and that all that it names exists.
#[derive(Drop)]
pub struct Scene {
    version: u8,
    nodes: u8,
    parts: Vec<PartRow>,
    keys: KeyTable,
    sessions: Vec<SessionText>,
    schedule: Vec<Event>,
    drain: bool,
}

impl Model for Scene {
    ghost use Rattle.str_scene.specs.Scenes.{Scene as Value_};
    ghost use Rattle.str_scene.specs.SceneLimits.{IsScene};

    ghost Value = { Value_ };

    ghost view = { λ s. record { version = s.version; nodes = s.nodes; parts = s.parts.items; keys = s.keys; sessions = s.sessions.items; schedule = s.schedule.items; drain = s.drain } };

    ghost invariant = { λ s. IsScene (record { version = s.version; nodes = s.nodes; parts = s.parts.items; keys = s.keys; sessions = s.sessions.items; schedule = s.schedule.items; drain = s.drain }) };
}

impl SessionText {
    /// A session with these scripts.
    pub(crate) fn new(node: NodeId, txs: Vec<OpList>) -> SessionText
        ensures { result ≡ record { node = node; txs = txs.items } }
    {
        SessionText { node, txs }
    }

    /// The session's node.
    pub fn node(&self) -> NodeId
        ensures { result ≡ self.now.node }
    {
        self.node
    }

    /// The scripts of its transactions in order.
    pub fn txs(&self) -> &[OpList]
        ensures { result.now ≡ self.now.txs }
    {
        self.txs.as_slice()
    }

    /// One more script. Where memory runs out nothing changes.
    pub(crate) fn push(&mut self, ops: OpList) -> Result<(), AllocError>
        ensures ok { OnOk result (self.new ≡ record self.old { txs = self.old.txs ++ ops ∷ [] }) }
        ensures err { OnErr result (self.new ≡ self.old) }
    {
        self.txs.push(ops)?;
        Ok(())
    }

    /// An equal session.
    pub fn copy(&self, alloc: Global) -> Result<SessionText, AllocError>
        ensures { IfOk result (λ s. s ≡ self.now) }
    {
        let mut txs = Vec::new(alloc);
        for ops in self.txs.as_slice() {
            txs.push(ops.copy())?;
        }
        Ok(SessionText {
            node: self.node,
            txs,
        })
    }
}

impl Scene {
    ghost use Rattle.str_scene.specs.Scenes.{Scene as Value_};

    /// A scene of these parts, which keep its limits.
    pub(crate) fn new(
        version: u8,
        nodes: u8,
        parts: Vec<PartRow>,
        keys: KeyTable,
        sessions: Vec<SessionText>,
        schedule: Vec<Event>,
        drain: bool,
    ) -> Scene
        requires { IsScene (record { version = version; nodes = nodes; parts = parts.items; keys = keys; sessions = sessions.items; schedule = schedule.items; drain = drain }) }
        ensures { result ≡ record { version = version; nodes = nodes; parts = parts.items; keys = keys; sessions = sessions.items; schedule = schedule.items; drain = drain } }
    {
        Scene {
            version,
            nodes,
            parts,
            keys,
            sessions,
            schedule,
            drain,
        }
    }

    /// The version of the format, 1 or 2.
    pub fn version(&self) -> u8
        ensures value { result ≡ self.now.version }
        ensures limits { IsScene self.now }
    {
        self.version
    }

    /// The number of nodes.
    pub fn nodes(&self) -> u8
        ensures value { result ≡ self.now.nodes }
        ensures limits { IsScene self.now }
    {
        self.nodes
    }

    /// The replicas of each partition.
    pub fn parts(&self) -> &[PartRow]
        ensures value { result.now ≡ self.now.parts }
        ensures limits { IsScene self.now }
    {
        self.parts.as_slice()
    }

    /// The table of keys.
    pub fn keys(&self) -> &KeyTable
        ensures value { result.now ≡ self.now.keys }
        ensures limits { IsScene self.now }
    {
        &self.keys
    }

    /// The sessions in order.
    pub fn sessions(&self) -> &[SessionText]
        ensures value { result.now ≡ self.now.sessions }
        ensures limits { IsScene self.now }
    {
        self.sessions.as_slice()
    }

    /// The schedule.
    pub fn schedule(&self) -> &[Event]
        ensures value { result.now ≡ self.now.schedule }
        ensures limits { IsScene self.now }
    {
        self.schedule.as_slice()
    }

    /// Whether the drain follows the schedule.
    pub fn drain(&self) -> bool
        ensures value { result ≡ self.now.drain }
        ensures limits { IsScene self.now }
    {
        self.drain
    }

    /// An equal scene.
    pub fn copy(&self, alloc: Global) -> Result<Scene, AllocError>
        ensures { IfOk result (λ s. s ≡ self.now) }
    {
        Ok(Scene {
            version: self.version,
            nodes: self.nodes,
            parts: copied_rows(alloc, self.parts.as_slice())?,
            keys: self.keys.copy()?,
            sessions: copied_sessions(alloc, self.sessions.as_slice())?,
            schedule: copied_events(alloc, self.schedule.as_slice())?,
            drain: self.drain,
        })
    }
}

fn copied_rows(alloc: Global, rows: &[PartRow]) -> Result<Vec<PartRow>, AllocError>
    ensures { IfOk result (λ v. v.items ≡ rows.now) }
{
    let mut copy = Vec::new(alloc);
    for row in rows {
        copy.push(row.copy())?;
    }
    Ok(copy)
}

fn copied_sessions(alloc: Global, sessions: &[SessionText]) -> Result<Vec<SessionText>, AllocError>
    ensures { IfOk result (λ v. v.items ≡ sessions.now) }
{
    let mut copy = Vec::new(alloc);
    for session in sessions {
        copy.push(session.copy(alloc)?)?;
    }
    Ok(copy)
}

fn copied_events(alloc: Global, events: &[Event]) -> Result<Vec<Event>, AllocError>
    ensures { IfOk result (λ v. v.items ≡ events.now) }
{
    let mut copy = Vec::new(alloc);
    copy.extend_from_slice(events)?;
    Ok(copy)
}

fn sendable<T: Send + Sync>(_: &T) {}

fn all_sendable(scene: &Scene, session: &SessionText, keys: &KeyTable) {
    sendable(scene);
    sendable(session);
    sendable(keys);
}
