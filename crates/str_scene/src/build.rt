//! A scene that is built item by item. An item that no scene has at its place is refused.
ghost use Rattle.std.specs.Prelude.{◌≡◌, ◌⊎◌, ◌≤◌, ℕ, None, Some, length, slice_get, IfNone, OnOk, IfOk, IfErr, OnErr};
ghost use Rattle.str_base.specs.declared.limits.TheConstants.{OPERATIONS, REPLICAS};
ghost use Rattle.str_scene.specs.DraftLimits.{HasNumber, HasReading, IsDraft};
ghost use Rattle.str_scene.specs.Drafts.{add_tx, with_drain, empty_draft, is_before_schedule, may_have_tx, with_entry, with_key, with_nodes, with_row, with_session, with_text, with_tx};
ghost use Rattle.str_scene.specs.Keys.{number_of, string_number};
ghost use Rattle.str_scene.specs.Refusals.{IsRefused, drain_fault, entry_fault, finish_fault, key_fault, keys_in_order, nodes_fault, part_fault, session_fault, text_fault, texts_in_order, transaction_count, tx_fault};
ghost use Rattle.str_scene.specs.declared.names.Op.{Op as AnyOp};

use crate::checks::{are_known, first_fault, is_entry, is_row, is_script, is_up_to, sessions_at};
use crate::faults::SceneFault;
use crate::keys::{KeyTable, spells_name};
use crate::names::{Event, OpList};
use crate::numbered::{Numbered, counts_to, seen_in_sessions};
use crate::scenes::{Scene, SessionText};
use partition_map::PartRow;
use std::alloc::{AllocError, Global};
use std::marker::Model;
use str_base::limits::{
    NODE_SESSIONS, NODES, PARTITIONS, SCHEDULE_ENTRIES, SESSIONS, TEXT_BYTES, TRANSACTIONS,
};
use str_base::{KeyId, NodeId, PartId, TextId};

/// A scene so far, item by item in the order of its text. It is seen as the scene with what has been given: the number
/// of nodes is 0 until it is given. Its type keeps all limits of a scene.
#[derive(Drop)]
pub struct SceneBuild {
    alloc: Global,
    version: u8,
    nodes: u8,
    parts: Vec<PartRow>,
    keys: KeyTable,
    sessions: Vec<SessionText>,
    schedule: Vec<Event>,
    drain: bool,
}

impl Model for SceneBuild {
    ghost use Rattle.str_scene.specs.Scenes.{Scene as Value_};
    ghost use Rattle.str_scene.specs.DraftLimits.{IsDraft};

    ghost Value = { Value_ };

    ghost view = { λ b. record { version = b.version; nodes = b.nodes; parts = b.parts.items; keys = b.keys; sessions = b.sessions.items; schedule = b.schedule.items; drain = b.drain } };

    ghost invariant = { λ b. IsDraft (record { version = b.version; nodes = b.nodes; parts = b.parts.items; keys = b.keys; sessions = b.sessions.items; schedule = b.schedule.items; drain = b.drain }) };
}

impl SceneBuild {
    /// A scene of a version, with nothing given.
    pub fn new(alloc: Global, version: u8) -> SceneBuild
        requires { (version ≡ 1) ⊎ (version ≡ 2) }
        ensures { result ≡ empty_draft version }
    {
        SceneBuild {
            alloc,
            version,
            nodes: 0,
            parts: Vec::new(alloc),
            keys: KeyTable::new(alloc),
            sessions: Vec::new(alloc),
            schedule: Vec::new(alloc),
            drain: false,
        }
    }

    /// Gives the number of nodes, from 1 to 8; it is given first and once. After a refusal the build is as it was.
    pub fn nodes(&mut self, n: u8) -> Result<(), SceneFault>
        ensures added { OnOk result (self.new ≡ with_nodes n self.old) }
        ensures allowed { OnOk result (nodes_fault n self.old ≡ None) }
        ensures refused { IfErr result (λ f. nodes_fault n self.old ≡ Some f) }
        ensures err { OnErr result (self.new ≡ self.old) }
    {
        if let Some(fault) = self.nodes_fault(n) {
            return Err(fault);
        }
        self.nodes = n;
        Ok(())
    }

    /// Gives the next partition, by its replicas of which the first is the master. Partitions come after the number of
    /// nodes and before sessions; there are at most 32. A row is one node or more of the scene, none twice. After a refusal the
    /// build is as it was.
    pub fn part(&mut self, row: PartRow) -> Result<(), SceneFault>
        ensures added { OnOk result (self.new ≡ with_row row self.old) }
        ensures allowed { OnOk result (part_fault row self.old ≡ None) }
        ensures refused { IfErr result (λ f. IsRefused (part_fault row self.old) f) }
        ensures err { OnErr result (self.new ≡ self.old) }
    {
        if let Some(fault) = self.part_fault(&row) {
            return Err(fault);
        }
        let Ok(()) = self.parts.push(row) else {
            return Err(SceneFault::Memory);
        };
        Ok(())
    }

    /// Gives the next session, at a node of the scene. Sessions come after a partition and before the schedule; there are at
    /// most 64, and at most 16 at a node. After a refusal the build is as it was.
    pub fn session(&mut self, node: NodeId) -> Result<(), SceneFault>
        ensures added { OnOk result (self.new ≡ with_session node self.old) }
        ensures allowed { OnOk result (session_fault node self.old ≡ None) }
        ensures refused { IfErr result (λ f. IsRefused (session_fault node self.old) f) }
        ensures err { OnErr result (self.new ≡ self.old) }
    {
        if let Some(fault) = self.session_fault(node) {
            return Err(fault);
        }
        let session = SessionText::new(node, Vec::new(self.alloc));
        let Ok(()) = self.sessions.push(session) else {
            return Err(SceneFault::Memory);
        };
        Ok(())
    }

    /// Gives the next transaction of the last session: one operation or more, whose keys and byte strings are in the table
    /// already; byte strings are written in version 2 alone. There are at most 1024 transactions. After a refusal the build
    /// is as it was.
    pub fn tx(&mut self, ops: OpList) -> Result<(), SceneFault>
        ensures added { OnOk result (self.new ≡ with_tx ops self.old) }
        ensures allowed { OnOk result (tx_fault ops self.old ≡ None) }
        ensures refused { IfErr result (λ f. IsRefused (tx_fault ops self.old) f) }
        ensures err { OnErr result (self.new ≡ self.old) }
    {
        if let Some(fault) = self.tx_fault(&ops) {
            return Err(fault);
        }
        let Ok(()) = push_to_last(&mut self.sessions, ops) else {
            return Err(SceneFault::Memory);
        };
        Ok(())
    }

    /// Gives the next entry of the schedule. Entries come after a partition and before the drain; there are at most 65,536.
    /// After a refusal the build is as it was.
    pub fn entry(&mut self, event: Event) -> Result<(), SceneFault>
        ensures added { OnOk result (self.new ≡ with_entry event self.old) }
        ensures allowed { OnOk result (entry_fault event self.old ≡ None) }
        ensures refused { IfErr result (λ f. IsRefused (entry_fault event self.old) f) }
        ensures err { OnErr result (self.new ≡ self.old) }
    {
        if let Some(fault) = self.entry_fault(event) {
            return Err(fault);
        }
        let Ok(()) = self.schedule.push(event) else {
            return Err(SceneFault::Memory);
        };
        Ok(())
    }

    /// Gives the drain, after a partition, once and last. After a refusal the build is as it was.
    pub fn drain(&mut self) -> Result<(), SceneFault>
        ensures added { OnOk result (self.new ≡ with_drain self.old) }
        ensures allowed { OnOk result (drain_fault self.old ≡ None) }
        ensures refused { IfErr result (λ f. drain_fault self.old ≡ Some f) }
        ensures err { OnErr result (self.new ≡ self.old) }
    {
        if let Some(fault) = self.drain_fault() {
            return Err(fault);
        }
        self.drain = true;
        Ok(())
    }

    /// The number of a key in the table, where it is put at the end if it is not there. A key may stand where a transaction
    /// may stand; it is a name and a partition of the scene, and there are at most 16,384. After a refusal the build is as it was.
    pub fn key(&mut self, name: &[u8], part: PartId) -> Result<KeyId, SceneFault>
        ensures number { IfOk result (λ k. number_of (name.now, part) self.old.keys.names ≡ Some k) }
        ensures added { OnOk result (self.new ≡ with_key (name.now, part) self.old) }
        ensures allowed { OnOk result (key_fault (name.now, part) self.old ≡ None) }
        ensures refused { IfErr result (λ f. IsRefused (key_fault (name.now, part) self.old) f) }
        ensures err { OnErr result (self.new ≡ self.old) }
    {
        if let Some(fault) = self.key_fault(name, part) {
            return Err(fault);
        }
        let Ok(key) = self.keys.intern(name, part) else {
            return Err(SceneFault::Memory);
        };
        Ok(key)
    }

    /// The number of a byte string in the table, where it is put at the end if it is not there. It may stand where a
    /// transaction may stand; it has at most 64 bytes, and there are at most 16,384. After a refusal the build is as it was.
    pub fn text(&mut self, bytes: &[u8]) -> Result<TextId, SceneFault>
        ensures number { IfOk result (λ t. string_number bytes.now self.old.keys.texts ≡ Some t) }
        ensures added { OnOk result (self.new ≡ with_text bytes.now self.old) }
        ensures allowed { OnOk result (text_fault bytes.now self.old ≡ None) }
        ensures refused { IfErr result (λ f. IsRefused (text_fault bytes.now self.old) f) }
        ensures err { OnErr result (self.new ≡ self.old) }
    {
        if let Some(fault) = self.text_fault(bytes) {
            return Err(fault);
        }
        let Ok(text) = self.keys.intern_text(bytes) else {
            return Err(SceneFault::Memory);
        };
        Ok(text)
    }

    /// The scene, where the number of nodes and a partition were given, and the operations first name the keys of the table
    /// in their order and all of them, and the byte strings likewise; else `Form`. It takes no memory.
    pub fn finish(self) -> Result<Scene, SceneFault>
        ensures scene { IfOk result (λ s. s ≡ self) }
        ensures allowed { OnOk result (finish_fault self ≡ None) }
        ensures refused { IfErr result (λ f. finish_fault self ≡ Some f) }
    {
        if let Some(fault) = self.finish_fault() {
            return Err(fault);
        }
        Ok(Scene::new(
            self.version,
            self.nodes,
            self.parts,
            self.keys,
            self.sessions,
            self.schedule,
            self.drain,
        ))
    }

    /// The keys and byte strings so far.
    pub fn keys(&self) -> &KeyTable
        ensures value { result.now ≡ self.now.keys }
        ensures limits { IsDraft self.now }
    {
        &self.keys
    }

    /// The number of partitions so far.
    pub fn parts(&self) -> usize
        ensures value { result ≡ length self.now.parts }
        ensures limits { IsDraft self.now }
    {
        self.parts.len()
    }

    /// The number of sessions so far.
    pub fn sessions(&self) -> usize
        ensures value { result ≡ length self.now.sessions }
        ensures limits { IsDraft self.now }
    {
        self.sessions.len()
    }

    /// The number of transactions so far.
    pub fn transactions(&self) -> usize
        ensures value { result ≡ transaction_count self.now.sessions }
        ensures limits { IsDraft self.now }
    {
        self.sessions.iter().map(|s| s.txs().len()).sum()
    }

    /// Whether a transaction, a key or a byte string may stand here.
    fn may_have_tx(&self) -> bool
        ensures { result ≡ may_have_tx self.now }
    {
        !self.sessions.is_empty() && self.is_before_schedule()
    }

    /// Whether the schedule has not begun.
    fn is_before_schedule(&self) -> bool
        ensures { result ≡ is_before_schedule self.now }
    {
        self.schedule.is_empty() && !self.drain
    }

    fn nodes_fault(&self, n: u8) -> Option<SceneFault>
        ensures { result ≡ nodes_fault n self.now }
    {
        first_fault(self.nodes == 0, is_up_to(NODES, n), true)
    }

    fn part_fault(&self, row: &PartRow) -> Option<SceneFault>
        ensures fault { result ≡ part_fault row.now self.now }
        ensures limit { length row.now ≤ REPLICAS }
    {
        let may_stand = self.nodes != 0 && self.sessions.is_empty() && self.is_before_schedule();
        first_fault(
            may_stand && row.len() > 0,
            is_row(self.nodes, row.as_slice()),
            self.parts.len() < PARTITIONS,
        )
    }

    fn session_fault(&self, node: NodeId) -> Option<SceneFault>
        ensures { result ≡ session_fault node self.now }
    {
        let may_stand = !self.parts.is_empty() && self.is_before_schedule();
        let has_room = self.sessions.len() < SESSIONS
            && sessions_at(node, self.sessions.as_slice()) < NODE_SESSIONS;
        first_fault(
            may_stand,
            is_up_to(usize::from(self.nodes), node.0),
            has_room,
        )
    }

    fn tx_fault(&self, ops: &OpList) -> Option<SceneFault>
        ensures fault { result ≡ tx_fault ops.now self.now }
        ensures numbers { IfNone result ((i : ℕ) (op : AnyOp) → slice_get ops.now i ≡ Some op → HasNumber op) }
        ensures limit { length ops.now ≤ OPERATIONS }
    {
        let ops = ops.as_slice();
        first_fault(
            self.may_have_tx() && is_script(self.version, ops),
            are_known(&self.keys, ops),
            self.transactions() < TRANSACTIONS,
        )
    }

    fn entry_fault(&self, event: Event) -> Option<SceneFault>
        ensures fault { result ≡ entry_fault event self.now }
        ensures numbers { HasReading event }
    {
        first_fault(
            !self.parts.is_empty() && !self.drain,
            is_entry(self.sessions.len(), event),
            self.schedule.len() < SCHEDULE_ENTRIES,
        )
    }

    fn drain_fault(&self) -> Option<SceneFault>
        ensures { result ≡ drain_fault self.now }
    {
        first_fault(!self.parts.is_empty() && !self.drain, true, true)
    }

    fn key_fault(&self, name: &[u8], part: PartId) -> Option<SceneFault>
        ensures { result ≡ key_fault (name.now, part) self.now }
    {
        if !self.may_have_tx() {
            return Some(SceneFault::Form);
        }
        if !spells_name(name) || !is_up_to(self.parts.len(), part.0) {
            return Some(SceneFault::Range);
        }
        first_fault(true, true, self.keys.has_room(name, part))
    }

    fn text_fault(&self, bytes: &[u8]) -> Option<SceneFault>
        ensures { result ≡ text_fault bytes.now self.now }
    {
        if !self.may_have_tx() {
            return Some(SceneFault::Form);
        }
        if bytes.len() > TEXT_BYTES {
            return Some(SceneFault::Range);
        }
        first_fault(true, true, self.keys.has_text_room(bytes))
    }

    fn finish_fault(&self) -> Option<SceneFault>
        ensures { result ≡ finish_fault self.now }
    {
        let is_begun = self.nodes != 0 && !self.parts.is_empty();
        first_fault(
            is_begun && (self.keys_in_order() && self.texts_in_order()),
            true,
            true,
        )
    }

    /// Whether the operations first name the keys of the table in their order, and all of them.
    fn keys_in_order(&self) -> bool
        ensures { result ≡ keys_in_order self.now }
    {
        let count = seen_in_sessions(Numbered::Keys, self.sessions.as_slice());
        counts_to(count, self.keys.len() as u64)
    }

    /// The same of the byte strings.
    fn texts_in_order(&self) -> bool
        ensures { result ≡ texts_in_order self.now }
    {
        let count = seen_in_sessions(Numbered::Texts, self.sessions.as_slice());
        counts_to(count, self.keys.texts() as u64)
    }
}

/// The last session with one more transaction, where there is a session. Where memory runs out nothing changes.
fn push_to_last(sessions: &mut Vec<SessionText>, ops: OpList) -> Result<(), AllocError>
    ensures ok { OnOk result (sessions.new.items ≡ add_tx ops sessions.old.items) }
    ensures err { OnErr result (sessions.new.items ≡ sessions.old.items) }
{
    let Some(session) = sessions.last_mut() else {
        return Ok(());
    };
    session.push(ops)?;
    Ok(())
}
