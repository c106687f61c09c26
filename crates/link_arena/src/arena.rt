//! Arenas of versions.
ghost use Rattle.std.specs.Prelude.{◌≡◌, ◌≤◌, ◌<◌, ◌+◌, ◌==◌, ◌^◌, ℕ, [], IsSome, None, OnErr, OnOk, Some, length, if◌then◌else◌};
ghost use Rattle.std.specs.List.{last_or};
ghost use Rattle.str_base.specs.Versions.{of_tx};
ghost use Rattle.link_arena.specs.Arenas.{AreLists, MovesInKey, at, dated, entered, key_list, moved, next_of, number_of, prev_of, tx_list};
ghost use Rattle.link_arena.specs.HeadLists.{key_names};
ghost use Rattle.str_base.specs.declared.names.KeyId.{KeyId};
ghost use Rattle.str_base.specs.declared.names.TxId.{TxId};
ghost use Rattle.str_base.specs.declared.names.Version.{Version};
ghost use Rattle.link_arena.specs.Rows.{IsPlace, first_of, first_or, last_of, taken};

use crate::heads::{Head, find};
use crate::lists::{enter, leave};
use crate::nodes::{Ends, Node, Side, Slot, read, side_link, write};
use slab::Slab;
use std::alloc::{AllocError, Global};
use std::marker::{Model, Send, Sync};
use str_base::{KeyId, Kind, Ts, TxId, Version};

/// Versions in slots. Each slot stands in the list of its key and in the list of its transaction. There is room for more that takes no memory.
/// An arena is seen as the version of each slot, the list of slots of each key and of each transaction, and the number `spare` of versions that still have room.
#[derive(Drop)]
pub struct Arena {
    nodes: Slab<Node>,
    keys: Vec<Head<KeyId>>,
    txs: Vec<Head<TxId>>,
    spare: usize,
}

impl Model for Arena {
    ghost use Rattle.link_arena.specs.Arenas.{ArenaView, IsArena, view_of};

    ghost Value = { ArenaView };

    ghost view = { λ a. view_of a.nodes a.keys.items a.txs.items a.spare };

    ghost invariant = { λ a. IsArena a.nodes a.keys a.txs a.spare };
}

/// The number of a slot.
fn number(slot: Option<Slot>) -> Option<usize>
    ensures { result ≡ number_of slot }
{
    match slot {
        Some(slot) => Some(slot.0),
        None => None,
    }
}

/// The slot with a number.
fn slot_with(number: Option<usize>) -> Option<Slot>
    ensures { number_of result ≡ number }
{
    match number {
        Some(number) => Some(Slot(number)),
        None => None,
    }
}

/// The first slot of a list.
fn first_slot(ends: Option<Ends>) -> Option<Slot>
    ensures { number_of result ≡ first_of ends }
{
    match ends {
        Some(ends) => Some(Slot(ends.first)),
        None => None,
    }
}

/// The last slot of a list.
fn last_slot(ends: Option<Ends>) -> Option<Slot>
    ensures { number_of result ≡ last_of ends }
{
    match ends {
        Some(ends) => Some(Slot(ends.last)),
        None => None,
    }
}

/// How many transactions have a version.
fn tx_count(txs: &Vec<Head<TxId>>) -> usize
    ensures count { result ≡ length txs.now.items }
    ensures limit { length txs.now.items < 2 ^ 63 }
{
    txs.as_slice().len()
}

impl Arena {
    /// No versions.
    pub fn new(alloc: Global) -> Arena
        ensures at { (u : ℕ) → at result u ≡ None }
        ensures key_list { (k : KeyId) → key_list result k ≡ [] }
        ensures tx_list { (t : TxId) → tx_list result t ≡ [] }
        ensures lists { AreLists result }
    {
        Arena {
            nodes: Slab::new(alloc),
            keys: Vec::new(alloc),
            txs: Vec::new(alloc),
            spare: 0,
        }
    }

    /// The version of a slot.
    pub fn get(&self, slot: Slot) -> Version
        requires { IsSome (at self.now slot.0) }
        ensures value { Some result ≡ at self.now slot.0 }
        ensures lists { AreLists self.now }
    {
        read(&self.nodes, slot.0).version
    }

    /// Puts a version in a slot, before another slot of its key or at the end of the list of its key, and at the end of the list of its transaction.
    pub fn insert(&mut self, version: Version, before: Option<Slot>) -> Slot
        requires room { 0 < self.old.spare }
        requires place { IsPlace (number_of before) (key_list self.old version.key) }
        ensures vacant { at self.old result.0 ≡ None }
        ensures at { (u : ℕ) → at self.new u ≡ (if u == result.0 then Some version else at self.old u) }
        ensures key_list { (k : KeyId) → key_list self.new k ≡ entered (key_names k version) (number_of before) result.0 (key_list self.old k) }
        ensures tx_list { (t : TxId) → tx_list self.new t ≡ entered (of_tx t version) None result.0 (tx_list self.old t) }
        ensures lists { AreLists self.new }
        ensures spare { self.new.spare + 1 ≡ self.old.spare }
    {
        let node = Node {
            version,
            ..Node::default()
        };
        let slot = self.nodes.insert_reserved(node);
        enter(
            &mut self.nodes,
            &mut self.keys,
            Side::ByKey,
            version.key,
            slot,
            number(before),
        );
        enter(
            &mut self.nodes,
            &mut self.txs,
            Side::ByTx,
            version.tx,
            slot,
            None,
        );
        self.spare -= 1;
        Slot(slot)
    }

    /// Makes room for `n` more versions at least. After an error all is as before.
    pub fn reserve(&mut self, n: usize) -> Result<(), AllocError>
        ensures same { self.new ≡ record self.old { spare = self.new.spare } }
        ensures room { OnOk result (n ≤ self.new.spare) }
        ensures kept { self.old.spare ≤ self.new.spare }
        ensures err { OnErr result (self.new ≡ self.old) }
    {
        if self.spare < n {
            self.nodes.reserve(n)?;
            self.keys.reserve(n)?;
            self.txs.reserve(n)?;
            self.spare = n;
        }
        Ok(())
    }

    /// Takes a slot out of both its lists, and gives its version.
    pub fn unlink(&mut self, slot: Slot) -> Version
        requires { IsSome (at self.old slot.0) }
        ensures value { Some result ≡ at self.old slot.0 }
        ensures at { (u : ℕ) → at self.new u ≡ (if u == slot.0 then None else at self.old u) }
        ensures key_list { (k : KeyId) → key_list self.new k ≡ (if key_names k result then taken slot.0 (key_list self.old k) else key_list self.old k) }
        ensures tx_list { (t : TxId) → tx_list self.new t ≡ (if of_tx t result then taken slot.0 (tx_list self.old t) else tx_list self.old t) }
        ensures lists { AreLists self.new }
        ensures spare { self.new.spare ≡ self.old.spare }
    {
        let version = read(&self.nodes, slot.0).version;
        let Version { key, tx, .. } = version;
        leave(&mut self.nodes, &mut self.keys, Side::ByKey, key, slot.0);
        leave(&mut self.nodes, &mut self.txs, Side::ByTx, tx, slot.0);
        self.nodes.remove(slot.0);
        version
    }

    /// Moves a slot in the list of its key, before another slot of it or to its end.
    pub fn relink(&mut self, slot: Slot, before: Option<Slot>)
        requires known { IsSome (at self.old slot.0) }
        requires place { (v : Version) → at self.old slot.0 ≡ Some v → IsPlace (number_of before) (taken slot.0 (key_list self.old v.key)) }
        ensures at { (u : ℕ) → at self.new u ≡ at self.old u }
        ensures key_list { MovesInKey self.old self.new slot.0 (number_of before) }
        ensures tx_list { (t : TxId) → tx_list self.new t ≡ tx_list self.old t }
        ensures lists { AreLists self.new }
        ensures spare { self.new.spare ≡ self.old.spare }
    {
        let key = read(&self.nodes, slot.0).version.key;
        leave(&mut self.nodes, &mut self.keys, Side::ByKey, key, slot.0);
        let next = number(before);
        enter(
            &mut self.nodes,
            &mut self.keys,
            Side::ByKey,
            key,
            slot.0,
            next,
        );
    }

    /// Changes the timestamp and the kind of the version of a slot.
    pub fn set(&mut self, slot: Slot, ts: Ts, kind: Kind)
        requires { IsSome (at self.old slot.0) }
        ensures at { (u : ℕ) → at self.new u ≡ (if u == slot.0 then dated ts kind (at self.old u) else at self.old u) }
        ensures key_list { (k : KeyId) → key_list self.new k ≡ key_list self.old k }
        ensures tx_list { (t : TxId) → tx_list self.new t ≡ tx_list self.old t }
        ensures lists { AreLists self.new }
        ensures spare { self.new.spare ≡ self.old.spare }
    {
        let node = read(&self.nodes, slot.0);
        let version = Version {
            ts,
            kind,
            ..node.version
        };
        write(&mut self.nodes, slot.0, Node { version, ..node });
    }

    /// The first slot of a key, None where it has no version.
    pub fn first_of_key(&self, key: KeyId) -> Option<Slot>
        ensures first { number_of result ≡ first_or None (key_list self.now key) }
        ensures lists { AreLists self.now }
        ensures limit { length self.now.by_tx < 2 ^ 63 }
    {
        let _ = tx_count(&self.txs);
        first_slot(find(&self.keys, key))
    }

    /// The last slot of a key, None where it has no version.
    pub fn last_of_key(&self, key: KeyId) -> Option<Slot>
        ensures last { number_of result ≡ last_or None (key_list self.now key) }
        ensures lists { AreLists self.now }
    {
        last_slot(find(&self.keys, key))
    }

    /// The first slot of a transaction, None where it has no version.
    pub fn first_of_tx(&self, tx: TxId) -> Option<Slot>
        ensures first { number_of result ≡ first_or None (tx_list self.now tx) }
        ensures lists { AreLists self.now }
    {
        first_slot(find(&self.txs, tx))
    }

    /// The slot after this one in the list of its key, None at its end.
    pub fn next_in_key(&self, slot: Slot) -> Option<Slot>
        requires { IsSome (at self.now slot.0) }
        ensures { (v : Version) → at self.now slot.0 ≡ Some v → number_of result ≡ next_of slot.0 (key_list self.now v.key) }
    {
        slot_with(side_link(&read(&self.nodes, slot.0), Side::ByKey).after)
    }

    /// The slot before this one in the list of its key, None at its beginning.
    pub fn before_in_key(&self, slot: Slot) -> Option<Slot>
        requires { IsSome (at self.now slot.0) }
        ensures { (v : Version) → at self.now slot.0 ≡ Some v → number_of result ≡ prev_of slot.0 None (key_list self.now v.key) }
    {
        slot_with(side_link(&read(&self.nodes, slot.0), Side::ByKey).before)
    }

    /// The slot after this one in the list of its transaction, None at its end.
    pub fn next_in_tx(&self, slot: Slot) -> Option<Slot>
        requires { IsSome (at self.now slot.0) }
        ensures { (v : Version) → at self.now slot.0 ≡ Some v → number_of result ≡ next_of slot.0 (tx_list self.now v.tx) }
    {
        slot_with(side_link(&read(&self.nodes, slot.0), Side::ByTx).after)
    }
}

fn sendable<T: Send + Sync>(_: &T) {}

fn all_sendable(arena: &Arena) {
    sendable(arena);
}
