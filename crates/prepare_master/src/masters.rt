//! A Prepare is refused, parked, accepted or left alone.
ghost use Rattle.std.specs.Prelude.{◌≡◌, ◌∷◌, [], ℕ, IfOk, List, false, find, length, true};
ghost use Rattle.partition_map.specs.Maps.{HasPart, leads, replicas};
ghost use Rattle.prepare_master.specs.MasterTurns.{HaveMarks, IsJudged, IsPrepareTurn, ShowsReplica, first_reason, gives, is_fresh, judged, turn_of};
ghost use Rattle.str_base.specs.Versions.{chain};
ghost use Rattle.str_model.specs.Proposals.{master_turn, prepare_turn};
ghost use Rattle.str_model.specs.Views.{View};

use crate::proposals::{TS_LIMIT, proposed};
use last_reader::Marks;
use partition_map::PartitionMap;
use replica_store::{DoneList, Parked, ReplicaStore};
use str_base::{KeyId, Kind, NodeId, Ts, TxId, Version};
use str_model::Arrived;

/// What a Prepare comes to.
#[derive(Clone, Copy, Debug, PartialEq, Eq)]
pub enum MasterTurn {
    /// It is accepted at this timestamp.
    Accept { ts: Ts },
    /// It is refused, because of a version of this key by this transaction.
    Refuse { by: TxId, key: KeyId },
    /// It waits for this transaction.
    Park { by: TxId },
    /// Nothing happens: it is not for this master, it came before, or its timestamp would be too great.
    Ignore,
}

/// Why a version stands against a Prepare.
#[derive(Clone, Copy, Debug, PartialEq, Eq)]
pub enum Reason {
    /// It is undecided and of another origin, or Final above the snapshot.
    ToRefuse,
    /// It is undecided and of the same origin.
    ToPark,
}

/// Whether a version is a reason of this kind.
fn is_reason(reason: Reason, a: &Arrived, version: &Version) -> bool
    ensures { result ≡ gives reason a.now version.now }
{
    match (version.kind, reason) {
        (Kind::Final, Reason::ToRefuse) => a.rs < version.ts,
        (Kind::Final, Reason::ToPark) => false,
        (_, Reason::ToRefuse) => version.tx.node != a.tx.node,
        (_, Reason::ToPark) => version.tx.node == a.tx.node,
    }
}

/// The first version of a key that is a reason of this kind.
fn reason_at(reason: Reason, a: &Arrived, store: &ReplicaStore, key: KeyId) -> Option<Version>
    ensures { result ≡ find (gives reason a.now) (chain key store.now.versions) }
{
    let mut walk = store.walk_from_unsettled(key, a.rs);
    while let Some(version) = walk.newer() {
        if is_reason(reason, a, &version) {
            return Some(version);
        }
    }
    None
}

/// The first version of a written key that is a reason of this kind, by the keys in order of first write.
fn first_of(reason: Reason, a: &Arrived, store: &ReplicaStore) -> Option<Version>
    ensures { result ≡ first_reason reason a.now store.now.versions }
{
    for write in a.writes.as_slice() {
        if let Some(version) = reason_at(reason, a, store, write.key) {
            return Some(version);
        }
    }
    None
}

/// What a Prepare comes to that is for this master and new.
fn judge(a: &Arrived, store: &ReplicaStore, marks: &Marks) -> MasterTurn
    requires { HaveMarks a.now.writes marks.now }
    ensures { turn_of result ≡ judged a.now store.now.versions marks.now }
{
    if let Some(version) = first_of(Reason::ToRefuse, a, store) {
        return MasterTurn::Refuse {
            by: version.tx,
            key: version.key,
        };
    }
    if let Some(version) = first_of(Reason::ToPark, a, store) {
        return MasterTurn::Park { by: version.tx };
    }
    match proposed(a, store, marks) {
        Some(ts) => MasterTurn::Accept { ts },
        None => MasterTurn::Ignore,
    }
}

/// Whether a Prepare is for this master, of another node, and comes for the first time.
fn is_new(
    a: &Arrived,
    node: NodeId,
    store: &ReplicaStore,
    done: &DoneList,
    parked: &Parked,
    map: &PartitionMap,
) -> bool
    requires { HasPart map.now a.now.part }
    ensures { result ≡ is_fresh map.now node store.now.versions done.now.pairs parked.now.waiters a.now }
{
    if map.master(a.part) != node {
        return false;
    }
    if a.tx.node == node {
        return false;
    }
    if done.has(a.tx, a.part) {
        return false;
    }
    if store.has(a.tx, a.part) {
        return false;
    }
    !parked.has(a.tx, a.part)
}

/// What a Prepare comes to at a node. It is left alone where the node is not the master of its partition, where it is of this
/// node, where its pair was decided, has a version here or is parked, and where it would be accepted at a timestamp that
/// reaches the limit. Else the first version that stands against it is named: it is refused by one that is undecided and of
/// another origin, or Final above its snapshot; it is parked for one that is undecided and of its own origin.
pub fn prepare(
    a: &Arrived,
    node: NodeId,
    store: &ReplicaStore,
    marks: &Marks,
    done: &DoneList,
    parked: &Parked,
    map: &PartitionMap,
) -> MasterTurn
    requires part { HasPart map.now a.now.part }
    requires keys { HaveMarks a.now.writes marks.now }
    ensures turn { IsPrepareTurn node map.now a.now store.now.versions marks.now done.now.pairs parked.now.waiters (turn_of result) }
    ensures causes { IsJudged (is_fresh map.now node store.now.versions done.now.pairs parked.now.waiters a.now) a.now store.now.versions marks.now (turn_of result) }
{
    if is_new(a, node, store, done, parked, map) {
        judge(a, store, marks)
    } else {
        MasterTurn::Ignore
    }
}

/// What a parked Prepare comes to when it is judged again: as a new one, but that it is not looked up in the lists. Where it is
/// left alone it stays parked.
pub fn retry(
    a: &Arrived,
    node: NodeId,
    store: &ReplicaStore,
    marks: &Marks,
    map: &PartitionMap,
) -> MasterTurn
    requires keys { HaveMarks a.now.writes marks.now }
    ensures turn { (view : View) → ShowsReplica view a.now store.now.versions marks.now → turn_of result ≡ master_turn view a.now }
    ensures causes { IsJudged true a.now store.now.versions marks.now (turn_of result) }
{
    judge(a, store, marks)
}

#[cfg(test)]
mod tests {
    use super::*;
    use partition_map::PartRow;
    use std::alloc::{AllocError, Global};
    use std::test::Fail;
    use str_base::{PartId, ShortList, Value, Write, Writes};
    use str_model::Waiter;

    fn tx(node: u8, seq: u32) -> TxId {
        TxId {
            node: NodeId(node),
            seq,
        }
    }

    fn write(key: u32) -> Write
        ensures { result.key.0 ≡ key }
    {
        let value = Value::Num(5);
        Write {
            key: KeyId(key),
            value,
        }
    }

    // A Prepare of partition 1 by node 2, at timestamp 20, that writes key 1 and key 0.
    fn prepare_of(seq: u32, lc: u64) -> Arrived
        ensures part { result.part ≡ record { 0 = 1 } }
        ensures keys { (marks : List ℕ) → length marks ≡ 2 → HaveMarks result.writes marks }
    {
        let mut writes = Writes::new();
        writes.push(write(1));
        writes.push(write(0));
        Arrived {
            tx: tx(2, seq),
            part: PartId(1),
            rs: Ts(20),
            lc: Ts(lc),
            writes,
        }
    }

    fn version(key: u32, by: TxId, ts: u64, kind: Kind) -> Version
        ensures part { result.part ≡ record { 0 = 1 } }
        ensures key { result.key.0 ≡ key }
    {
        Version {
            key: KeyId(key),
            part: PartId(1),
            tx: by,
            ts: Ts(ts),
            value: Value::Absent,
            kind,
        }
    }

    // Both keys are of partition 1, and its replicas are the nodes 1 and 3.
    fn map(alloc: Global) -> Result<PartitionMap, AllocError>
        ensures { IfOk result (λ m. HasPart m (record { 0 = 1 })) }
    {
        let mut row = PartRow::new();
        row.push(NodeId(1));
        row.push(NodeId(3));
        let rows = Vec::from_array(alloc, [row])?;
        let keys = Vec::from_array(alloc, [PartId(1), PartId(1)])?;
        PartitionMap::new(alloc, &rows, &keys)
    }

    fn refused(key: u32, by: TxId) -> MasterTurn {
        MasterTurn::Refuse {
            by,
            key: KeyId(key),
        }
    }

    fn marks(alloc: Global, ts: u64) -> Result<Marks, AllocError>
        ensures { IfOk result (λ m. length m ≡ 2) }
    {
        let mut marks = Marks::new(alloc, 2)?;
        marks.raise(KeyId(0), Ts(ts));
        Ok(marks)
    }

    fn empty_store(alloc: Global) -> ReplicaStore
        ensures hosted { result.hosted ≡ record { 0 = 1 } ∷ [] }
        ensures versions { result.versions ≡ [] }
    {
        let mut hosted = ShortList::new();
        hosted.push(PartId(1));
        ReplicaStore::new(alloc, NodeId(1), hosted)
    }

    // What a Prepare comes to at a node beside this version alone.
    fn turn_beside(alloc: Global, node: u8, version: Version) -> Result<MasterTurn, AllocError>
        requires { version.part ≡ record { 0 = 1 } }
    {
        let map = map(alloc)?;
        let marks = marks(alloc, 26)?;
        let done = DoneList::new(alloc);
        let parked = Parked::new(alloc);
        let mut store = empty_store(alloc);
        store.reserve(1)?;
        store.insert(version);
        let a = prepare_of(7, 25);
        Ok(prepare(&a, NodeId(node), &store, &marks, &done, &parked, &map))
    }

    #[test]
    fn a_prepare_against_one_version(rt: HostRuntime) -> Result<(), Fail> {
        let accept = MasterTurn::Accept { ts: Ts(27) };
        let cases = [
            (1, tx(3, 1), 20, Kind::Final, accept),
            (1, tx(3, 1), 30, Kind::Pre, refused(1, tx(3, 1))),
            (0, tx(3, 1), 21, Kind::Final, refused(0, tx(3, 1))),
            (0, tx(1, 1), 21, Kind::Local, refused(0, tx(1, 1))),
            (
                0,
                tx(2, 4),
                30,
                Kind::Pre,
                MasterTurn::Park { by: tx(2, 4) },
            ),
            (0, tx(2, 7), 30, Kind::Pre, MasterTurn::Ignore),
        ];
        for (key, by, ts, kind, want) in cases {
            let version = version(key, by, ts, kind);
            assert_eq!(rt; turn_beside(rt.alloc(), 1, version)?, want);
            assert_eq!(rt; turn_beside(rt.alloc(), 2, version)?, MasterTurn::Ignore);
            assert_eq!(rt; turn_beside(rt.alloc(), 3, version)?, MasterTurn::Ignore);
        }
        Ok(())
    }

    fn store_of_two(alloc: Global) -> Result<ReplicaStore, AllocError> {
        let mut store = empty_store(alloc);
        store.reserve(2)?;
        store.insert(version(1, tx(2, 4), 22, Kind::Pre));
        store.insert(version(0, tx(3, 1), 21, Kind::Final));
        Ok(store)
    }

    #[test]
    fn a_refusal_comes_first(rt: HostRuntime) -> Result<(), Fail> {
        let map = map(rt.alloc())?;
        let marks = marks(rt.alloc(), 0)?;
        let store = store_of_two(rt.alloc())?;
        let a = prepare_of(7, 25);
        assert_eq!(rt;
            retry(&a, NodeId(1), &store, &marks, &map),
            refused(0, tx(3, 1))
        );
        Ok(())
    }

    #[test]
    fn a_prepare_that_came_before(rt: HostRuntime) -> Result<(), Fail> {
        let map = map(rt.alloc())?;
        let marks = marks(rt.alloc(), 0)?;
        let mut done = DoneList::new(rt.alloc());
        done.reserve(1)?;
        done.add(tx(2, 7), PartId(1));
        let mut parked = Parked::new(rt.alloc());
        parked.reserve(1)?;
        parked.add(Waiter::Held(prepare_of(8, 25)));
        let store = empty_store(rt.alloc());
        let accepted = MasterTurn::Accept { ts: Ts(25) };
        for (seq, want) in [
            (7, MasterTurn::Ignore),
            (8, MasterTurn::Ignore),
            (9, accepted),
        ] {
            let a = prepare_of(seq, 25);
            assert_eq!(rt;
                prepare(&a, NodeId(1), &store, &marks, &done, &parked, &map),
                want
            );
            assert_eq!(rt; retry(&a, NodeId(1), &store, &marks, &map), accepted);
        }
        let late = prepare_of(9, TS_LIMIT);
        assert_eq!(rt;
            retry(&late, NodeId(1), &store, &marks, &map),
            MasterTurn::Ignore
        );
        Ok(())
    }
}
