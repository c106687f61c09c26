//! Versions are placed, committed and taken out.
ghost use Rattle.std.specs.Prelude.{◌≡◌, ◌<◌, ◌≤◌, ◌+◌, ◌∷◌, [], ℕ, List, false, length, map, not, true};
ghost use Rattle.replica_apply.specs.Changes.{AbortsInViews, AreMarked, Becomes, CanInsert, CommitsInViews, IsAdded, PlacesInViews, was_done};
ghost use Rattle.replica_store.specs.StoreLists.{StaysHere};
ghost use Rattle.str_base.specs.declared.names.Write.{Write as AWrite};
ghost use Rattle.str_base.specs.Versions.{finalise, insert_all, of_pair, without};
ghost use Rattle.str_model.specs.Acts.{pre_version as pre_version_of, raise_all as raised_all};
ghost use Rattle.str_model.specs.Steps.{drop_held};
ghost use Rattle.version_chain.specs.ChainLists.{is_among};

use last_reader::Marks;
use replica_store::{DoneList, Parked, ReplicaStore};
use str_base::{Kind, PartId, Ts, TxId, Version, Write};
use str_model::{Arrived, KeyMarks};

/// The Pre version that a write becomes.
fn pre_version(a: &Arrived, ts: Ts, write: Write) -> Version
    ensures { result ≡ pre_version_of a.now ts.0 write }
{
    Version {
        key: write.key,
        part: a.part,
        tx: a.tx,
        ts,
        value: write.value,
        kind: Kind::Pre,
    }
}

/// Puts a Pre version of each write in its place. There is room for each, its partition is hosted, and no version of its key by
/// its transaction stands there.
pub fn place(store: &mut ReplicaStore, a: &Arrived, ts: Ts)
    requires room { length a.now.writes ≤ store.old.spare }
    requires hosted { is_among store.old.hosted a.now.part ≡ true }
    requires other { CanInsert (map (pre_version_of a.now ts.0) a.now.writes) store.old.versions }
    ensures versions { store.new.versions ≡ insert_all (map (pre_version_of a.now ts.0) a.now.writes) store.old.versions }
    ensures here { StaysHere store.old store.new }
    ensures spare { store.old.spare ≤ store.new.spare + length a.now.writes }
    ensures view { PlacesInViews a.now ts.0 store.old.versions store.new.versions }
{
    for write in a.writes.as_slice() {
        store.insert(pre_version(a, ts, *write));
    }
}

/// Raises each of these marks.
fn raise_all(marks: &mut Marks, given: &KeyMarks)
    requires { AreMarked given.now marks.old }
    ensures marks { marks.new ≡ raised_all given.now marks.old }
    ensures len { length marks.new ≡ length marks.old }
{
    for mark in given.as_slice() {
        marks.raise(mark.key, mark.mark);
    }
}

/// Takes a commit: false exactly where the pair was decided, and then nothing changes. Else the pair counts as decided, the marks
/// rise to the given ones, and the versions of the transaction in the partition become Final at `fc`. Then the list of what was
/// decided has room.
pub fn commit_at(
    store: &mut ReplicaStore,
    marks: &mut Marks,
    done: &mut DoneList,
    tx: TxId,
    part: PartId,
    fc: Ts,
    given: &KeyMarks,
) -> bool
    requires room { was_done tx part done.old ≡ false → 0 < done.old.spare }
    requires keys { AreMarked given.now marks.old }
    ensures answer { result ≡ not (was_done tx part done.old) }
    ensures same_store { result ≡ false → store.new ≡ store.old }
    ensures same_marks { result ≡ false → marks.new ≡ marks.old }
    ensures same_done { result ≡ false → done.new ≡ done.old }
    ensures versions { result ≡ true → Becomes store.old store.new (finalise (of_pair tx part) fc.0 store.old.versions) }
    ensures spare { store.old.spare ≤ store.new.spare }
    ensures marks { result ≡ true → marks.new ≡ raised_all given.now marks.old }
    ensures len { length marks.new ≡ length marks.old }
    ensures done { result ≡ true → IsAdded tx part done.old done.new }
    ensures left { done.old.spare ≤ done.new.spare + 1 }
    ensures view { result ≡ true → CommitsInViews tx part fc.0 given.now store.old.versions store.new.versions marks.old marks.new done.old done.new }
{
    if done.has(tx, part) {
        return false;
    }
    done.add(tx, part);
    raise_all(marks, given);
    store.finalise(tx, part, fc);
    true
}

/// Takes an abort: false exactly where the pair was decided, and then nothing changes. Else the pair counts as decided, the
/// versions of the transaction in the partition are taken out, and so is the first parked Prepare of the pair, where there is one.
/// Then the list of what was decided has room.
pub fn abort_at(
    store: &mut ReplicaStore,
    done: &mut DoneList,
    parked: &mut Parked,
    tx: TxId,
    part: PartId,
) -> bool
    requires room { was_done tx part done.old ≡ false → 0 < done.old.spare }
    ensures answer { result ≡ not (was_done tx part done.old) }
    ensures same_store { result ≡ false → store.new ≡ store.old }
    ensures same_done { result ≡ false → done.new ≡ done.old }
    ensures same_parked { result ≡ false → parked.new ≡ parked.old }
    ensures versions { result ≡ true → Becomes store.old store.new (without (of_pair tx part) store.old.versions) }
    ensures spare { store.old.spare ≤ store.new.spare }
    ensures done { result ≡ true → IsAdded tx part done.old done.new }
    ensures left { done.old.spare ≤ done.new.spare + 1 }
    ensures waiters { result ≡ true → parked.new.waiters ≡ drop_held tx part parked.old.waiters }
    ensures kept { parked.old.spare ≤ parked.new.spare }
    ensures view { result ≡ true → AbortsInViews tx part store.old.versions store.new.versions done.old done.new parked.old.waiters parked.new.waiters }
{
    if done.has(tx, part) {
        return false;
    }
    done.add(tx, part);
    store.remove(tx, part);
    parked.drop_one(tx, part);
    true
}

#[cfg(test)]
mod tests {
    use super::*;
    use std::alloc::Global;
    use std::test::Fail;
    use str_base::{KeyId, NodeId, ShortList, Value, Writes};
    use str_model::{KeyMark, Waiter};

    fn writer() -> TxId {
        TxId {
            node: NodeId(2),
            seq: 7,
        }
    }

    // A Prepare of partition 1 by node 2 that writes key 0.
    fn arrived() -> Arrived
        ensures part { result.part ≡ record { 0 = 1 } }
        ensures one { (w : AWrite) × (result.writes ≡ w ∷ []) }
    {
        let key = KeyId(0);
        let value = Value::Num(5);
        let mut writes = Writes::new();
        writes.push(Write { key, value });
        Arrived {
            tx: writer(),
            part: PartId(1),
            rs: Ts(5),
            lc: Ts(6),
            writes,
        }
    }

    // Mark 30 of key 0.
    fn given() -> KeyMarks
        ensures { (marks : List ℕ) → length marks ≡ 1 → AreMarked result marks }
    {
        let mut given = KeyMarks::new();
        given.push(KeyMark {
            key: KeyId(0),
            mark: Ts(30),
        });
        given
    }

    fn empty_store(alloc: Global) -> ReplicaStore
        ensures hosted { result.hosted ≡ record { 0 = 1 } ∷ [] }
        ensures versions { result.versions ≡ [] }
    {
        let mut hosted = ShortList::new();
        hosted.push(PartId(1));
        ReplicaStore::new(alloc, NodeId(3), hosted)
    }

    #[test]
    fn a_version_is_placed_and_committed(rt: HostRuntime) -> Result<(), Fail> {
        let mut store = empty_store(rt.alloc());
        store.reserve(1)?;
        place(&mut store, &arrived(), Ts(9));
        assert_eq!(rt; store.newest(KeyId(0)), Ts(9));
        let mut marks = Marks::new(rt.alloc(), 1)?;
        let mut done = DoneList::new(rt.alloc());
        done.reserve(2)?;
        let first = commit_at(
            &mut store,
            &mut marks,
            &mut done,
            writer(),
            PartId(1),
            Ts(12),
            &given(),
        );
        assert!(rt; first);
        assert_eq!(rt; store.newest(KeyId(0)), Ts(12));
        assert_eq!(rt; marks.mark(KeyId(0)), Ts(30));
        let again = commit_at(
            &mut store,
            &mut marks,
            &mut done,
            writer(),
            PartId(1),
            Ts(14),
            &given(),
        );
        assert!(rt; !again);
        assert_eq!(rt; store.newest(KeyId(0)), Ts(12));
        Ok(())
    }

    #[test]
    fn a_version_and_a_parked_prepare_are_taken_out(rt: HostRuntime) -> Result<(), Fail> {
        let mut store = empty_store(rt.alloc());
        store.reserve(1)?;
        place(&mut store, &arrived(), Ts(9));
        let mut parked = Parked::new(rt.alloc());
        parked.reserve(1)?;
        parked.add(Waiter::Held(arrived()));
        let mut done = DoneList::new(rt.alloc());
        done.reserve(1)?;
        assert!(rt; abort_at(&mut store, &mut done, &mut parked, writer(), PartId(1)));
        assert_eq!(rt; store.newest(KeyId(0)), Ts(0));
        assert!(rt; parked.get(0).is_none());
        assert!(rt; done.has(writer(), PartId(1)));
        Ok(())
    }
}
