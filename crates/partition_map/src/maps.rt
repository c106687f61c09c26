//! The replicas of each partition, and the partition of each key.
ghost use Rattle.partition_map.specs.Maps.{Exists, HasKey, HasPart, IsMap, IsRow, first_or, has_node, hosts, is_written, others, part_of, participants, replicas, unasked};
ghost use Rattle.std.specs.Prelude.{◌≡◌, ◌+◌, ◌≤◌, ◌++◌, ◌∷◌, [], ℕ, IfOk, Some, length, map, slice_get};
ghost use Rattle.str_base.specs.declared.limits.TheConstants.{NODES, OPERATIONS, PARTICIPANTS};
ghost use Rattle.str_base.specs.declared.names.NodeId.{NodeId as Node};
ghost use Rattle.str_base.specs.declared.names.Write.{Write as AWrite};

use crate::rows::{Asked, PartRow, Participants};
use std::alloc::{AllocError, Global};
use std::marker::{Model, Send, Sync};
use str_base::{KeyId, NodeId, PartId, Writes};

/// The replicas of each partition, and the partition of each key. It keeps that each row has a replica, that
/// none stands in it twice, that nodes are from 1 to 8 and that the partition of each key exists.
#[derive(Drop)]
pub struct PartitionMap {
    rows: Vec<PartRow>,
    keys: Vec<PartId>,
}

impl Model for PartitionMap {
    ghost use Rattle.partition_map.specs.Maps.{IsMap, PartitionMap as Map};

    ghost Value = { Map };

    ghost view = { λ m. record { rows = m.rows.items; keys = m.keys.items } };

    ghost invariant = { λ m. IsMap (record { rows = m.rows.items; keys = m.keys.items }) };
}

impl PartitionMap {
    /// A map with these rows, and these partitions of the keys. It fails where memory runs out.
    pub fn new(
        alloc: Global,
        rows: &Vec<PartRow>,
        keys: &Vec<PartId>,
    ) -> Result<PartitionMap, AllocError>
        requires { IsMap (record { rows = rows.now.items; keys = keys.now.items }) }
        ensures { IfOk result (λ m. m ≡ record { rows = rows.now.items; keys = keys.now.items }) }
    {
        Ok(PartitionMap {
            rows: copied_rows(alloc, rows.as_slice())?,
            keys: copied_keys(alloc, keys.as_slice())?,
        })
    }

    /// The partition of a key.
    pub fn part_of(&self, key: KeyId) -> PartId
        requires { HasKey self.now key }
        ensures value { result ≡ part_of self.now key }
        ensures exists { HasPart self.now result }
    {
        self.keys[key.0 as usize]
    }

    /// The replicas of a partition in order, the first of which is its master.
    fn row(&self, part: PartId) -> &[NodeId]
        requires { HasPart self.now part }
        ensures value { result.now ≡ replicas self.now part }
        ensures some { 1 ≤ length result.now }
    {
        let row = &self.rows[part.0 as usize - 1];
        row.as_slice()
    }

    /// The master of a partition: the first of its replicas.
    pub fn master(&self, part: PartId) -> NodeId
        requires { HasPart self.now part }
        ensures { (n : Node) → result ≡ first_or n (replicas self.now part) }
    {
        self.row(part)[0]
    }

    /// The replicas of a partition in order.
    pub fn replicas(&self, part: PartId) -> PartRow
        requires { HasPart self.now part }
        ensures value { result ≡ replicas self.now part }
        ensures proper { IsRow NODES result }
    {
        let row = &self.rows[part.0 as usize - 1];
        row.copy()
    }

    /// Whether the node is a replica of the partition.
    pub fn hosts(&self, node: NodeId, part: PartId) -> bool
        requires { HasPart self.now part }
        ensures { result ≡ hosts self.now node part }
    {
        for replica in self.row(part) {
            if *replica == node {
                return true;
            }
        }
        false
    }

    /// Whether one of the writes is of a key of the partition.
    fn is_written(&self, writes: &Writes, part: PartId) -> bool
        requires { (i : ℕ) (w : AWrite) → slice_get writes.now i ≡ Some w → HasKey self.now w.key }
        ensures value { result ≡ is_written (part_of self.now) writes.now part }
        ensures limit { length writes.now ≤ OPERATIONS }
    {
        for write in writes.as_slice() {
            if self.part_of(write.key) == part {
                return true;
            }
        }
        false
    }

    /// The participants of a transaction with this origin and these writes: the written partitions upwards, and for each
    /// its replicas in order without the origin. None is asked and none has answered.
    pub fn participants(&self, origin: NodeId, writes: &Writes) -> Participants
        requires origin { Exists origin.0 NODES }
        requires keys { (i : ℕ) (w : AWrite) → slice_get writes.now i ≡ Some w → HasKey self.now w.key }
        ensures { result ≡ participants self.now origin writes.now }
    {
        let mut list = Participants::new();
        for i in 0..self.rows.len() {
            let part = PartId(i as u8 + 1);
            if self.is_written(writes, part) {
                push_others(self.row(part), origin, part, &mut list);
            }
        }
        list
    }
}

/// Appends the nodes of a row but the origin as participants that are not asked.
fn push_others(row: &[NodeId], origin: NodeId, part: PartId, list: &mut Participants)
    requires { length list.old + length (others origin row.now) ≤ PARTICIPANTS }
    ensures { list.new ≡ list.old ++ map (unasked part) (others origin row.now) }
{
    for node in row {
        if *node != origin {
            list.push(Asked {
                part,
                node: *node,
                asked: false,
                ack: None,
            });
        }
    }
}

fn copied_rows(alloc: Global, rows: &[PartRow]) -> Result<Vec<PartRow>, AllocError>
    ensures { IfOk result (λ v. v.items ≡ rows.now) }
{
    let mut copy = Vec::new(alloc);
    for row in rows {
        copy.push(row.copy())?;
    }
    Ok(copy)
}

fn copied_keys(alloc: Global, keys: &[PartId]) -> Result<Vec<PartId>, AllocError>
    ensures { IfOk result (λ v. v.items ≡ keys.now) }
{
    let mut copy = Vec::new(alloc);
    copy.extend_from_slice(keys)?;
    Ok(copy)
}

fn sendable<T: Send + Sync>(_: &T) {}

fn all_sendable(map: &PartitionMap) {
    sendable(map);
}

#[cfg(test)]
mod tests {
    use super::*;
    use std::test::Fail;
    use str_base::{Ts, Value, Write};

    fn pair(first: u8, second: u8) -> PartRow
        ensures { result ≡ record { 0 = first } ∷ record { 0 = second } ∷ [] }
    {
        let mut row = PartRow::new();
        row.push(NodeId(first));
        row.push(NodeId(second));
        row
    }

    fn write(key: u32) -> Write
        ensures { result.key.0 ≡ key }
    {
        let key = KeyId(key);
        let value = Value::Absent;
        Write { key, value }
    }

    fn writes(first: Write, second: Write) -> Writes
        ensures { result ≡ first ∷ second ∷ [] }
    {
        let mut writes = Writes::new();
        writes.push(first);
        writes.push(second);
        writes
    }

    fn unasked(part: u8, node: u8) -> Asked {
        Asked {
            part: PartId(part),
            node: NodeId(node),
            asked: false,
            ack: None::<Ts>,
        }
    }

    // Keys 0 and 2 are of partition 2, and key 1 is of partition 1.
    #[test]
    fn knows_replicas_and_participants(rt: HostRuntime) -> Result<(), Fail> {
        let rows = Vec::from_array(rt.alloc(), [pair(1, 2), pair(3, 2)])?;
        let keys = Vec::from_array(rt.alloc(), [PartId(2), PartId(1), PartId(2)])?;
        let map = PartitionMap::new(rt.alloc(), &rows, &keys)?;
        assert_eq!(rt; map.part_of(KeyId(1)), PartId(1));
        assert_eq!(rt; map.part_of(KeyId(2)), PartId(2));
        assert_eq!(rt; map.master(PartId(1)), NodeId(1));
        assert_eq!(rt; map.master(PartId(2)), NodeId(3));
        let row = map.replicas(PartId(2));
        assert_eq!(rt; row.as_slice(), pair(3, 2).as_slice());
        let hosts = [
            (1, 1, true),
            (2, 1, true),
            (3, 1, false),
            (2, 2, true),
            (1, 2, false),
        ];
        for (node, part, want) in hosts {
            assert_eq!(rt; map.hosts(NodeId(node), PartId(part)), want);
        }
        let got = map.participants(NodeId(1), &writes(write(2), write(1)));
        let want = [unasked(1, 2), unasked(2, 3), unasked(2, 2)];
        assert_eq!(rt; got.as_slice(), want.as_slice());
        let got = map.participants(NodeId(3), &writes(write(0), write(2)));
        assert_eq!(rt; got.as_slice(), [unasked(2, 2)].as_slice());
        Ok(())
    }
}
