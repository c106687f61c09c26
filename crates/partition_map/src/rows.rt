//! The replicas of a partition, and the participants of a transaction.

use std::marker::{Send, Sync};
use str_base::limits::{PARTICIPANTS, REPLICAS};
use str_base::{NodeId, PartId, ShortList, Ts};

/// The replicas of a partition: distinct nodes, the first of which is its master.
pub type PartRow = ShortList<NodeId, REPLICAS>;

/// A participant of a transaction: a written partition and a replica of it other than the origin, whether
/// the partition was asked, and the timestamp that the replica answered.
#[derive(Clone, Copy, Debug, Default, PartialEq, Eq)]
pub struct Asked {
    pub part: PartId,
    pub node: NodeId,
    pub asked: bool,
    pub ack: Option<Ts>,
}

/// The participants of a transaction: partitions upwards, and for each its replicas in map order.
pub type Participants = ShortList<Asked, PARTICIPANTS>;

/// What this crate's types are at other threads.
fn sendable<T: Send + Sync>(_: &T) {}

fn all_sendable(row: &PartRow, parts: &Participants) {
    sendable(row);
    sendable(parts);
}
