//! The names of nodes, partitions, sessions, keys and transactions, and the versions of keys.

/// A node of a scene, from 1.
#[derive(Clone, Copy, Debug, Default, PartialEq, Eq, PartialOrd, Ord)]
pub struct NodeId(pub u8);

/// A partition of a scene, from 1.
#[derive(Clone, Copy, Debug, Default, PartialEq, Eq, PartialOrd, Ord)]
pub struct PartId(pub u8);

/// A session of a scene, from 1.
#[derive(Clone, Copy, Debug, Default, PartialEq, Eq, PartialOrd, Ord)]
pub struct SessionId(pub u8);

/// A key, by its number in the scene's table of keys, from 0.
#[derive(Clone, Copy, Debug, Default, PartialEq, Eq, PartialOrd, Ord)]
pub struct KeyId(pub u32);

/// A timestamp.
#[derive(Clone, Copy, Debug, Default, PartialEq, Eq, PartialOrd, Ord)]
pub struct Ts(pub u64);

/// A byte string, by its number in the scene's list of byte strings, from 0.
#[derive(Clone, Copy, Debug, Default, PartialEq, Eq, PartialOrd, Ord)]
pub struct TextId(pub u32);

/// The value of a key.
#[derive(Clone, Copy, Debug, Default, PartialEq, Eq)]
pub enum Value {
    /// The key has no value.
    #[default]
    Absent,
    /// A number.
    Num(i64),
    /// A byte string of the scene.
    Text(TextId),
}

/// The `seq`-th transaction of its node of origin, counted from 1.
#[derive(Clone, Copy, Debug, Default, PartialEq, Eq, PartialOrd, Ord)]
pub struct TxId {
    pub node: NodeId,
    pub seq: u32,
}

/// How far a version has come.
#[derive(Clone, Copy, Debug, Default, PartialEq, Eq)]
pub enum Kind {
    /// Held for a transaction of another node that is undecided.
    #[default]
    Pre,
    /// Written by an own transaction that is certified and undecided.
    Local,
    /// Committed.
    Final,
}

/// A version of a key: the value that a transaction gave it, with a timestamp.
#[derive(Clone, Copy, Debug, Default, PartialEq, Eq)]
pub struct Version {
    pub key: KeyId,
    pub part: PartId,
    pub tx: TxId,
    pub ts: Ts,
    pub value: Value,
    pub kind: Kind,
}

/// A key and the value that a transaction gives it.
#[derive(Clone, Copy, Debug, Default, PartialEq, Eq)]
pub struct Write {
    pub key: KeyId,
    pub value: Value,
}

/// Why a transaction aborted.
#[derive(Clone, Copy, Debug, Default, PartialEq, Eq)]
pub enum Cause {
    /// It wrote a key that another transaction wrote too; the conflict was found at `node`.
    Conflict { by: TxId, key: KeyId, node: NodeId },
    /// A transaction that it depended on aborted.
    Lost { by: TxId },
    /// A transaction that it depended on committed at `fc`, above its snapshot.
    Late { by: TxId, fc: Ts },
    /// Its script asked for it.
    #[default]
    Wish,
}
