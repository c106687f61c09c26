//! The limits of a scene, of its text and of what one transaction takes.

/// The nodes of a scene. A partition has a replica at each node at most.
pub const NODES: usize = 8;

/// The replicas of a partition.
pub const REPLICAS: usize = 8;

/// The partitions of a scene.
pub const PARTITIONS: usize = 32;

/// The sessions of a scene.
pub const SESSIONS: usize = 64;

/// The sessions of one node.
pub const NODE_SESSIONS: usize = 16;

/// The transactions of a scene.
pub const TRANSACTIONS: usize = 1024;

/// The operations of a transaction, and so its reads and its writes.
pub const OPERATIONS: usize = 16;

/// The entries of a schedule.
pub const SCHEDULE_ENTRIES: usize = 65_536;

/// The keys of a scene, and also its byte strings: each is named by an operation.
pub const KEYS: usize = TRANSACTIONS * OPERATIONS;

/// The bytes of a key's name.
pub const NAME_BYTES: usize = 16;

/// The bytes of a byte string.
pub const TEXT_BYTES: usize = 64;

/// The participants of a transaction: of each partition that it writes the other replicas.
pub const PARTICIPANTS: usize = 112;

/// The dependencies of a transaction: the undecided transactions of its node but itself.
pub const DEPENDENCIES: usize = 15;

/// The bytes of an input.
pub const INPUT_BYTES: usize = 1_048_576;
