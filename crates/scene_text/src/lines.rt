//! The lines of a scene's text.

use partition_map::PartRow;
use str_base::{NodeId, PartId, SessionId};
use str_scene::{ByteText, Name};

/// A line of the text of a scene.
#[derive(Drop)]
pub enum Line {
    /// `str V`, the version of the format.
    Version(u8),
    /// `nodes N`, the number of nodes.
    Nodes(u8),
    /// `part P R ..`, a partition's number and its replicas, the first of which is the master.
    Part(PartId, PartRow),
    /// `session N`, which begins a session at a node.
    Session(NodeId),
    /// `tx`, which begins a transaction.
    Tx,
    /// `get K`, with the name and the partition of a key.
    Get(Name, PartId),
    /// `put K V`, with a number.
    Put(Name, PartId, i64),
    /// `puts K H`, with a byte string; in version 2 alone.
    Puts(Name, PartId, ByteText),
    /// `add K V`, with a number.
    Add(Name, PartId, i64),
    /// `del K`.
    Del(Name, PartId),
    /// `need K V`, with a number.
    Need(Name, PartId, i64),
    /// `abort`.
    Abort,
    /// `schedule`, which begins the schedule.
    Schedule,
    /// `c S T`, a client step of a session with a reading.
    Client(SessionId, u64),
    /// `d I`, the delivery of a message.
    Deliver(u64),
    /// `drain`.
    Drain,
    /// `end`, the last line.
    End,
}

/// The kind of a line of the text of a scene, which its first word tells.
#[derive(Clone, Copy, Debug, PartialEq, Eq)]
pub enum Word {
    Version,
    Nodes,
    Part,
    Session,
    Tx,
    Get,
    Put,
    Puts,
    Add,
    Del,
    Need,
    Abort,
    Schedule,
    Client,
    Deliver,
    Drain,
    End,
}

/// What was read of a line that is of the form: its kind, and the line itself where its numbers fit their types.
#[derive(Drop)]
pub struct ReadLine {
    pub word: Word,
    pub line: Option<Line>,
}
