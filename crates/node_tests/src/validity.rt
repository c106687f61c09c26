//! Messages that are valid at a node, and strange ones.

use crate::letters::{LIMIT, Letter, body};
use node_parts::{Site, is_valid};
use scene_text::read_scene;
use std::test::Fail;
use str_base::{KeyId, NodeId, TextId, Value};
use str_model::Message;

/// Nodes 1 and 2, with a partition each. There is one byte string.
static TWO_NODES: [u8; 84] = *b"str 2\nnodes 2\npart 1 1\npart 2 2\nsession 1\ntx\nput a@1 5\ntx\n\
    puts b@2 x78\nschedule\nend\n";

const A: KeyId = KeyId(0);

const B: KeyId = KeyId(1);

/// The scene's byte string, and one that it doesn't have.
const TEXT: Value = Value::Text(TextId(0));

const NO_TEXT: Value = Value::Text(TextId(1));

/// Letters from node 2 to node 1, and whether they are valid.
static CASES: [(Letter, bool); 20] = [
    (Letter::ReadReq((2, 3), B, 7), true),
    (Letter::ReadReq((3, 3), B, 7), false),
    (Letter::ReadReq((2, 3), KeyId(2), 7), false),
    (Letter::ReadReq((2, 3), B, LIMIT), false),
    (Letter::ReadReply((1, 3), A, TEXT, Some((2, 3)), 7), true),
    (Letter::ReadReply((1, 3), A, NO_TEXT, None, 7), false),
    (
        Letter::ReadReply((1, 3), A, Value::Absent, Some((0, 3)), 7),
        false,
    ),
    (Letter::Prepare((2, 3), 1, 7, 8, &[(A, TEXT)]), true),
    (Letter::Prepare((2, 3), 1, 7, 8, &[]), false),
    (Letter::Prepare((2, 3), 1, 7, 8, &[(B, TEXT)]), false),
    (
        Letter::Prepare((2, 3), 1, 7, 8, &[(A, TEXT), (A, TEXT)]),
        false,
    ),
    (Letter::Prepare((2, 3), 3, 7, 8, &[(A, TEXT)]), false),
    (Letter::Refuse((1, 3), 2, (2, 3), B), true),
    (Letter::Refuse((1, 3), 2, (3, 3), B), false),
    (Letter::Commit((2, 3), 2, 7, &[(B, 9)]), true),
    (Letter::Commit((2, 3), 2, 7, &[]), true),
    (Letter::Commit((2, 3), 2, 7, &[(B, 9), (B, 9)]), false),
    (Letter::Commit((2, 3), 2, 7, &[(B, LIMIT)]), false),
    (Letter::Ack((1, 3), 2, LIMIT - 1), true),
    (Letter::Ack((1, 3), 0, 9), false),
];

// Each behind a call: a proof then has no table in sight.

fn two_nodes() -> &'static [u8] {
    &TWO_NODES
}

fn cases() -> &'static [(Letter, bool)] {
    &CASES
}

/// The first letter that is told otherwise, by its place.
fn first_wrong(site: &Site) -> Option<usize> {
    for (i, (letter, want)) in cases().iter().enumerate() {
        let message = Message {
            sender: NodeId(2),
            receiver: NodeId(1),
            body: body(*letter),
        };
        if is_valid(site, &message) != *want {
            return Some(i);
        }
    }
    None
}

#[test]
fn strange_messages_are_told(rt: HostRuntime) -> Result<(), Fail> {
    let scene = read_scene(rt.alloc(), two_nodes())?;
    if scene.nodes() == 0 {
        return Err("a node".into());
    }
    let site = Site::new(rt.alloc(), NodeId(1), &scene)?;
    assert_eq!(rt; first_wrong(&site), None);
    let message = Message {
        sender: NodeId(2),
        receiver: NodeId(2),
        body: body(Letter::Ack((1, 3), 2, 9)),
    };
    assert!(rt; !is_valid(&site, &message));
    Ok(())
}
