//! Tables of what a node is given, and what comes of it.

use crate::letters::{Given, input, push_answers, push_messages};
use node_core::{Node, Outbox};
use scene_text::read_scene;
use std::alloc::{AllocError, Global};
use std::process::Abort;
use std::test::Fail;
use str_base::NodeId;
use str_model::Input;

/// An input, and the lines of what is sent and released on it.
pub(crate) type Row = (Given, &'static [u8]);

/// The lines of an idle input.
pub(crate) const IDLE: &[u8] = b"idle\n";

/// A new node of this number in the scene of a text.
pub(crate) fn node_of(alloc: Global, text: &[u8], number: u8) -> Result<Node, Fail> {
    let scene = read_scene(alloc, text)?;
    if number == 0 || scene.nodes() < number {
        return Err("no such node".into());
    }
    Ok(Node::new(alloc, NodeId(number), &scene)?)
}

/// A whole step, and whether it was not idle.
pub(crate) fn step(node: &mut Node, input: &Input, out: &mut Outbox) -> Result<bool, AllocError> {
    let most = node.ready(input, out)?;
    Ok(node.step(input, out))
}

/// The lines of a whole step.
fn lines(alloc: Global, node: &mut Node, given: Given) -> Result<Vec<u8>, AllocError> {
    let mut lines = Vec::new(alloc);
    let mut out = Outbox::new(alloc);
    if !step(node, &input(given), &mut out)? {
        lines.extend_from_slice(IDLE)?;
    }
    push_messages(&out, node.scene().keys(), &mut lines)?;
    push_answers(&out, node.scene().keys(), &mut lines)?;
    Ok(lines)
}

/// The first of these inputs that is not idle, by its place.
fn first_taken(
    alloc: Global,
    node: &mut Node,
    inputs: &[Given],
) -> Result<Option<usize>, AllocError> {
    for (i, given) in inputs.iter().enumerate() {
        let lines = lines(alloc, node, *given)?;
        if lines.as_slice() != IDLE {
            return Ok(Some(i));
        }
    }
    Ok(None)
}

/// Gives a node all strangers, and then a row: the place of a stranger that is not idle, or that of the row where its lines are others.
fn wrong_place(
    alloc: Global,
    node: &mut Node,
    strangers: &[Given],
    row: &Row,
) -> Result<Option<usize>, AllocError> {
    let taken = first_taken(alloc, node, strangers)?;
    if taken.is_some() {
        return Ok(taken);
    }
    let lines = lines(alloc, node, row.0)?;
    Ok(if lines.as_slice() == row.1 {
        None
    } else {
        Some(strangers.len())
    })
}

/// The first row at which something goes wrong, by its place, and what.
fn first_wrong(
    alloc: Global,
    node: &mut Node,
    strangers: &[Given],
    rows: &[Row],
) -> Result<Option<(usize, usize)>, AllocError> {
    for (i, row) in rows.iter().enumerate() {
        if let Some(place) = wrong_place(alloc, node, strangers, row)? {
            return Ok(Some((i, place)));
        }
    }
    Ok(None)
}

/// Gives a node the inputs of rows in order, and before each of them and at last all strangers, which are to be idle.
pub(crate) fn check(
    rt: &(impl Abort + AllocGlobal),
    node: &mut Node,
    strangers: &[Given],
    rows: &[Row],
) -> Result<(), Fail> {
    assert_eq!(rt; first_wrong(rt.alloc(), node, strangers, rows)?, None);
    assert_eq!(rt; first_taken(rt.alloc(), node, strangers)?, None);
    Ok(())
}
