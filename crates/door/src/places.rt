//! The places of a node's transactions.
ghost use Rattle.door.specs.Places.{own_places, places_at};
ghost use Rattle.std.specs.Prelude.{◌≡◌, ◌<◌, ◌^◌, ◌++◌, IfOk, OnOk, length};

use std::alloc::{AllocError, Global};
use str_base::{NodeId, SessionId};
use str_scene::{Scene, SessionText, TxPlace};

/// Appends the places of a session, where it is of the node.
fn push_places(
    places: &mut Vec<TxPlace>,
    node: NodeId,
    session: SessionId,
    text: &SessionText,
) -> Result<(), AllocError>
    requires { length text.now.txs < 2 ^ 32 }
    ensures { OnOk result (places.new.items ≡ places.old.items ++ places_at node session.0 text.now) }
{
    if text.node() != node {
        return Ok(());
    }
    for number in 0..text.txs().len() as u32 {
        places.push(TxPlace {
            session,
            index: number + 1,
        })?;
    }
    Ok(())
}

/// The places of the transactions of a node's sessions, upwards.
pub(crate) fn places_of_node(
    alloc: Global,
    scene: &Scene,
    node: NodeId,
) -> Result<Vec<TxPlace>, AllocError>
    ensures { IfOk result (λ places. places.items ≡ own_places scene.now node) }
{
    let mut places = Vec::new(alloc);
    for i in 0..scene.sessions().len() {
        push_places(
            &mut places,
            node,
            SessionId(i as u8 + 1),
            &scene.sessions()[i],
        )?;
    }
    Ok(places)
}
