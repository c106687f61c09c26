//! What travels between nodes.
ghost use Rattle.std.specs.Prelude.{◌≤◌, ◌^◌};

use std::marker::Send;
use str_base::NodeId;
use str_model::Message;

/// A message under way between two nodes, with the stamp of the step that sent it and its number
/// among its sender's messages, from 1. A stamp is at most 2 to the power of 62.
#[derive(Drop)]
pub struct Parcel {
    pub stamp: u64,
    pub sender: NodeId,
    pub number: u64,
    pub message: Message,
    pub ghost capped: { stamp ≤ 2 ^ 62 },
}

fn sendable<T: Send>(_: &T) {}

fn parcels_are_sendable(parcel: &Parcel) {
    sendable(parcel);
}
