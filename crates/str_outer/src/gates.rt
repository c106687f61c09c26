//! The gate of the programs.
use crate::outside::Gate;
use str_base::NodeId;

/// A gate that lets every round begin at once.
#[derive(Clone, Copy, Debug, Default, PartialEq, Eq)]
pub struct OpenGate;

impl Gate for OpenGate {
    fn before(&mut self, _node: NodeId) {}
}
