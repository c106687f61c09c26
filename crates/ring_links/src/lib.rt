//! One ring of parcels for each ordered pair of nodes, with a backlog that keeps order and an inbox.
#![tactic(auto)]

pub mod ends;
pub mod laws;
pub mod link;
pub mod makes;
pub mod moves;
pub mod parcel;

pub use ends::NodeEnds;
pub use link::Link;
pub use makes::links;
pub use parcel::Parcel;

#[cfg(test)]
mod tests;
