//! Takes out of a store the old versions that no snapshot at or above a mark can see.
#![tactic(auto)]

pub mod keys;
pub mod stores;

pub use keys::prune_key;
pub use stores::prune;
