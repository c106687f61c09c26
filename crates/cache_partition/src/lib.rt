//! What a node keeps of its own transactions in partitions that it does not host.
#![tactic(auto)]

pub mod caches;

pub use caches::CachePartition;
