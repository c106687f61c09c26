//! A dependency of a transaction.

use std::marker::{Send, Sync};
use str_base::limits::NODE_SESSIONS;
use str_base::{ShortList, Ts};

/// An undecided transaction of the same node from which a transaction has read, with its snapshot timestamp.
#[derive(Clone, Copy, Debug, Default, PartialEq, Eq)]
pub struct Dep {
    pub seq: u32,
    pub rs: Ts,
}

/// The dependencies of a transaction, which rise by number.
pub type Deps = ShortList<Dep, NODE_SESSIONS>;

fn sendable<T: Send + Sync>(_: &T) {}

fn all_sendable(deps: &Deps) {
    sendable(deps);
}
