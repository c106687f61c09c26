//! How far an own transaction has come.
ghost use Rattle.node_parts.specs.Phases.{number_if, phase_of};
ghost use Rattle.std.specs.Prelude.{◌≡◌};
ghost use Rattle.str_model.specs.Views.{is_certified, is_decided, lc_of};

use std::marker::{Send, Sync};
use str_base::{Cause, KeyId, Ts, TxId, Value};

/// How far an own transaction has come.
#[derive(Clone, Copy, Debug, PartialEq, Eq)]
pub enum Phase {
    /// It is ready for a client step.
    Active,
    /// It waits for what another transaction has written here.
    ReadWait {
        key: KeyId,
    },
    /// A read is under way to the master of its key.
    Remote {
        key: KeyId,
    },
    /// The reply of a master has come, and waits for dependencies.
    Reply {
        key: KeyId,
        value: Value,
        by: Option<TxId>,
        fc: Ts,
    },
    /// Its certification waits for dependencies.
    CertWait,
    /// It has nothing to certify, or a need that is not met, and waits for its dependencies. With a wish it aborts then.
    Closing {
        wish: bool,
    },
    /// It is certified, and has asked no partition yet.
    Local {
        lc: Ts,
    },
    /// It is certified, and has asked one partition at least.
    Global {
        lc: Ts,
    },
    /// It has committed, with its timestamps where it wrote.
    Committed {
        lc: Option<Ts>,
        fc: Option<Ts>,
    },
    /// It has aborted.
    Aborted {
        lc: Option<Ts>,
        cause: Cause,
    },
}

impl Phase {
    /// Whether it has committed or aborted.
    pub fn is_decided(self) -> bool
        ensures { result ≡ is_decided (phase_of self) }
    {
        match self {
            Phase::Committed { .. } | Phase::Aborted { .. } => true,
            _ => false,
        }
    }

    /// Whether it is certified and undecided.
    pub fn is_certified(self) -> bool
        ensures { result ≡ is_certified (phase_of self) }
    {
        match self {
            Phase::Local { .. } | Phase::Global { .. } => true,
            _ => false,
        }
    }

    /// The local commit timestamp, where it was certified.
    pub fn lc(self) -> Option<Ts>
        ensures { number_if result ≡ lc_of (phase_of self) }
    {
        match self {
            Phase::Local { lc } | Phase::Global { lc } => Some(lc),
            Phase::Committed { lc, .. } | Phase::Aborted { lc, .. } => lc,
            _ => None,
        }
    }
}

fn sendable<T: Send + Sync>(_: &T) {}

fn all_sendable(phase: &Phase) {
    sendable(phase);
}
