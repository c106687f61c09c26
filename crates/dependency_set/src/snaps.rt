//! Snapshots, and how they take in what was read.
ghost use Rattle.dependency_set.specs.Snapshots.{IsSet, accept_final, accept_local, holds, insert_dep, older, oldest, union};
ghost use Rattle.std.specs.Prelude.{◌≡◌, ◌≤◌, length};
ghost use Rattle.str_base.specs.declared.limits.TheConstants.{DEPENDENCIES};
ghost use Rattle.str_base.specs.Versions.{stamp};

use crate::names::{Dep, Deps};
use std::marker::{Model, Send, Sync};
use str_base::Ts;

/// A snapshot: its timestamp, the greatest final timestamp that was read, and the undecided transactions of the same
/// node that were read from. It keeps that these rise by number, and that there are at most 15 of them.
#[derive(Drop)]
pub struct Snap {
    rs: Ts,
    ffc: Ts,
    deps: Deps,
}

impl Model for Snap {
    ghost use Rattle.dependency_set.specs.Snapshots.{IsSet, Snap as Value_};

    ghost Value = { Value_ };

    ghost view = { λ s. record { rs = s.rs.0; ffc = s.ffc.0; deps = s.deps } };

    ghost invariant = { λ s. IsSet s.deps };
}

/// An own transaction by its number, with its snapshot.
#[derive(Drop)]
pub struct OwnSnap {
    pub seq: u32,
    pub snap: Snap,
}

impl OwnSnap {
    /// An equal one.
    pub fn copy(&self) -> OwnSnap
        ensures { result ≡ self.now }
    {
        OwnSnap {
            seq: self.seq,
            snap: self.snap.copy(),
        }
    }
}

impl Snap {
    /// A snapshot of these parts.
    pub fn new(rs: Ts, ffc: Ts, deps: Deps) -> Snap
        requires { IsSet deps }
        ensures { result ≡ record { rs = rs.0; ffc = ffc.0; deps = deps } }
    {
        Snap { rs, ffc, deps }
    }

    /// An equal snapshot.
    pub fn copy(&self) -> Snap
        ensures { result ≡ self.now }
    {
        Snap {
            rs: self.rs,
            ffc: self.ffc,
            deps: self.deps.copy(),
        }
    }

    /// Its timestamp.
    pub fn rs(&self) -> Ts
        ensures { result ≡ stamp self.now.rs }
    {
        self.rs
    }

    /// The greatest final timestamp that was read.
    pub fn ffc(&self) -> Ts
        ensures { result ≡ stamp self.now.ffc }
    {
        self.ffc
    }

    /// The undecided transactions that were read from, by rising number.
    pub fn deps(&self) -> &[Dep]
        ensures value { result.now ≡ self.now.deps }
        ensures set { IsSet self.now.deps }
    {
        self.deps.as_slice()
    }
}

/// The snapshot after a read of what was committed at `fc`.
pub fn accept_final(snap: &Snap, fc: Ts) -> Snap
    ensures { result ≡ accept_final snap.now fc.0 }
{
    Snap {
        rs: snap.rs,
        ffc: snap.ffc.max(fc),
        deps: snap.deps.copy(),
    }
}

/// The snapshot after a read of what the undecided transaction with this number and snapshot wrote: it and all that
/// it depends on are taken in.
pub fn accept_local(snap: &Snap, seq: u32, of: &Snap) -> Snap
    requires { length (accept_local snap.now seq of.now).deps ≤ DEPENDENCIES }
    ensures { result ≡ accept_local snap.now seq of.now }
{
    let all = joined(&of.deps, &snap.deps);
    Snap {
        rs: snap.rs,
        ffc: snap.ffc.max(of.ffc),
        deps: with_dep(Dep { seq, rs: of.rs }, &all),
    }
}

/// Whether no dependency began its reading below the greatest final timestamp that was read.
pub fn holds(snap: &Snap) -> bool
    ensures { result ≡ holds snap.now }
{
    for dep in snap.deps.as_slice() {
        if dep.rs < snap.ffc {
            return false;
        }
    }
    true
}

/// The dependency with the least timestamp, of those with one timestamp the one with the least number. None where
/// there is no dependency.
pub fn oldest(snap: &Snap) -> Option<Dep>
    ensures { result ≡ oldest snap.now.deps }
{
    let deps = snap.deps.as_slice();
    let mut best: Option<Dep> = None;
    let mut i = deps.len();
    while i > 0 {
        i -= 1;
        best = Some(older(deps[i], best));
    }
    best
}

/// The older of two, the first one where their timestamps are equal.
fn older(dep: Dep, other: Option<Dep>) -> Dep
    ensures { result ≡ older dep other }
{
    match other {
        Some(other) if other.rs < dep.rs => other,
        _ => dep,
    }
}

/// Both lists in one that rises by number.
fn joined(deps: &Deps, others: &Deps) -> Deps
    requires { length (union deps.now others.now) ≤ DEPENDENCIES }
    ensures { result ≡ union deps.now others.now }
{
    let items = deps.as_slice();
    let mut list = others.copy();
    let mut i = items.len();
    while i > 0 {
        i -= 1;
        list = with_dep(items[i], &list);
    }
    list
}

/// The list with one more, which rises by number. One that is there with its number stays.
fn with_dep(dep: Dep, deps: &Deps) -> Deps
    requires { length (insert_dep dep deps.now) ≤ DEPENDENCIES }
    ensures { result ≡ insert_dep dep deps.now }
{
    let mut list = Deps::new();
    let mut is_missing = true;
    for other in deps.as_slice() {
        if is_missing && dep.seq < other.seq {
            list.push(dep);
        }
        if dep.seq <= other.seq {
            is_missing = false;
        }
        list.push(*other);
    }
    if is_missing {
        list.push(dep);
    }
    list
}

fn sendable<T: Send + Sync>(_: &T) {}

fn all_sendable(snap: &Snap, own: &OwnSnap) {
    sendable(snap);
    sendable(own);
}

#[cfg(test)]
mod tests {
    use super::*;
    use std::test::Fail;

    fn dep(seq: u32, rs: u64) -> Dep {
        Dep { seq, rs: Ts(rs) }
    }

    // Transaction 4 depends on 2, and is taken in by a transaction that depends on 1 and 3.
    #[test]
    fn takes_in_what_was_read(rt: HostRuntime) -> Result<(), Fail> {
        let none: [Dep; 0] = [];
        let fresh = Snap::new(Ts(10), Ts(0), Deps::new());
        let second = Snap::new(Ts(3), Ts(0), Deps::new());
        let other = Snap::new(Ts(5), Ts(0), Deps::new());
        let fourth = Snap::new(Ts(7), Ts(4), Deps::new());
        let fourth = accept_local(&fourth, 2, &second);
        let snap = accept_local(&accept_local(&fresh, 3, &other), 1, &other);
        assert_eq!(rt; snap.deps(), [dep(1, 5), dep(3, 5)].as_slice());
        assert_eq!(rt; oldest(&snap), Some(dep(1, 5)));
        let snap = OwnSnap { seq: 9, snap }.copy().snap;
        let snap = accept_local(&snap, 4, &fourth);
        assert_eq!(rt; snap.rs(), Ts(10));
        assert_eq!(rt; snap.ffc(), Ts(4));
        assert_eq!(rt;
            snap.deps(),
            [dep(1, 5), dep(2, 3), dep(3, 5), dep(4, 7)].as_slice()
        );
        assert_eq!(rt; oldest(&snap), Some(dep(2, 3)));
        assert!(rt; !holds(&snap));
        assert!(rt; holds(&accept_final(&fresh, Ts(6))));
        assert_eq!(rt; accept_final(&fresh, Ts(6)).ffc(), Ts(6));
        assert_eq!(rt; fresh.deps(), none.as_slice());
        assert_eq!(rt; oldest(&fresh), None::<Dep>);
        Ok(())
    }
}
