//! What becomes of a transaction when its dependencies are decided.
ghost use Rattle.cascade_abort.specs.Fates.{Decider, Names, NoDecider, decides, decides_at, fate_of, fc_at, kind_of, left, stays_at, told, turn_of};
ghost use Rattle.dependency_set.specs.Snapshots.{IsSet};
ghost use Rattle.std.specs.List.{position_or_len};
ghost use Rattle.std.specs.Prelude.{◌≡◌, ◌↔◌, ◌+◌, ◌≤◌, ◌++◌, [], List, ℕ, filter, find, length, map, max};
ghost use Rattle.str_base.specs.declared.names.Ts.{Ts as Time};
ghost use Rattle.str_model.specs.Turns.{CommittedAt, Gone, dep_turn, greatest};
ghost use Rattle.str_model.specs.Views.{Own};

use dependency_set::{Dep, Deps, Snap};
use std::marker::{Send, Sync};
use str_base::Ts;

/// What became of a transaction.
#[derive(Clone, Copy, Debug, Default, PartialEq, Eq)]
pub enum FateKind {
    /// It is undecided.
    #[default]
    Undecided,
    /// It committed at `fc`.
    Committed { fc: Ts },
    /// It aborted.
    Aborted,
}

/// What became of the own transaction of this number.
#[derive(Clone, Copy, Debug, Default, PartialEq, Eq)]
pub struct Fate {
    pub seq: u32,
    pub kind: FateKind,
}

/// What a look at the dependencies of a transaction comes to.
#[derive(Clone, Copy, Debug, PartialEq, Eq)]
pub enum DepTurn {
    /// It goes on.
    Keep,
    /// It aborts, since this dependency aborted.
    Lost { by: u32 },
    /// It aborts, since this dependency committed at `fc`, above its snapshot.
    Late { by: u32, fc: Ts },
}

/// Looks at the dependencies of a snapshot by rising number, and stops at the first that aborted or that committed
/// above the snapshot's timestamp. Those that were looked at before and committed leave the snapshot, and raise its
/// greatest final timestamp. All else of it stays. A dependency that `fates` does not name counts as undecided.
pub fn resolve(snap: &mut Snap, fates: &[Fate]) -> DepTurn
    ensures turn { (own : List Own) → Names own snap.old.deps fates.now → turn_of result snap.new ≡ dep_turn own snap.old }
    ensures snap { snap.new ≡ left fates.now snap.old }
    ensures keep { (result ≡ DepTurn.Keep) ↔ NoDecider fates.now snap.old }
    ensures lost { (by : ℕ) → (result ≡ DepTurn.Lost by) ↔ Decider fates.now snap.old by Gone }
    ensures late { (by : ℕ) (fc : Time) → (result ≡ DepTurn.Late by fc) ↔ Decider fates.now snap.old by (CommittedAt fc.0) }
{
    let deps = snap.deps();
    let looked = looked_at(deps, snap.rs(), fates);
    let (before, rest) = deps.split_at(looked);
    let turn = verdict(rest.first().copied(), fates);
    let ffc = raised(snap.ffc(), before, fates);
    let mut kept = undecided(before, fates);
    append(&mut kept, rest);
    *snap = Snap::new(snap.rs(), ffc, kept);
    turn
}

/// How many dependencies stand before the first that decides.
fn looked_at(deps: &[Dep], rs: Ts, fates: &[Fate]) -> usize
    ensures { result ≡ position_or_len (decides_at fates.now rs.0) deps.now }
{
    for i in 0..deps.len() {
        if is_decided(fate_of(fates, deps[i].seq), rs) {
            return i;
        }
    }
    deps.len()
}

/// Whether a dependency with this fate decides over a transaction that reads at `rs`.
fn is_decided(kind: FateKind, rs: Ts) -> bool
    ensures { result ≡ decides rs.0 (kind_of kind) }
{
    match kind {
        FateKind::Undecided => false,
        FateKind::Committed { fc } => rs < fc,
        FateKind::Aborted => true,
    }
}

/// What the dependency that decides, where there is one, comes to.
fn verdict(dep: Option<Dep>, fates: &[Fate]) -> DepTurn
    ensures { result ≡ told fates.now dep }
{
    let Some(dep) = dep else {
        return DepTurn::Keep;
    };
    match fate_of(fates, dep.seq) {
        FateKind::Undecided => DepTurn::Keep,
        FateKind::Committed { fc } => DepTurn::Late { by: dep.seq, fc },
        FateKind::Aborted => DepTurn::Lost { by: dep.seq },
    }
}

/// What became of the transaction with this number; undecided where no fate names it.
fn fate_of(fates: &[Fate], seq: u32) -> FateKind
    ensures { kind_of result ≡ fate_of fates.now seq }
{
    for fate in fates {
        if fate.seq == seq {
            return fate.kind;
        }
    }
    FateKind::Undecided
}

/// The greatest of `ffc` and the final timestamps of those that committed.
fn raised(ffc: Ts, deps: &[Dep], fates: &[Fate]) -> Ts
    ensures { result.0 ≡ max ffc.0 (greatest (map (fc_at fates.now) deps.now)) }
{
    let mut last = ffc;
    for dep in deps {
        if let FateKind::Committed { fc } = fate_of(fates, dep.seq) {
            last = last.max(fc);
        }
    }
    last
}

/// Those that did not commit.
fn undecided(deps: &[Dep], fates: &[Fate]) -> Deps
    requires { length deps.now ≤ 15 }
    ensures { result ≡ filter (stays_at fates.now) deps.now }
{
    let mut kept = Deps::new();
    for dep in deps {
        if !matches!(fate_of(fates, dep.seq), FateKind::Committed { .. }) {
            kept.push(*dep);
        }
    }
    kept
}

/// Appends dependencies.
fn append(list: &mut Deps, deps: &[Dep])
    requires { length list.old + length deps.now ≤ 15 }
    ensures { list.new ≡ list.old ++ deps.now }
{
    for dep in deps {
        list.push(*dep);
    }
}

fn sendable<T: Send + Sync>(_: &T) {}

fn all_sendable(fate: &Fate, turn: &DepTurn) {
    sendable(fate);
    sendable(turn);
}

#[cfg(test)]
mod tests {
    use super::*;
    use dependency_set::{accept_final, accept_local};
    use std::test::Fail;

    fn snap(rs: u64) -> Snap
        ensures { result ≡ record { rs = rs; ffc = 0; deps = [] } }
    {
        Snap::new(Ts(rs), Ts(0), Deps::new())
    }

    fn committed(fc: u64) -> FateKind {
        FateKind::Committed { fc: Ts(fc) }
    }

    fn lost(by: u32) -> DepTurn {
        DepTurn::Lost { by }
    }

    fn late(by: u32, fc: u64) -> DepTurn {
        DepTurn::Late { by, fc: Ts(fc) }
    }

    // A transaction at 10 that has read what was final at 4, and depends on 2 and 5.
    #[test]
    fn looks_at_dependencies(rt: HostRuntime) -> Result<(), Fail> {
        let open = FateKind::Undecided;
        let gone = FateKind::Aborted;
        let first = accept_local(&accept_local(&snap(10), 5, &snap(6)), 2, &snap(7));
        let first = accept_final(&first, Ts(4));
        let cases = [
            (open, open, DepTurn::Keep, 4, 2),
            (committed(8), open, DepTurn::Keep, 8, 1),
            (committed(3), open, DepTurn::Keep, 4, 1),
            (committed(9), committed(10), DepTurn::Keep, 10, 0),
            (gone, open, lost(2), 4, 2),
            (gone, committed(12), lost(2), 4, 2),
            (open, gone, lost(5), 4, 2),
            (committed(8), gone, lost(5), 8, 1),
            (committed(11), gone, late(2, 11), 4, 2),
            (open, committed(12), late(5, 12), 4, 2),
            (committed(10), committed(11), late(5, 11), 10, 1),
        ];
        for (second, fifth, turn, ffc, left) in cases {
            let fates = [
                Fate {
                    seq: 5,
                    kind: fifth,
                },
                Fate {
                    seq: 2,
                    kind: second,
                },
            ];
            let mut snap = first.copy();
            assert_eq!(rt; resolve(&mut snap, fates.as_slice()), turn);
            assert_eq!(rt; snap.ffc(), Ts(ffc));
            assert_eq!(rt; snap.deps().len(), left);
            assert_eq!(rt; snap.rs(), Ts(10));
        }
        Ok(())
    }
}
