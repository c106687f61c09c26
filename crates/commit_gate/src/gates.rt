//! What the gate of a certified transaction says.
ghost use Rattle.commit_gate.specs.Answers.{FirstFree, FirstMissing, InGatedViews, IsGreatest, IsLeast, IsLeastFree, IsUpwards, NoneFree, NoneMissing, is_missing, turn_of};
ghost use Rattle.str_base.specs.declared.names.NodeId.{NodeId as Node};
ghost use Rattle.str_base.specs.declared.names.PartId.{PartId as Part};
ghost use Rattle.str_base.specs.declared.names.Ts.{Ts as Time};
ghost use Rattle.std.specs.List.{list_any};
ghost use Rattle.std.specs.Prelude.{◌≡◌, ◌↔◌, [], IfSome, ℕ, find, map, max, true};
ghost use Rattle.str_base.specs.Versions.{same_part};
ghost use Rattle.str_model.specs.Gates.{ack_or_zero, gate_of, gate_turn, dependency_wrote, may_ask};
ghost use Rattle.str_model.specs.Turns.{greatest};

use dependency_set::Snap;
use partition_map::{Asked, Participants};
use std::marker::{Model, Send, Sync};
use str_base::{NodeId, PartId, ShortList, Ts};

/// A dependency of a transaction by its number, and the partitions that it wrote in.
#[derive(Drop)]
pub struct DepParts {
    pub seq: u32,
    pub parts: ShortList<PartId, 16>,
}

impl Model for DepParts {
    ghost use Rattle.str_model.specs.Gates.{DepParts as Value_};

    ghost Value = { Value_ };

    ghost view = { λ d. record { seq = d.seq; parts = d.parts } };
}

impl Default for DepParts {
    /// No dependency, and no partition.
    fn default() -> DepParts {
        DepParts {
            seq: 0,
            parts: ShortList::new(),
        }
    }
}

impl DepParts {
    /// An equal one.
    pub fn copy(&self) -> DepParts
        ensures { result ≡ self.now }
    {
        DepParts {
            seq: self.seq,
            parts: self.parts.copy(),
        }
    }

    /// Whether it wrote in the partition.
    fn wrote_in(&self, part: PartId) -> bool
        ensures { result ≡ list_any (same_part part) self.now.parts }
    {
        for written in self.parts.as_slice() {
            if part == *written {
                return true;
            }
        }
        false
    }
}

/// What a certified transaction does next.
#[derive(Clone, Copy, Debug, PartialEq, Eq)]
pub enum GateTurn {
    /// It asks this partition.
    Ask { part: PartId },
    /// It waits for this dependency.
    Shut { by: u32 },
    /// It waits for the answer of this replica of this partition.
    Missing { part: PartId, node: NodeId },
    /// It commits at `fc`.
    Commit { fc: Ts },
}

/// What a transaction that was certified at `lc` does next. `parts` are its participants, and `wrote` tells of each
/// dependency of its snapshot the partitions that it wrote in. It asks the first partition that is not asked and in
/// which no dependency wrote. Else it waits for the dependency with the least number, else for the first participant
/// that has not answered. Else it commits at the greatest of `lc` and all answers. It changes nothing.
pub fn gate(snap: &Snap, lc: Ts, parts: &Participants, wrote: &[DepParts]) -> GateTurn
    ensures turn { turn_of result ≡ gate_turn snap.now lc.0 parts.now wrote.now }
    ensures own { InGatedViews snap.now parts.now wrote.now (λ here view x. turn_of result ≡ gate_of here view lc.0 x) }
    ensures ask { (part : Part) → (result ≡ GateTurn.Ask part) ↔ FirstFree wrote.now parts.now part }
    ensures least { (part : Part) → result ≡ GateTurn.Ask part → IsUpwards parts.now → IsLeastFree wrote.now parts.now part }
    ensures shut { (by : ℕ) → (result ≡ GateTurn.Shut by) ↔ (NoneFree wrote.now parts.now × IsLeast snap.now.deps by) }
    ensures missing { (part : Part) (node : Node) → (result ≡ GateTurn.Missing part node) ↔
        (NoneFree wrote.now parts.now × (snap.now.deps ≡ []) × FirstMissing parts.now part node) }
    ensures commit { (fc : Time) → (result ≡ GateTurn.Commit fc) ↔
        (NoneFree wrote.now parts.now × (snap.now.deps ≡ []) × NoneMissing parts.now × IsGreatest lc.0 parts.now fc.0) }
{
    let items = parts.as_slice();
    if let Some(free) = first_free(items, wrote) {
        return GateTurn::Ask { part: free.part };
    }
    if let Some(dep) = snap.deps().first() {
        return GateTurn::Shut { by: dep.seq };
    }
    if let Some(Asked { part, node, .. }) = first_missing(items) {
        return GateTurn::Missing { part, node };
    }
    GateTurn::Commit {
        fc: last_answer(lc, items),
    }
}

/// The first participant whose partition is not asked and was written by none of the dependencies.
fn first_free(parts: &[Asked], wrote: &[DepParts]) -> Option<Asked>
    ensures { result ≡ find (may_ask wrote.now) parts.now }
{
    let mut written = None;
    for other in parts {
        if may_ask(other, wrote, written) {
            return Some(*other);
        }
        if !other.asked {
            written = Some(other.part);
        }
    }
    None
}

/// Whether the partition of a participant is not asked and was written by none of the dependencies. One of them wrote in the
/// partition `written`, if it is given.
fn may_ask(other: &Asked, wrote: &[DepParts], written: Option<PartId>) -> bool
    requires { IfSome written (λ p. dependency_wrote wrote.now p ≡ true) }
    ensures { result ≡ may_ask wrote.now other.now }
{
    if other.asked {
        return false;
    }
    if let Some(part) = written {
        if part == other.part {
            return false;
        }
    }
    !dependency_wrote(wrote, other.part)
}

/// Whether one of the dependencies wrote in the partition.
fn dependency_wrote(wrote: &[DepParts], part: PartId) -> bool
    ensures { result ≡ dependency_wrote wrote.now part }
{
    for dep in wrote {
        if dep.wrote_in(part) {
            return true;
        }
    }
    false
}

/// The first participant that has not answered.
fn first_missing(parts: &[Asked]) -> Option<Asked>
    ensures { result ≡ find is_missing parts.now }
{
    for other in parts {
        if other.ack.is_none() {
            return Some(*other);
        }
    }
    None
}

/// The greatest of `lc` and all answers.
fn last_answer(lc: Ts, parts: &[Asked]) -> Ts
    ensures { result.0 ≡ max lc.0 (greatest (map ack_or_zero parts.now)) }
{
    let mut last = lc;
    for other in parts {
        if let Some(ts) = other.ack {
            last = last.max(ts);
        }
    }
    last
}

fn sendable<T: Send + Sync>(_: &T) {}

fn all_sendable(dep: &DepParts, turn: &GateTurn) {
    sendable(dep);
    sendable(turn);
}

#[cfg(test)]
mod tests {
    use super::*;
    use dependency_set::{Deps, accept_local};
    use std::test::Fail;

    fn snap(rs: u64) -> Snap
        ensures { result ≡ record { rs = rs; ffc = 0; deps = [] } }
    {
        Snap::new(Ts(rs), Ts(0), Deps::new())
    }

    fn other(part: u8, asked: bool, ack: Option<Ts>) -> Asked {
        Asked {
            part: PartId(part),
            node: NodeId(3),
            asked,
            ack,
        }
    }

    fn pair(first: Asked, second: Asked) -> Participants {
        let mut parts = Participants::new();
        parts.push(first);
        parts.push(second);
        parts
    }

    fn wrote(seq: u32, part: u8) -> DepParts {
        let mut parts = ShortList::new();
        parts.push(PartId(part));
        DepParts { seq, parts }
    }

    fn ask(part: u8) -> GateTurn {
        GateTurn::Ask { part: PartId(part) }
    }

    fn missing(part: u8) -> GateTurn {
        GateTurn::Missing {
            part: PartId(part),
            node: NodeId(3),
        }
    }

    // A transaction at 10 that wrote in partitions 1 and 2, with the dependencies 2, which wrote in 1, and 5, which wrote in 4.
    #[test]
    fn waits_for_dependencies(rt: HostRuntime) -> Result<(), Fail> {
        let snap = accept_local(&accept_local(&snap(9), 5, &snap(4)), 2, &snap(6));
        let told = [wrote(5, 4).copy(), wrote(2, 1)];
        let cases = [
            (false, false, ask(2)),
            (true, false, ask(2)),
            (false, true, GateTurn::Shut { by: 2 }),
            (true, true, GateTurn::Shut { by: 2 }),
        ];
        for (first, second, want) in cases {
            let parts = pair(other(1, first, None), other(2, second, None));
            assert_eq!(rt; gate(&snap, Ts(10), &parts, told.as_slice()), want);
        }
        Ok(())
    }

    #[test]
    fn waits_for_answers(rt: HostRuntime) -> Result<(), Fail> {
        let told: [DepParts; 0] = [];
        let cases = [
            (false, None, false, None, ask(1)),
            (true, None, false, None, ask(2)),
            (true, None, true, None, missing(1)),
            (true, Some(Ts(12)), true, None, missing(2)),
            (
                true,
                Some(Ts(12)),
                true,
                Some(Ts(11)),
                GateTurn::Commit { fc: Ts(12) },
            ),
            (
                true,
                Some(Ts(8)),
                true,
                Some(Ts(13)),
                GateTurn::Commit { fc: Ts(13) },
            ),
            (
                true,
                Some(Ts(8)),
                true,
                Some(Ts(9)),
                GateTurn::Commit { fc: Ts(10) },
            ),
        ];
        for (first, ack, second, next_ack, want) in cases {
            let parts = pair(other(1, first, ack), other(2, second, next_ack));
            assert_eq!(rt; gate(&snap(9), Ts(10), &parts, told.as_slice()), want);
        }
        let parts = Participants::new();
        assert_eq!(rt;
            gate(&snap(9), Ts(10), &parts, told.as_slice()),
            GateTurn::Commit { fc: Ts(10) }
        );
        Ok(())
    }
}
