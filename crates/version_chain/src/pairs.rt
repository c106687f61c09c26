//! The versions of a transaction in a partition. Each call walks the list of the transaction.
ghost use Rattle.std.specs.Prelude.{◌≡◌};
ghost use Rattle.std.specs.List.{list_any};
ghost use Rattle.str_base.specs.Versions.{finalise, of_pair, without};
ghost use Rattle.version_chain.specs.Flat.{IsChains, flat};

use crate::places::settle;
use link_arena::Arena;
use str_base::{PartId, Ts, TxId, Version};

/// Whether a version is of a transaction in a partition.
fn is_of(version: &Version, tx: TxId, part: PartId) -> bool
    ensures { result ≡ of_pair tx part version.now }
{
    version.tx == tx && version.part == part
}

/// Whether there is a version of the transaction in the partition.
pub fn has_pair(arena: &Arena, tx: TxId, part: PartId) -> bool
    requires { IsChains arena.now }
    ensures { result ≡ list_any (of_pair tx part) (flat arena.now) }
{
    let mut slot = arena.first_of_tx(tx);
    'slots: while let Some(here) = slot {
        if is_of(&arena.get(here), tx, part) {
            return true;
        }
        slot = arena.next_in_tx(here);
    }
    false
}

/// Takes the versions of the transaction in the partition out.
pub fn remove_pair(arena: &mut Arena, tx: TxId, part: PartId)
    requires { IsChains arena.old }
    ensures chains { IsChains arena.new }
    ensures versions { flat arena.new ≡ without (of_pair tx part) (flat arena.old) }
    ensures spare { arena.new.spare ≡ arena.old.spare }
{
    let mut slot = arena.first_of_tx(tx);
    'slots: while let Some(here) = slot {
        slot = arena.next_in_tx(here);
        if is_of(&arena.get(here), tx, part) {
            arena.unlink(here);
        }
    }
}

/// Makes each version of the transaction in the partition Final at `fc`.
pub fn finalise_pair(arena: &mut Arena, tx: TxId, part: PartId, fc: Ts)
    requires { IsChains arena.old }
    ensures chains { IsChains arena.new }
    ensures versions { flat arena.new ≡ finalise (of_pair tx part) fc.0 (flat arena.old) }
    ensures spare { arena.new.spare ≡ arena.old.spare }
{
    let mut slot = arena.first_of_tx(tx);
    'slots: while let Some(here) = slot {
        slot = arena.next_in_tx(here);
        if is_of(&arena.get(here), tx, part) {
            settle(arena, here, fc);
        }
    }
}
