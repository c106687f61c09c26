//! The version of a key by a transaction. Each call walks the list of the key from its oldest end.
ghost use Rattle.std.specs.Prelude.{◌≡◌, false, true, IfNone, IfSome};
ghost use Rattle.std.specs.List.{list_any};
ghost use Rattle.str_base.specs.Versions.{without};
ghost use Rattle.link_arena.specs.Arenas.{at};
ghost use Rattle.link_arena.specs.OneSide.{is_named};
ghost use Rattle.version_chain.specs.ChainLists.{of_write};
ghost use Rattle.version_chain.specs.Flat.{IsChains, flat};

use link_arena::{Arena, Slot};
use str_base::{KeyId, TxId, Version};

/// Whether a version is that of the key by the transaction.
fn is_write(version: &Version, key: KeyId, tx: TxId) -> bool
    ensures { result ≡ of_write key tx version.now }
{
    version.key == key && version.tx == tx
}

/// The slot of the version of the key by the transaction, None where there is none.
fn slot_of(arena: &Arena, key: KeyId, tx: TxId) -> Option<Slot>
    requires { IsChains arena.now }
    ensures found { IfSome result (λ s. is_named (of_write key) tx (at arena.now s.0) ≡ true) }
    ensures none { IfNone result (list_any (of_write key tx) (flat arena.now) ≡ false) }
{
    let mut slot = arena.first_of_key(key);
    'slots: while let Some(here) = slot {
        if is_write(&arena.get(here), key, tx) {
            return Some(here);
        }
        slot = arena.next_in_key(here);
    }
    None
}

/// Takes the version of the key by the transaction out, if there is one.
pub fn drop_write(arena: &mut Arena, key: KeyId, tx: TxId)
    requires { IsChains arena.old }
    ensures chains { IsChains arena.new }
    ensures versions { flat arena.new ≡ without (of_write key tx) (flat arena.old) }
    ensures spare { arena.new.spare ≡ arena.old.spare }
{
    if let Some(slot) = slot_of(arena, key, tx) {
        arena.unlink(slot);
    }
}
