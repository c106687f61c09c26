//! Walks over the versions of a key.
ghost use Rattle.std.specs.Prelude.{◌≡◌, ◌++◌, [], None, IfNone};
ghost use Rattle.std.specs.List.{last_or};
ghost use Rattle.version_chain.specs.Walks.{with_version};

use link_arena::{Arena, Slot};
use std::marker::Model;
use str_base::{KeyId, Version};

/// A walk over the versions of a key, at a place between two of them. It is seen as the versions before its place, which are older, and those
/// after it, which are newer, in the order of the key.
#[derive(Drop)]
pub struct Walk<'a> {
    pub(crate) arena: &'a Arena,
    pub(crate) key: KeyId,
    pub(crate) before: Option<Slot>,
    pub(crate) after: Option<Slot>,
}

impl<'a> Model for Walk<'a> {
    ghost use Rattle.link_arena.specs.Arenas.{number_of};
    ghost use Rattle.version_chain.specs.Walks.{WalkView};
    ghost use Rattle.version_chain.specs.Flat.{IsWalk, walk_view};

    ghost Value = { WalkView };

    ghost view = { λ w. walk_view w.arena.now w.key (number_of w.before) };

    ghost invariant = { λ w. IsWalk w.arena.now w.key (number_of w.before) (number_of w.after) };
}

impl<'a> Walk<'a> {
    /// Goes back over one version, and gives it. None where no version is older.
    pub fn older(&mut self) -> Option<Version>
        ensures value { result ≡ last_or None self.old.older }
        ensures older { self.old.older ≡ self.new.older ++ with_version result [] }
        ensures newer { self.new.newer ≡ with_version result self.old.newer }
        ensures end { IfNone result (self.old.older ≡ []) }
    {
        match self.before {
            Some(slot) => {
                let version = self.arena.get(slot);
                self.before = self.arena.before_in_key(slot);
                self.after = Some(slot);
                Some(version)
            }
            None => None,
        }
    }

    /// Goes on over one version, and gives it. None where no version is newer.
    pub fn newer(&mut self) -> Option<Version>
        ensures newer { self.old.newer ≡ with_version result self.new.newer }
        ensures older { self.new.older ≡ self.old.older ++ with_version result [] }
        ensures end { IfNone result (self.old.newer ≡ []) }
    {
        match self.after {
            Some(slot) => {
                let version = self.arena.get(slot);
                self.after = self.arena.next_in_key(slot);
                self.before = Some(slot);
                Some(version)
            }
            None => None,
        }
    }
}
