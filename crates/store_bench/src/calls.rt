//! The calls by name, and the look-ups.

use crate::fill::{LATE, PART, Size, first_tx};
use replica_store::ReplicaStore;
use str_base::{KeyId, Ts};

/// A call over a filled store.
#[derive(Clone, Copy)]
pub enum Call {
    /// A Pre version of the first key comes in and is taken out.
    Insert,
    /// The same, and it is made Final between.
    Finalise,
    /// Whether a transaction that wrote the first key has a version.
    Has,
    /// The greatest timestamp of the first key.
    Newest,
    /// The last version of the first key.
    Visible,
    /// The last undecided version of the first key.
    Undecided,
    /// Where a walk over the first key begins that is to meet what isn't settled.
    Walk,
    /// An own transaction that writes the first key is certified.
    Certify,
    /// A Prepare that writes the first key is judged.
    Prepare,
}

impl Call {
    /// The call with this name.
    pub fn read(word: &str) -> Option<Call> {
        match word {
            "insert" => Some(Call::Insert),
            "finalise" => Some(Call::Finalise),
            "has" => Some(Call::Has),
            "newest" => Some(Call::Newest),
            "visible" => Some(Call::Visible),
            "undecided" => Some(Call::Undecided),
            "walk" => Some(Call::Walk),
            "certify" => Some(Call::Certify),
            "prepare" => Some(Call::Prepare),
            _ => None,
        }
    }
}

/// Looks up once, at a snapshot above all versions, and gives the timestamp that was found, or 1 or 0 for there is one or none.
fn look_up(store: &ReplicaStore, call: Call, size: Size, key: KeyId) -> u64 {
    let rs = Ts(LATE);
    let found = match call {
        Call::Has => store.has(first_tx(size.versions.saturating_sub(1)), PART),
        Call::Newest => return store.newest(key).0,
        Call::Visible => return store.visible(key, rs).map_or(0, |version| version.ts.0),
        Call::Undecided => store.undecided(key, rs, true).is_some(),
        Call::Walk => store.walk_from_unsettled(key, rs).newer().is_some(),
        _ => false,
    };
    found as u64
}

/// Looks up many times, and adds up what was found.
pub fn look_up_all(store: &ReplicaStore, call: Call, size: Size, times: u32) -> u64 {
    let mut sum: u64 = 0;
    for _ in 0..times {
        // It is the first key, but that is not known before the run: no look-up can be left out.
        let key = KeyId((sum >> 63) as u32);
        sum = sum.saturating_add(look_up(store, call, size, key));
    }
    sum
}
