//! The lists of an arena after each of its calls.
ghost use Rattle.std.specs.Prelude.{◌≡◌, not};
ghost use Rattle.link_arena.specs.Arenas.{AreLists, key_list, number_of};
ghost use Rattle.link_arena.specs.Rows.{IsPlace, is_at};

use crate::{Arena, Slot};
use std::alloc::AllocError;
use std::test::Fail;
use str_base::{KeyId, Kind, NodeId, PartId, Ts, TxId, Value, Version};

/// A call. A slot is named by its place in the list of its key, counted from 0, and a place past the end is the end.
#[derive(Clone, Copy)]
enum Call {
    Insert {
        version: Version,
        before: usize,
    },
    Relink {
        key: KeyId,
        place: usize,
        before: usize,
    },
    Unlink {
        key: KeyId,
        place: usize,
    },
    Set {
        key: KeyId,
        place: usize,
        ts: u64,
    },
}

/// The place past the end.
const END: usize = 9;

/// A call, and the timestamps in the lists of two keys and two transactions after it.
#[derive(Clone, Copy)]
struct Row {
    call: Call,
    keys: [&'static [u64]; 2],
    txs: [&'static [u64]; 2],
}

fn tx(seq: u32) -> TxId {
    TxId {
        node: NodeId(1),
        seq,
    }
}

fn version(key: u32, seq: u32, ts: u64) -> Version {
    Version {
        key: KeyId(key),
        part: PartId(1),
        tx: tx(seq),
        ts: Ts(ts),
        value: Value::Num(7),
        kind: Kind::Pre,
    }
}

/// The slot at a place of the list of a key.
fn slot_at(arena: &Arena, key: KeyId, place: usize) -> Option<Slot>
    ensures place { IsPlace (number_of result) (key_list arena.now key) }
    ensures lists { AreLists arena.now }
{
    let mut slot = arena.first_of_key(key);
    'places: for _i in 0..place {
        slot = arena.next_in_key(slot?);
    }
    slot
}

/// Whether a place is not that of the slot itself.
fn is_apart(before: Option<Slot>, slot: Slot) -> bool
    ensures { result ≡ not (is_at (number_of before) slot.0) }
{
    match before {
        Some(before) => before.0 != slot.0,
        None => true,
    }
}

fn make(arena: &mut Arena, call: Call) -> Result<(), AllocError> {
    match call {
        Call::Insert { version, before } => {
            arena.reserve(1)?;
            let before = slot_at(arena, version.key, before);
            arena.insert(version, before);
        }
        Call::Relink { key, place, before } => {
            let before = slot_at(arena, key, before);
            if let Some(slot) = slot_at(arena, key, place) {
                if is_apart(before, slot) {
                    arena.relink(slot, before);
                }
            }
        }
        Call::Unlink { key, place } => {
            if let Some(slot) = slot_at(arena, key, place) {
                arena.unlink(slot);
            }
        }
        Call::Set { key, place, ts } => {
            if let Some(slot) = slot_at(arena, key, place) {
                arena.set(slot, Ts(ts), Kind::Final);
            }
        }
    }
    Ok(())
}

/// Whether these are the timestamps in the list of a key, read both ways.
fn is_key_list(arena: &Arena, key: KeyId, times: &[u64]) -> bool {
    let mut slot = arena.first_of_key(key);
    let mut before = None;
    'slots: for time in times {
        let Some(here) = slot else {
            return false;
        };
        if arena.get(here).ts.0 != *time || arena.before_in_key(here) != before {
            return false;
        }
        before = slot;
        slot = arena.next_in_key(here);
    }
    slot.is_none() && arena.last_of_key(key) == before
}

/// Whether these are the timestamps in the list of a transaction.
fn is_tx_list(arena: &Arena, tx: TxId, times: &[u64]) -> bool {
    let mut slot = arena.first_of_tx(tx);
    'slots: for time in times {
        let Some(here) = slot else {
            return false;
        };
        if arena.get(here).ts.0 != *time {
            return false;
        }
        slot = arena.next_in_tx(here);
    }
    slot.is_none()
}

/// Versions A and B of a key by two transactions and C of another key by the first of these, and D besides. A is the last to go.
fn rows() -> [Row; 9] {
    let a = version(1, 1, 20);
    let b = version(1, 2, 30);
    let c = version(2, 1, 40);
    let d = version(2, 2, 10);
    [
        Row {
            call: Call::Insert {
                version: a,
                before: END,
            },
            keys: [&[20], &[]],
            txs: [&[20], &[]],
        },
        Row {
            call: Call::Insert {
                version: b,
                before: END,
            },
            keys: [&[20, 30], &[]],
            txs: [&[20], &[30]],
        },
        Row {
            call: Call::Insert {
                version: c,
                before: END,
            },
            keys: [&[20, 30], &[40]],
            txs: [&[20, 40], &[30]],
        },
        Row {
            call: Call::Insert {
                version: d,
                before: 0,
            },
            keys: [&[20, 30], &[10, 40]],
            txs: [&[20, 40], &[30, 10]],
        },
        Row {
            call: Call::Relink {
                key: KeyId(1),
                place: 0,
                before: END,
            },
            keys: [&[30, 20], &[10, 40]],
            txs: [&[20, 40], &[30, 10]],
        },
        Row {
            call: Call::Relink {
                key: KeyId(1),
                place: 1,
                before: 0,
            },
            keys: [&[20, 30], &[10, 40]],
            txs: [&[20, 40], &[30, 10]],
        },
        Row {
            call: Call::Set {
                key: KeyId(2),
                place: 0,
                ts: 50,
            },
            keys: [&[20, 30], &[50, 40]],
            txs: [&[20, 40], &[30, 50]],
        },
        Row {
            call: Call::Unlink {
                key: KeyId(2),
                place: 0,
            },
            keys: [&[20, 30], &[40]],
            txs: [&[20, 40], &[30]],
        },
        Row {
            call: Call::Unlink {
                key: KeyId(1),
                place: 0,
            },
            keys: [&[30], &[40]],
            txs: [&[40], &[30]],
        },
    ]
}

#[test]
fn each_call_keeps_both_kinds_of_lists(rt: HostRuntime) -> Result<(), Fail> {
    let mut arena = Arena::new(rt.alloc());
    for (i, row) in rows().iter().enumerate() {
        make(&mut arena, row.call)?;
        for (key, times) in [(1, row.keys[0]), (2, row.keys[1])] {
            assert!(rt;
                is_key_list(&arena, KeyId(key), times),
                "key {key} after call {i}"
            );
        }
        for (seq, times) in [(1, row.txs[0]), (2, row.txs[1])] {
            assert!(rt;
                is_tx_list(&arena, tx(seq), times),
                "transaction {seq} after call {i}"
            );
        }
    }
    assert_eq!(rt; arena.first_of_tx(tx(1)), arena.first_of_key(KeyId(2)));
    Ok(())
}

#[test]
fn a_slot_from_first_to_last(rt: HostRuntime) -> Result<(), Fail> {
    let mut arena = Arena::new(rt.alloc());
    arena.reserve(2)?;
    let first = arena.insert(version(5, 1, 20), None);
    let last = arena.insert(version(5, 2, 30), None);
    assert_eq!(rt; arena.first_of_key(KeyId(5)), Some(first));
    assert_eq!(rt; arena.last_of_key(KeyId(5)), Some(last));
    assert_eq!(rt; arena.first_of_tx(tx(2)), Some(last));
    assert_eq!(rt; arena.first_of_key(KeyId(4)), None);
    assert_eq!(rt; arena.before_in_key(last), Some(first));
    assert_eq!(rt; arena.next_in_key(last), None);
    assert_eq!(rt; arena.unlink(last), version(5, 2, 30));
    assert_eq!(rt; arena.last_of_key(KeyId(5)), Some(first));
    Ok(())
}
