//! The numbers of keys and byte strings in the order in which operations name them.
ghost use Rattle.std.specs.Prelude.{◌≡◌, option_to_list};
ghost use Rattle.str_scene.specs.Numbers.{numbers_of, scene_numbers, script_numbers, session_numbers};
ghost use Rattle.str_scene.specs.Refusals.{counts_to};
ghost use Rattle.str_scene.specs.SceneLimits.{counted};

use crate::names::{Op, OpList};
use crate::scenes::SessionText;

/// What operations name by number.
#[derive(Clone, Copy)]
pub(crate) enum Numbered {
    Keys,
    Texts,
}

/// The number of a kind that an operation names.
fn number_in(what: Numbered, op: Op) -> Option<u32>
    ensures { option_to_list result ≡ numbers_of what op }
{
    match (what, op) {
        (Numbered::Keys, Op::Get(k) | Op::Del(k) | Op::Puts(k, _)) => Some(k.0),
        (Numbered::Keys, Op::Put(k, _) | Op::Add(k, _) | Op::Need(k, _)) => Some(k.0),
        (Numbered::Texts, Op::Puts(_, t)) => Some(t.0),
        _ => None,
    }
}

/// How many numbers have been seen with those of an operation.
fn seen_in_op(what: Numbered, seen: u64, op: Op) -> Option<u64>
    ensures { result ≡ counted seen (numbers_of what op) }
{
    let Some(number) = number_in(what, op) else {
        return Some(seen);
    };
    let number = u64::from(number);
    if number < seen {
        return Some(seen);
    }
    if number == seen {
        return Some(number + 1);
    }
    None
}

/// How many numbers have been seen with those of a script.
fn seen_in_script(what: Numbered, start: u64, ops: &[Op]) -> Option<u64>
    ensures { result ≡ counted start (script_numbers what ops.now) }
{
    let mut seen = start;
    for op in ops {
        seen = seen_in_op(what, seen, *op)?;
    }
    Some(seen)
}

/// How many numbers have been seen with those of a session.
fn seen_in_session(what: Numbered, start: u64, txs: &[OpList]) -> Option<u64>
    ensures { result ≡ counted start (session_numbers what txs.now) }
{
    let mut seen = start;
    for ops in txs {
        let Some(next) = seen_in_script(what, seen, ops.as_slice()) else {
            return None;
        };
        seen = next;
    }
    Some(seen)
}

/// How many numbers the sessions name, where they first appear in the order 0, 1, 2 and so on.
pub(crate) fn seen_in_sessions(what: Numbered, sessions: &[SessionText]) -> Option<u64>
    ensures { result ≡ counted 0 (scene_numbers what sessions.now) }
{
    let mut seen = 0;
    for session in sessions {
        let Some(next) = seen_in_session(what, seen, session.txs()) else {
            return None;
        };
        seen = next;
    }
    Some(seen)
}

/// Whether the numbers count to so many.
pub(crate) fn counts_to(count: Option<u64>, n: u64) -> bool
    ensures { result ≡ counts_to count n }
{
    match count {
        None => false,
        Some(m) => m == n,
    }
}
