//! The lines of answers.
ghost use Rattle.std.specs.Prelude.{◌≡◌, ◌++◌, OnErr, OnOk, codes, decimal, flat_map};
ghost use Rattle.str_base.specs.declared.names.Cause.TheVariants.{Conflict};
ghost use Rattle.str_model.specs.declared.messages.Outcome.TheVariants.{Aborted, Committed};
ghost use Rattle.str_model.specs.Lines.{answer_line, cause_spelled, fc_spelled, get_spelled, outcome_spelled, tx_spelled, value_spelled};
ghost use Rattle.str_scene.specs.Keeping.{Keeps};

use std::alloc::AllocError;
use str_base::{Cause, KeyId, NodeId, Ts, TxId, Value, push_i64, push_u64};
use str_model::{Answer, Got, Outcome};
use str_scene::KeyTable;

/// Appends the line of an answer.
/// It fails where memory runs out, and then the bytes stay as they were.
pub fn push_line(answer: &Answer, keys: &KeyTable, out: &mut Vec<u8>) -> Result<(), AllocError>
    ensures ok { OnOk result (out.new.items ≡ out.old.items ++ answer_line keys.now answer.now) }
    ensures err { OnErr result (out.new.items ≡ out.old.items) }
{
    let start = out.len();
    match push_answer(answer, keys, out) {
        Ok(()) => Ok(()),
        Err(error) => {
            out.truncate(start);
            Err(error)
        }
    }
}

/// Appends a piece of a line and a number after it.
#[tactic(auto, using(str_scene::proofs::KeepingLemmas::keeping))]
fn push_field(text: &[u8], n: u64, out: &mut Vec<u8>) -> Result<(), AllocError>
    ensures ok { OnOk result (out.new.items ≡ out.old.items ++ (text.now ++ decimal n)) }
    ensures err { OnErr result (Keeps out.old.items out.new.items) }
{
    out.extend_from_slice(text)?;
    push_u64(out, n)
}

/// Appends a transaction's name.
#[tactic(auto, using(str_scene::proofs::KeepingLemmas::keeping))]
fn push_tx(tx: TxId, out: &mut Vec<u8>) -> Result<(), AllocError>
    ensures ok { OnOk result (out.new.items ≡ out.old.items ++ tx_spelled tx) }
    ensures err { OnErr result (Keeps out.old.items out.new.items) }
{
    push_u64(out, u64::from(tx.node.0))?;
    push_field(b".", u64::from(tx.seq), out)
}

/// Appends a value.
fn push_value(value: Value, keys: &KeyTable, out: &mut Vec<u8>) -> Result<(), AllocError>
    ensures ok { OnOk result (out.new.items ≡ out.old.items ++ value_spelled keys.now value) }
    ensures err { OnErr result (out.new.items ≡ out.old.items) }
{
    match value {
        Value::Absent => out.extend_from_slice(b"none"),
        Value::Num(n) => push_i64(out, n),
        Value::Text(text) => keys.push_text(text, out),
    }
}

/// Appends a get with its value.
#[tactic(auto, using(str_scene::proofs::KeepingLemmas::keeping))]
fn push_get(got: Got, keys: &KeyTable, out: &mut Vec<u8>) -> Result<(), AllocError>
    ensures ok { OnOk result (out.new.items ≡ out.old.items ++ get_spelled keys.now got) }
    ensures err { OnErr result (Keeps out.old.items out.new.items) }
{
    out.extend_from_slice(b" ")?;
    keys.push_key(got.key, out)?;
    out.extend_from_slice(b"=")?;
    push_value(got.value, keys, out)
}

/// Appends the gets, each with its value.
#[tactic(auto, using(str_scene::proofs::KeepingLemmas::keeping))]
fn push_gets(gets: &[Got], keys: &KeyTable, out: &mut Vec<u8>) -> Result<(), AllocError>
    ensures ok { OnOk result (out.new.items ≡ out.old.items ++ flat_map (get_spelled keys.now) gets.now) }
    ensures err { OnErr result (Keeps out.old.items out.new.items) }
{
    for got in gets {
        push_get(*got, keys, out)?;
    }
    Ok(())
}

/// Appends a final timestamp, a minus where there is none.
fn push_fc(fc: Option<Ts>, out: &mut Vec<u8>) -> Result<(), AllocError>
    ensures ok { OnOk result (out.new.items ≡ out.old.items ++ fc_spelled fc) }
    ensures err { OnErr result (out.new.items ≡ out.old.items) }
{
    match fc {
        None => out.extend_from_slice(b"-"),
        Some(ts) => push_u64(out, ts.0),
    }
}

/// Appends that another transaction wrote the same key.
#[tactic(auto, using(str_scene::proofs::KeepingLemmas::keeping))]
fn push_conflict(
    by: TxId,
    key: KeyId,
    node: NodeId,
    keys: &KeyTable,
    out: &mut Vec<u8>,
) -> Result<(), AllocError>
    ensures ok { OnOk result (out.new.items ≡ out.old.items ++ cause_spelled keys.now (Conflict by key node)) }
    ensures err { OnErr result (Keeps out.old.items out.new.items) }
{
    out.extend_from_slice(b"conflict ")?;
    push_tx(by, out)?;
    out.extend_from_slice(b" ")?;
    keys.push_key(key, out)?;
    push_field(b" at=", u64::from(node.0), out)?;
    Ok(())
}

/// Appends that a dependency committed too late.
#[tactic(auto, using(str_scene::proofs::KeepingLemmas::keeping))]
fn push_late(by: TxId, fc: Ts, out: &mut Vec<u8>) -> Result<(), AllocError>
    ensures ok { OnOk result (out.new.items ≡ out.old.items
        ++ (codes "late " ++ tx_spelled by ++ codes " fc=" ++ decimal fc.0)) }
    ensures err { OnErr result (Keeps out.old.items out.new.items) }
{
    out.extend_from_slice(b"late ")?;
    push_tx(by, out)?;
    push_field(b" fc=", fc.0, out)?;
    Ok(())
}

/// Appends why a transaction aborted.
#[tactic(auto, using(str_scene::proofs::KeepingLemmas::keeping))]
fn push_cause(cause: Cause, keys: &KeyTable, out: &mut Vec<u8>) -> Result<(), AllocError>
    ensures ok { OnOk result (out.new.items ≡ out.old.items ++ cause_spelled keys.now cause) }
    ensures err { OnErr result (Keeps out.old.items out.new.items) }
{
    match cause {
        Cause::Conflict { by, key, node } => push_conflict(by, key, node, keys, out),
        Cause::Lost { by } => {
            out.extend_from_slice(b"lost ")?;
            push_tx(by, out)
        }
        Cause::Late { by, fc } => push_late(by, fc, out),
        Cause::Wish => out.extend_from_slice(b"wish"),
    }
}

/// Appends that a transaction committed, with what its gets gave.
#[tactic(auto, using(str_scene::proofs::KeepingLemmas::keeping))]
fn push_commit(
    rs: Ts,
    fc: Option<Ts>,
    gets: &[Got],
    keys: &KeyTable,
    out: &mut Vec<u8>,
) -> Result<(), AllocError>
    ensures ok { OnOk result (out.new.items ≡ out.old.items ++ outcome_spelled keys.now rs (Committed fc gets.now)) }
    ensures err { OnErr result (Keeps out.old.items out.new.items) }
{
    push_field(b" commit rs=", rs.0, out)?;
    out.extend_from_slice(b" fc=")?;
    push_fc(fc, out)?;
    push_gets(gets, keys, out)?;
    Ok(())
}

/// Appends that a transaction aborted, and why.
#[tactic(auto, using(str_scene::proofs::KeepingLemmas::keeping))]
fn push_abort(rs: Ts, cause: Cause, keys: &KeyTable, out: &mut Vec<u8>) -> Result<(), AllocError>
    ensures ok { OnOk result (out.new.items ≡ out.old.items ++ outcome_spelled keys.now rs (Aborted cause)) }
    ensures err { OnErr result (Keeps out.old.items out.new.items) }
{
    push_field(b" abort rs=", rs.0, out)?;
    out.extend_from_slice(b" ")?;
    push_cause(cause, keys, out)?;
    Ok(())
}

/// Appends how a transaction ended.
fn push_outcome(
    rs: Ts,
    outcome: &Outcome,
    keys: &KeyTable,
    out: &mut Vec<u8>,
) -> Result<(), AllocError>
    ensures ok { OnOk result (out.new.items ≡ out.old.items ++ outcome_spelled keys.now rs outcome.now) }
    ensures err { OnErr result (Keeps out.old.items out.new.items) }
{
    match outcome {
        Outcome::Committed { fc, gets } => push_commit(rs, *fc, gets.as_slice(), keys, out),
        Outcome::Aborted { cause } => push_abort(rs, *cause, keys, out),
    }
}

/// Appends the line of an answer. What was there stays, also where it fails.
#[tactic(auto, using(str_scene::proofs::KeepingLemmas::keeping))]
fn push_answer(answer: &Answer, keys: &KeyTable, out: &mut Vec<u8>) -> Result<(), AllocError>
    ensures ok { OnOk result (out.new.items ≡ out.old.items ++ answer_line keys.now answer.now) }
    ensures err { OnErr result (Keeps out.old.items out.new.items) }
{
    push_tx(answer.tx, out)?;
    push_field(b" s", u64::from(answer.place.session.0), out)?;
    push_field(b"/", u64::from(answer.place.index), out)?;
    push_outcome(answer.rs, &answer.outcome, keys, out)?;
    out.extend_from_slice(b"\n")
}

#[cfg(test)]
mod tests {
    use super::*;
    use crate::held::HeldAnswer;
    use std::test::Fail;
    use str_base::{SessionId, TextId};
    use str_model::Gets;
    use str_scene::TxPlace;

    fn tx(node: u8, seq: u32) -> TxId {
        TxId {
            node: NodeId(node),
            seq,
        }
    }

    fn answer(seq: u32, outcome: Outcome) -> Answer {
        let session = SessionId(7);
        Answer {
            tx: tx(1, seq),
            place: TxPlace { session, index: 12 },
            rs: Ts(10),
            outcome,
        }
    }

    fn aborted(seq: u32, cause: Cause) -> Answer {
        answer(seq, Outcome::Aborted { cause })
    }

    fn committed(seq: u32, fc: Option<Ts>, values: &[Value]) -> Answer {
        let mut gets = Gets::new();
        for value in values {
            if gets.len() < 16 {
                gets.push(Got {
                    key: KeyId(0),
                    value: *value,
                });
            }
        }
        answer(seq, Outcome::Committed { fc, gets })
    }

    // The table has no keys and no byte strings, so these are written as nothing.
    #[test]
    fn writes_answers(rt: HostRuntime) -> Result<(), Fail> {
        let keys = KeyTable::new(rt.alloc());
        let values = [
            Value::Absent,
            Value::Num(5),
            Value::Num(-31),
            Value::Text(TextId(0)),
        ];
        let by = tx(2, 30);
        let key = KeyId(0);
        let node = NodeId(3);
        let answers = [
            committed(1, Some(Ts(11)), &values),
            committed(2, None, &[]),
            aborted(3, Cause::Conflict { by, key, node }),
            aborted(4, Cause::Lost { by }),
            aborted(5, Cause::Late { by, fc: Ts(101) }),
            aborted(6, Cause::Wish),
        ];
        let mut out = Vec::new(rt.alloc());
        for answer in &answers {
            push_line(answer, &keys, &mut out)?;
        }
        let want = "1.1 s7/12 commit rs=10 fc=11 =none =5 =-31 =\n\
            1.2 s7/12 commit rs=10 fc=-\n\
            1.3 s7/12 abort rs=10 conflict 2.30  at=3\n\
            1.4 s7/12 abort rs=10 lost 2.30\n\
            1.5 s7/12 abort rs=10 late 2.30 fc=101\n\
            1.6 s7/12 abort rs=10 wish\n";
        assert_eq!(rt; out.as_slice(), want.as_bytes());
        Ok(())
    }

    #[test]
    fn writes_held_answers(rt: HostRuntime) -> Result<(), Fail> {
        let keys = KeyTable::new(rt.alloc());
        let session = SessionId(2);
        let place = TxPlace { session, index: 3 };
        let mut held = HeldAnswer::new(tx(4, 5), place, Ts(60));
        held.note(KeyId(0), Value::Num(8));
        held.note(KeyId(0), Value::Absent);
        let mut out = Vec::new(rt.alloc());
        push_line(&held.commit(Some(Ts(70))), &keys, &mut out)?;
        let held = HeldAnswer::new(tx(4, 6), place, Ts(61));
        push_line(&held.abort(Cause::Lost { by: tx(4, 5) }), &keys, &mut out)?;
        let want = "4.5 s2/3 commit rs=60 fc=70 =8 =none\n\
            4.6 s2/3 abort rs=61 lost 4.5\n";
        assert_eq!(rt; out.as_slice(), want.as_bytes());
        Ok(())
    }
}
