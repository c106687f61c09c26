//! How far a script has come, and its next turn.
ghost use Rattle.std.specs.Prelude.{◌≡◌, ◌+◌, ◌<◌, ◌≤◌, find, length};
ghost use Rattle.str_base.specs.Values.{is_below, number_or_zero, set_write, sum_with};
ghost use Rattle.str_base.specs.Versions.{same_key};
ghost use Rattle.str_model.specs.NodeFacts.{AreDistinct};
ghost use Rattle.str_model.specs.Scripts.{found_read, found_write};
ghost use Rattle.tx_script.specs.declared.turns.Turn.TheVariants.{Moved};
ghost use Rattle.tx_script.specs.Turns.{add_turn, fresh, get_turn, given, known, moved, need_turn, op_turn, turn_of, wrote};

use crate::turns::Turn;
use std::marker::{Model, Send, Sync};
use str_base::{KeyId, ShortList, TxId, Value, Write, Writes};
use str_model::ReadDone;
use str_scene::{Op, OpList};

/// The reads of a transaction in order.
pub type Reads = ShortList<ReadDone, 16>;

/// How far the script of a transaction has come: the number of operations that are done, its writes in order of first
/// write, and its reads in order. It keeps that each key is written once, and that there are no more writes than operations
/// that are done.
#[derive(Drop)]
pub struct ScriptRun {
    next: u8,
    writes: Writes,
    reads: Reads,
}

impl Model for ScriptRun {
    ghost use Rattle.std.specs.Prelude.{◌≤◌, length};
    ghost use Rattle.str_model.specs.NodeFacts.{AreDistinct};
    ghost use Rattle.tx_script.specs.Turns.{ScriptRun as Run};

    ghost Value = { Run };

    ghost view = { λ s. record { next = s.next; writes = s.writes; reads = s.reads } };

    ghost invariant = { λ s. (length s.writes ≤ s.next) × AreDistinct s.writes };
}

impl ScriptRun {
    /// A script at its start.
    pub fn new() -> ScriptRun
        ensures { result ≡ fresh }
    {
        ScriptRun {
            next: 0,
            writes: Writes::new(),
            reads: Reads::new(),
        }
    }

    /// An equal one.
    pub fn copy(&self) -> ScriptRun
        ensures { result ≡ self.now }
    {
        ScriptRun {
            next: self.next,
            writes: self.writes.copy(),
            reads: self.reads.copy(),
        }
    }

    /// The number of operations that are done.
    pub fn next(&self) -> u8
        ensures { result ≡ self.now.next }
    {
        self.next
    }

    /// The writes in order of first write, each key once.
    pub fn writes(&self) -> &Writes
        ensures value { result.now ≡ self.now.writes }
        ensures few { length self.now.writes ≤ self.now.next }
        ensures once { AreDistinct self.now.writes }
    {
        &self.writes
    }

    /// The reads in order.
    pub fn reads(&self) -> &[ReadDone]
        ensures { result.now ≡ self.now.reads }
    {
        self.reads.as_slice()
    }

    /// Does the next operation of a script.
    pub fn turn(&mut self, ops: &OpList) -> Turn
        ensures turn { result ≡ (turn_of ops.now self.old).turn }
        ensures run { self.new ≡ (turn_of ops.now self.old).run }
    {
        let ops = ops.as_slice();
        let next = self.next as usize;
        if next < ops.len() {
            return self.operate(ops[next]);
        }
        Turn::End
    }

    /// Keeps the value of a read, and who wrote it. A key that was read already keeps the value of its first read.
    pub fn give(&mut self, key: KeyId, value: Value, by: Option<TxId>)
        requires { length self.old.reads < 16 }
        ensures { self.new ≡ given key value by self.old }
    {
        self.reads.push(ReadDone { key, value, by });
    }

    /// Does an operation.
    fn operate(&mut self, op: Op) -> Turn
        requires { self.old.next < 16 }
        ensures turn { result ≡ (op_turn op self.old).turn }
        ensures run { self.new ≡ (op_turn op self.old).run }
    {
        match op {
            Op::Get(key) => self.get(key),
            Op::Put(key, number) => self.write(key, Value::Num(number)),
            Op::Puts(key, text) => self.write(key, Value::Text(text)),
            Op::Add(key, number) => self.add(key, number),
            Op::Del(key) => self.write(key, Value::Absent),
            Op::Need(key, number) => self.need(key, number),
            Op::Abort => Turn::Wished,
        }
    }

    /// Does a get.
    fn get(&mut self, key: KeyId) -> Turn
        requires { self.old.next < 16 }
        ensures turn { result ≡ (get_turn key (known self.old key) self.old).turn }
        ensures run { self.new ≡ (get_turn key (known self.old key) self.old).run }
    {
        match self.known(key) {
            None => Turn::Ask { key },
            Some(value) => {
                self.next += 1;
                Turn::Got { key, value }
            }
        }
    }

    /// Does an addition.
    fn add(&mut self, key: KeyId, number: i64) -> Turn
        requires { self.old.next < 16 }
        ensures turn { result ≡ (add_turn key number (known self.old key) self.old).turn }
        ensures run { self.new ≡ (add_turn key number (known self.old key) self.old).run }
    {
        match self.known(key) {
            None => Turn::Ask { key },
            Some(value) => self.write(key, sum(value, number)),
        }
    }

    /// Does a need.
    fn need(&mut self, key: KeyId, number: i64) -> Turn
        requires { self.old.next < 16 }
        ensures turn { result ≡ (need_turn key number (known self.old key) self.old).turn }
        ensures run { self.new ≡ (need_turn key number (known self.old key) self.old).run }
    {
        match self.known(key) {
            None => Turn::Ask { key },
            Some(value) => {
                if is_below(value, number) {
                    return Turn::Unmet;
                }
                self.next += 1;
                Turn::Moved
            }
        }
    }

    /// Sets a key in the write buffer.
    fn write(&mut self, key: KeyId, value: Value) -> Turn
        requires { self.old.next < 16 }
        ensures turn { result ≡ Moved }
        ensures run { self.new ≡ wrote key value self.old }
    {
        self.writes = with_write(&self.writes, Write { key, value });
        self.next += 1;
        Turn::Moved
    }

    /// What the transaction knows of a key: what it wrote, else what it has read.
    fn known(&self, key: KeyId) -> Option<Value>
        ensures { result ≡ known self.now key }
    {
        match written(&self.writes, key) {
            Some(value) => Some(value),
            None => read(&self.reads, key),
        }
    }
}

/// The value of a write of the key.
fn written(writes: &Writes, key: KeyId) -> Option<Value>
    ensures { result ≡ found_write (find (λ w. same_key w.key key) writes.now) }
{
    for write in writes.as_slice() {
        if write.key == key {
            return Some(write.value);
        }
    }
    None
}

/// The value of a read of the key.
fn read(reads: &Reads, key: KeyId) -> Option<Value>
    ensures { result ≡ found_read (find (λ r. same_key r.key key) reads.now) }
{
    for done in reads.as_slice() {
        if done.key == key {
            return Some(done.value);
        }
    }
    None
}

/// The writes with one more, in the place of an earlier write of its key.
#[tactic(auto, using(crate::proofs::Written::set_write_length))]
fn with_write(writes: &Writes, write: Write) -> Writes
    requires { length writes.now < 16 }
    ensures list { result ≡ set_write write writes.now }
    ensures more { length result ≤ length writes.now + 1 }
{
    let mut list = Writes::new();
    let mut is_missing = true;
    for earlier in writes.as_slice() {
        if is_missing && earlier.key == write.key {
            is_missing = false;
            list.push(write);
        } else {
            list.push(*earlier);
        }
    }
    if is_missing {
        list.push(write);
    }
    list
}

/// The number that a value stands for: a missing value and a byte string stand for 0.
fn number_of(value: Value) -> i64
    ensures { result ≡ number_or_zero value }
{
    match value {
        Value::Num(number) => number,
        Value::Absent | Value::Text(_) => 0,
    }
}

/// The sum of a value and a number, wrapped to 64 bits.
fn sum(value: Value, number: i64) -> Value
    ensures { result ≡ sum_with value number }
{
    Value::Num(number_of(value).wrapping_add(number))
}

/// Whether a value does not reach a number.
fn is_below(value: Value, number: i64) -> bool
    ensures { result ≡ is_below value number }
{
    number_of(value) < number
}

fn sendable<T: Send + Sync>(_: &T) {}

fn all_sendable(run: &ScriptRun) {
    sendable(run);
}

#[cfg(test)]
mod tests {
    use super::*;
    use std::test::Fail;
    use str_base::TextId;

    fn script(list: &[Op]) -> OpList {
        let mut ops = OpList::new();
        for op in list {
            if ops.len() < 16 {
                ops.push(*op);
            }
        }
        ops
    }

    fn give(run: &mut ScriptRun, key: KeyId, value: Value) {
        if run.reads().len() < 16 {
            run.give(key, value, None);
        }
    }

    #[test]
    fn does_every_operation(rt: HostRuntime) -> Result<(), Fail> {
        let [a, b, c] = [KeyId(0), KeyId(1), KeyId(2)];
        let text = TextId(7);
        let ops = script(&[
            Op::Get(a),
            Op::Add(a, -1),
            Op::Put(b, 3),
            Op::Puts(c, text),
            Op::Get(b),
            Op::Del(b),
            Op::Get(c),
            Op::Add(c, 2),
            Op::Need(a, 4),
            Op::Need(a, 5),
            Op::Put(a, 9),
        ]);
        let mut run = ScriptRun::new();
        assert_eq!(rt; run.turn(&ops), Turn::Ask { key: a });
        give(&mut run, a, Value::Num(5));
        let turns = [
            Turn::Got {
                key: a,
                value: Value::Num(5),
            },
            Turn::Moved,
            Turn::Moved,
            Turn::Moved,
            Turn::Got {
                key: b,
                value: Value::Num(3),
            },
            Turn::Moved,
            Turn::Got {
                key: c,
                value: Value::Text(text),
            },
            Turn::Moved,
            Turn::Moved,
            Turn::Unmet,
            Turn::Unmet,
        ];
        for want in turns {
            assert_eq!(rt; run.turn(&ops), want);
        }
        assert_eq!(rt; run.next(), 9);
        let want = [
            Write {
                key: a,
                value: Value::Num(4),
            },
            Write {
                key: b,
                value: Value::Absent,
            },
            Write {
                key: c,
                value: Value::Num(2),
            },
        ];
        assert_eq!(rt; run.copy().writes().as_slice(), want.as_slice());
        let want = [ReadDone {
            key: a,
            value: Value::Num(5),
            by: None::<TxId>,
        }];
        assert_eq!(rt; run.reads(), want.as_slice());
        Ok(())
    }

    #[test]
    fn wraps_stops_and_ends(rt: HostRuntime) -> Result<(), Fail> {
        let a = KeyId(0);
        let ops = script(&[Op::Put(a, i64::MAX), Op::Add(a, 1), Op::Get(a), Op::Abort]);
        let mut run = ScriptRun::new();
        let turns = [
            Turn::Moved,
            Turn::Moved,
            Turn::Got {
                key: a,
                value: Value::Num(i64::MIN),
            },
            Turn::Wished,
            Turn::Wished,
        ];
        for want in turns {
            assert_eq!(rt; run.turn(&ops), want);
        }
        assert_eq!(rt; run.next(), 3);
        assert_eq!(rt; ScriptRun::new().turn(&script(&[])), Turn::End);
        Ok(())
    }
}
