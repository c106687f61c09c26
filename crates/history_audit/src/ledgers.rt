//! The values of each key in the order of the commits that gave them, so that a snapshot is looked up.
ghost use Rattle.history_audit.specs.Ledgers.{IsRisingChain, IsRisingLedger, chain_at, last_below, look_in, with_entries, with_entry};
ghost use Rattle.str_base.specs.declared.names.KeyId.{KeyId};
ghost use Rattle.std.specs.Prelude.{IfOk, List, OnOk, Some, [], length, slice_get, ℕ, ◌++◌, ◌∷◌, ◌≡◌, ◌<◌};
ghost use Rattle.history_audit.specs.declared.ledgers.Stamped.{Stamped};

use std::alloc::{AllocError, Global};
use std::marker::Model;
use str_base::{KeyId, Ts, Value, Write, Writes};

/// A value, with the final timestamp of the commit that gave it.
#[derive(Drop)]
pub struct Stamped {
    pub fc: Ts,
    pub value: Value,
}

/// The values of a key, whose timestamps do not fall.
#[derive(Drop)]
struct Chain {
    values: Vec<Stamped>,
}

impl Model for Chain {
    ghost use Rattle.history_audit.specs.declared.ledgers.Stamped.{Stamped};
    ghost use Rattle.std.specs.Prelude.{List};

    ghost Value = { List Stamped };

    ghost view = { λ c. c.values.items };
}

impl Chain {
    fn new(alloc: Global) -> Chain
        ensures { result ≡ [] }
    {
        Chain {
            values: Vec::new(alloc),
        }
    }

    fn push(&mut self, value: Stamped) -> Result<(), AllocError>
        ensures { OnOk result (self.new ≡ self.old ++ value ∷ []) }
    {
        self.values.push(value)?;
        Ok(())
    }

    fn clear(&mut self)
        ensures { self.new ≡ [] }
    {
        self.values.clear();
    }

    /// The last value at or below a timestamp.
    fn last_below(&self, rs: Ts) -> Value
        requires { IsRisingChain self.now }
        ensures { result ≡ last_below self.now rs.0 }
    {
        value_below(self.values.as_slice(), rs)
    }
}

/// The last of these values at or below a timestamp. It is found by halving.
fn value_below(values: &[Stamped], rs: Ts) -> Value
    requires { IsRisingChain values.now }
    ensures { result ≡ last_below values.now rs.0 }
{
    let below = values.partition_point(|s| s.fc.0 <= rs.0);
    if below == 0 {
        return Value::Absent;
    }
    values[below - 1].value
}

/// Takes the values of each key out.
fn clear_all(chains: &mut [Chain])
    ensures { (k : ℕ) (chain : List Stamped) → slice_get chains.new k ≡ Some chain → chain ≡ [] }
{
    for chain in chains.iter_mut() {
        chain.clear();
    }
}

/// The values of each key, by the key's number.
#[derive(Drop)]
pub struct Ledger {
    chains: Vec<Chain>,
}

impl Model for Ledger {
    ghost use Rattle.history_audit.specs.declared.ledgers.Stamped.{Stamped};
    ghost use Rattle.std.specs.Prelude.{List};

    ghost Value = { List (List Stamped) };

    ghost view = { λ l. l.chains.items };
}

impl Ledger {
    /// No value of any of so many keys.
    pub fn new(alloc: Global, keys: u32) -> Result<Ledger, AllocError>
        ensures { IfOk result (λ l. length l ≡ keys) }
    {
        let mut chains = Vec::new(alloc);
        for _key in 0..keys {
            chains.push(Chain::new(alloc))?;
        }
        Ok(Ledger { chains })
    }

    /// Takes all values out.
    pub fn clear(&mut self)
        ensures keys { length self.new ≡ length self.old }
        ensures none { (k : KeyId) → chain_at self.new k ≡ [] }
    {
        clear_all(self.chains.as_mut_slice());
    }

    /// The value of a key at a timestamp.
    pub fn look(&self, key: KeyId, rs: Ts) -> Value
        requires { IsRisingLedger self.now }
        ensures { result ≡ look_in self.now rs.0 key }
    {
        match self.chains.get(key.0 as usize) {
            Some(chain) => chain.last_below(rs),
            None => Value::Absent,
        }
    }

    /// One more value.
    fn push_write(&mut self, fc: Ts, write: &Write) -> Result<(), AllocError>
        ensures keys { length self.new ≡ length self.old }
        ensures list { OnOk result (self.new ≡ with_entry fc write.now self.old) }
    {
        let place = write.key.0 as usize;
        if place < self.chains.len() {
            let value = Stamped {
                fc,
                value: write.value,
            };
            self.chains[place].push(value)?;
        }
        Ok(())
    }

    /// The values that a commit gave.
    pub fn push(&mut self, fc: Ts, writes: &Writes) -> Result<(), AllocError>
        ensures keys { length self.new ≡ length self.old }
        ensures list { OnOk result (self.new ≡ with_entries fc writes.now self.old) }
    {
        for write in writes.as_slice() {
            self.push_write(fc, write)?;
        }
        Ok(())
    }
}
