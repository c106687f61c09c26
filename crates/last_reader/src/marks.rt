//! Marks of keys.
ghost use Rattle.std.specs.Prelude.{◌≡◌, ◌<◌, IfOk, length, replicate};
ghost use Rattle.str_base.specs.Versions.{mark_of, raised};

use std::alloc::{AllocError, Global};
use std::marker::{Model, Send, Sync};
use str_base::{KeyId, Ts};

/// The marks of keys, which are numbered from 0. They are seen as the list of their timestamps, as many as keys.
#[derive(Drop)]
pub struct Marks {
    times: Vec<u64>,
}

impl Model for Marks {
    ghost use Rattle.std.specs.Prelude.{List, ℕ};

    ghost Value = { List ℕ };

    ghost view = { λ m. m.times.items };
}

impl Marks {
    /// The marks of this many keys, each 0.
    pub fn new(alloc: Global, keys: usize) -> Result<Marks, AllocError>
        ensures marks { IfOk result (λ m. m ≡ replicate keys 0) }
        ensures len { IfOk result (λ m. length m ≡ keys) }
    {
        let mut times = Vec::new(alloc);
        times.resize(keys, 0)?;
        Ok(Marks { times })
    }

    /// The mark of a key.
    pub fn mark(&self, key: KeyId) -> Ts
        requires { key.0 < length self.now }
        ensures { result.0 ≡ mark_of self.now key }
    {
        Ts(self.times[key.0 as usize])
    }

    /// Raises the mark of a key to `ts`. A greater one stays.
    pub fn raise(&mut self, key: KeyId, ts: Ts)
        requires { key.0 < length self.old }
        ensures marks { self.new ≡ raised self.old key ts.0 }
        ensures len { length self.new ≡ length self.old }
    {
        let k = key.0 as usize;
        self.times[k] = self.times[k].max(ts.0);
    }
}

fn sendable<T: Send + Sync>(_: &T) {}

fn all_sendable(marks: &Marks) {
    sendable(marks);
}

#[cfg(test)]
mod tests {
    use super::*;
    use std::test::Fail;

    #[test]
    fn marks_only_rise(rt: HostRuntime) -> Result<(), Fail> {
        let mut marks = Marks::new(rt.alloc(), 3)?;
        marks.raise(KeyId(1), Ts(5));
        marks.raise(KeyId(1), Ts(3));
        assert_eq!(rt; marks.mark(KeyId(1)), Ts(5));
        marks.raise(KeyId(1), Ts(7));
        assert_eq!(rt; marks.mark(KeyId(1)), Ts(7));
        assert_eq!(rt; marks.mark(KeyId(2)), Ts(0));
        Ok(())
    }
}
