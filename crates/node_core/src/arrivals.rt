//! The rules of messages that come to a replica: a read request, a Prepare, a Replicate.
ghost use Rattle.node_core.specs.Arriving.{AreEvicted, IsNamed, is_new_read};
ghost use Rattle.node_core.specs.Working.{Did, Fits, FitsRule, HasFacts, Ruled};
ghost use Rattle.replica_apply.specs.Slaves.{evict_all};
ghost use Rattle.std.specs.Prelude.{◌≡◌, true};
ghost use Rattle.str_model.specs.Arrivals.{prepare_rule, read_req, replicate_rule};
ghost use Rattle.str_model.specs.Strange.{has_key};

use crate::work::Work;
use prepare_master::MasterTurn;
use replica_apply::{Evicted, SlaveTurn};
use snapshot_read::ServeTurn;
use str_base::{Cause, KeyId, ShortList, Ts, TxId};
use str_model::{Arrived, Waiter};

impl Work {
    /// A read request comes. False exactly where it is idle; then nothing changes.
    pub(crate) fn read_request(&mut self, tx: TxId, key: KeyId, rs: Ts) -> bool
        requires facts { HasFacts self.old }
        requires key { has_key self.old.here key ≡ true }
        requires fits { FitsRule self.old (read_req self.old.here tx key rs.0 self.old.doing) }
        ensures { Ruled (read_req self.old.here tx key rs.0 self.old.doing) result self.old self.new }
    {
        if !self.is_new_read(tx, key) {
            return false;
        }
        let turn = self.serve_turn(key, rs);
        self.mark(key, rs);
        match turn {
            ServeTurn::Give { value, by, fc } => self.reply(tx, key, value, by, fc),
            ServeTurn::Wait { .. } => self.wait(Waiter::Read { tx, key, rs }),
        }
        true
    }

    /// Whether a read request is of another node, for a key that this node has, and does not wait here.
    fn is_new_read(&self, tx: TxId, key: KeyId) -> bool
        requires { has_key self.now.here key ≡ true }
        ensures { result ≡ is_new_read self.now tx key }
    {
        self.hosts_key(key) && tx.node != self.site().id() && !self.has_read(tx, key)
    }

    /// A Prepare comes. False exactly where it is idle; then nothing changes.
    pub(crate) fn prepare(&mut self, a: Arrived) -> bool
        requires facts { HasFacts self.old }
        requires named { IsNamed self.old a }
        requires fits { FitsRule self.old (prepare_rule self.old.here a self.old.doing) }
        ensures { Ruled (prepare_rule self.old.here a self.old.doing) result self.old self.new }
    {
        match self.prepare_turn(&a) {
            MasterTurn::Accept { ts } => self.accept(&a, ts),
            MasterTurn::Refuse { by, key } => self.refuse(&a, by, key),
            MasterTurn::Park { .. } => self.wait(Waiter::Held(a)),
            MasterTurn::Ignore => return false,
        }
        true
    }

    /// A Replicate comes. False exactly where it is idle; then nothing changes.
    pub(crate) fn replicate(&mut self, a: &Arrived) -> bool
        requires facts { HasFacts self.old }
        requires named { IsNamed self.old a.now }
        requires fits { FitsRule self.old (replicate_rule self.old.here a.now self.old.doing) }
        ensures { Ruled (replicate_rule self.old.here a.now self.old.doing) result self.old self.new }
    {
        match self.slave_turn(a) {
            SlaveTurn::Ignore => false,
            SlaveTurn::Take { ts, evict } => {
                self.evict_all(a, &evict);
                self.take(a, ts);
                true
            }
        }
    }

    /// Own transactions are evicted, in this order. Each is undecided.
    fn evict_all(&mut self, a: &Arrived, evict: &ShortList<Evicted, 16>)
        requires facts { HasFacts self.old }
        requires named { IsNamed self.old a.now }
        requires evicted { AreEvicted self.old a.now evict.now }
        requires fits { Fits self.old (evict_all self.old.here a.now evict.now self.old.doing) }
        ensures { Did (evict_all self.old.here a.now evict.now self.old.doing) self.old self.new }
    {
        let node = self.site().id();
        for evicted in evict.as_slice() {
            let (by, key) = (a.tx, evicted.key);
            self.abort(evicted.seq as usize - 1, Cause::Conflict { by, key, node });
        }
    }
}
