//! Those who wait: reads of other nodes, and parked Prepares.
ghost use Rattle.node_core.specs.declared.waiters.WaiterTurn.TheVariants.{Accept as AnAccept, Give as AGive, Refuse as ARefuse};
ghost use Rattle.node_core.specs.Waiting.{Tried, tried, turn_of};
ghost use Rattle.node_core.specs.Working.{Did, Fits, HasFacts};
ghost use Rattle.std.specs.Prelude.{◌≡◌, ◌<◌, ◌+◌, ◌^◌, [], Some, length, slice_get};
ghost use Rattle.str_model.specs.declared.messages.Waiter.{Waiter as AWaiter};
ghost use Rattle.str_model.specs.Waiters.{wait_turns};

use crate::work::Work;
use prepare_master::MasterTurn;
use snapshot_read::ServeTurn;
use str_base::{KeyId, Ts, TxId, Value};
use str_model::Waiter;

/// What one of those who wait comes to.
#[derive(Clone, Copy, Debug, PartialEq, Eq)]
pub(crate) enum WaiterTurn {
    /// It goes on waiting.
    Stay,
    /// Its read is answered.
    Give {
        value: Value,
        by: Option<TxId>,
        fc: Ts,
    },
    /// Its Prepare is accepted.
    Accept {
        ts: Ts,
    },
    /// Its Prepare is refused.
    Refuse {
        by: TxId,
        key: KeyId,
    },
}

impl Work {
    /// What the `j`-th of those who wait comes to.
    fn waiter_turn(&self, j: usize) -> WaiterTurn
        requires facts { HasFacts self.now }
        requires there { j < length self.now.doing.view.waiters }
        ensures { (w : AWaiter) → slice_get self.now.doing.view.waiters j ≡ Some w → result ≡ turn_of self.now.doing.view w }
    {
        let Some(waiter) = self.held.parked.get(j) else {
            return WaiterTurn::Stay;
        };
        match waiter {
            Waiter::Read { key, rs, .. } => match self.serve_turn(*key, *rs) {
                ServeTurn::Give { value, by, fc } => WaiterTurn::Give { value, by, fc },
                ServeTurn::Wait { .. } => WaiterTurn::Stay,
            },
            Waiter::Held(a) => match self.retry_turn(a) {
                MasterTurn::Accept { ts } => WaiterTurn::Accept { ts },
                MasterTurn::Refuse { by, key } => WaiterTurn::Refuse { by, key },
                MasterTurn::Park { .. } | MasterTurn::Ignore => WaiterTurn::Stay,
            },
        }
    }

    /// The `j`-th of those who wait is tried again. The place of the one after it.
    fn try_waiter(&mut self, j: usize) -> usize
        requires facts { HasFacts self.old }
        requires there { j < length self.old.doing.view.waiters }
        requires limit { j + 1 < 2 ^ 64 }
        requires fits { (w : AWaiter) → slice_get self.old.doing.view.waiters j ≡ Some w → Fits self.old (tried self.old.here j w self.old.doing) }
        ensures { (w : AWaiter) → slice_get self.old.doing.view.waiters j ≡ Some w → Tried j w result self.old self.new }
    {
        match self.waiter_turn(j) {
            WaiterTurn::Stay => j + 1,
            WaiterTurn::Give { value, by, fc } => {
                self.give_waiter(j, value, by, fc);
                j
            }
            WaiterTurn::Accept { ts } => {
                self.accept_waiter(j, ts);
                j
            }
            WaiterTurn::Refuse { by, key } => {
                self.refuse_waiter(j, by, key);
                j
            }
        }
    }

    /// The `j`-th of those who wait is a read, which is answered.
    fn give_waiter(&mut self, j: usize, value: Value, by: Option<TxId>, fc: Ts)
        requires there { j < length self.old.doing.view.waiters }
        requires turn { (w : AWaiter) → slice_get self.old.doing.view.waiters j ≡ Some w → AGive value by fc ≡ turn_of self.old.doing.view w }
        requires fits { (w : AWaiter) → slice_get self.old.doing.view.waiters j ≡ Some w → Fits self.old (tried self.old.here j w self.old.doing) }
        ensures { (w : AWaiter) → slice_get self.old.doing.view.waiters j ≡ Some w → Did (tried self.old.here j w self.old.doing) self.old self.new }
    {
        match self.unwait(j) {
            Waiter::Read { tx, key, .. } => self.reply(tx, key, value, by, fc),
            Waiter::Held(_) => unreachable!(),
        }
    }

    /// The `j`-th of those who wait is a parked Prepare, which is accepted.
    fn accept_waiter(&mut self, j: usize, ts: Ts)
        requires facts { HasFacts self.old }
        requires there { j < length self.old.doing.view.waiters }
        requires turn { (w : AWaiter) → slice_get self.old.doing.view.waiters j ≡ Some w → AnAccept ts ≡ turn_of self.old.doing.view w }
        requires fits { (w : AWaiter) → slice_get self.old.doing.view.waiters j ≡ Some w → Fits self.old (tried self.old.here j w self.old.doing) }
        ensures { (w : AWaiter) → slice_get self.old.doing.view.waiters j ≡ Some w → Did (tried self.old.here j w self.old.doing) self.old self.new }
    {
        match self.unwait(j) {
            Waiter::Held(a) => self.accept(&a, ts),
            Waiter::Read { .. } => unreachable!(),
        }
    }

    /// The `j`-th of those who wait is a parked Prepare, which is refused.
    fn refuse_waiter(&mut self, j: usize, by: TxId, key: KeyId)
        requires there { j < length self.old.doing.view.waiters }
        requires turn { (w : AWaiter) → slice_get self.old.doing.view.waiters j ≡ Some w → ARefuse by key ≡ turn_of self.old.doing.view w }
        requires fits { (w : AWaiter) → slice_get self.old.doing.view.waiters j ≡ Some w → Fits self.old (tried self.old.here j w self.old.doing) }
        ensures { (w : AWaiter) → slice_get self.old.doing.view.waiters j ≡ Some w → Did (tried self.old.here j w self.old.doing) self.old self.new }
    {
        match self.unwait(j) {
            Waiter::Held(a) => self.refuse(&a, by, key),
            Waiter::Read { .. } => unreachable!(),
        }
    }

    /// Each of those who wait is tried again, in order of arrival.
    pub(crate) fn sweep(&mut self)
        requires facts { HasFacts self.old }
        requires fits { Fits self.old (wait_turns self.old.here [] self.old.doing.view.waiters self.old.doing) }
        ensures { Did (wait_turns self.old.here [] self.old.doing.view.waiters self.old.doing) self.old self.new }
    {
        let waiting = self.waiting();
        let mut j = 0;
        for n in 0..waiting {
            j = self.try_waiter(j);
        }
    }
}
