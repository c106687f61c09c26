//! Client steps.
ghost use Rattle.node_core.specs.Working.{FitsRule, HasFacts, Ruled};
ghost use Rattle.std.specs.Prelude.{◌≡◌, ℕ, is_some, length, max, min, not};
ghost use Rattle.str_model.specs.Clients.{begin, client_rule, reading_limit};
ghost use Rattle.str_model.specs.NodeFacts.{OpenTo};
ghost use Rattle.node_core.specs.Beginning.{MayBegin, script_of};

use crate::work::Work;
use node_parts::Phase;
use str_base::{SessionId, Ts};
use str_scene::TxPlace;

/// A reading is cut to this.
pub const READING_LIMIT: u64 = (1 << 62) - 1;

impl Work {
    /// A client step of a session. False exactly where it is idle; then nothing changes.
    pub(crate) fn client(&mut self, session: SessionId, reading: u64) -> bool
        requires facts { HasFacts self.old }
        requires open_ { OpenTo self.old.doing.view (length self.old.doing.view.own) }
        requires fits { FitsRule self.old (client_rule self.old.here session reading self.old.doing) }
        ensures { Ruled (client_rule self.old.here session reading self.old.doing) result self.old self.new }
    {
        if !self.site().has_session(session) {
            return false;
        }
        let Some(i) = self.last_of(session) else {
            return self.begin_at(TxPlace { session, index: 1 }, reading);
        };
        let phase = self.phase(i);
        if phase.is_decided() {
            let index = self.place(i).index + 1;
            return self.begin_at(TxPlace { session, index }, reading);
        }
        let Phase::Active = phase else {
            return false;
        };
        self.go_on(i);
        true
    }

    /// The transaction at a place begins, which is the session's next one. False exactly where the session has no script there; then nothing
    /// changes.
    fn begin_at(&mut self, place: TxPlace, reading: u64) -> bool
        requires next { MayBegin self.old place }
        requires facts { HasFacts self.old }
        requires fits { FitsRule self.old (begin self.old.here place reading (script_of self.old.here place) self.old.doing) }
        ensures { Ruled (begin self.old.here place reading (script_of self.old.here place) self.old.doing) result self.old self.new }
    {
        if !self.site().has_script(place) {
            return false;
        }
        let rs = self.begin_rs(reading);
        self.begin(place, rs);
        true
    }

    /// The snapshot timestamp of a transaction that begins at a reading.
    fn begin_rs(&self, reading: u64) -> Ts
        ensures { result.0 ≡ max (min reading reading_limit) self.now.doing.view.floor }
    {
        Ts(reading.min(READING_LIMIT)).max(self.floor())
    }

    /// Whether a client step of a session is idle.
    pub(crate) fn client_idle(&self, session: SessionId) -> bool
        requires { HasFacts self.now }
        ensures { (t : ℕ) → result ≡ not (is_some (client_rule self.now.here session t self.now.doing)) }
    {
        if !self.site().has_session(session) {
            return true;
        }
        let Some(i) = self.last_of(session) else {
            return !self.site().has_script(TxPlace { session, index: 1 });
        };
        let phase = self.phase(i);
        if phase.is_decided() {
            let index = self.place(i).index + 1;
            return !self.site().has_script(TxPlace { session, index });
        }
        let Phase::Active = phase else {
            return true;
        };
        false
    }
}
