//! The event that a drain takes next.
ghost use Rattle.cluster_run.specs.Clusters.{ArePlaced, world_of};
ghost use Rattle.std.specs.Prelude.{◌≡◌, option_map};
ghost use Rattle.str_model.specs.Drains.{next_event, next_session};

use crate::parts::Parts;
use str_base::SessionId;
use str_scene::Event;

impl Parts {
    /// The lowest session for which a client step is not idle.
    fn lowest_session(&self) -> Option<SessionId>
        requires { ArePlaced self.now.scene self.now.nodes.items }
        ensures { option_map (λ s. s.0) result ≡ next_session self.now.scene (world_of self.now) }
    {
        for i in 0..self.scene.sessions().len() {
            let session = SessionId(i as u8 + 1);
            if self.moves(session) {
                return Some(session);
            }
        }
        None
    }

    /// The event that the drain's rule names. None where it stops.
    pub fn next_event(&self) -> Option<Event>
        requires { ArePlaced self.now.scene self.now.nodes.items }
        ensures { result ≡ next_event self.now.scene (world_of self.now) }
    {
        match self.given.next() {
            Some(index) => Some(Event::Deliver { index }),
            None => match self.lowest_session() {
                Some(session) => Some(Event::Client {
                    session,
                    reading: 0,
                }),
                None => None,
            },
        }
    }
}
