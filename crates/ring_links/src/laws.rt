//! The laws of the rings: functions without effect, each of which carries one law.
ghost use Rattle.ring_links.specs.Flows.{ArrivalHolds, FlowHolds};

/// What a node sent to another is what that took, then its inbox, then what is in the ring, then the
/// backlog, in the order in which it was sent.
pub fn flow_holds()
    ensures { FlowHolds }
{}

/// A settle moves all that is under way into the inbox, and one that fails moves nothing.
pub fn arrival_holds()
    ensures { ArrivalHolds }
{}
