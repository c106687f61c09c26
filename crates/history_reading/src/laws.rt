//! The law of the audit: a function without effect, which carries it.
ghost use Rattle.history_reading.specs.AuditLaw.{AuditHolds};

/// What a run of fewer than 2^64 messages writes is a history of its scene and its answers, and of no others; and snapshot isolation holds
/// of them.
pub fn audit_holds()
    ensures { AuditHolds }
{}
