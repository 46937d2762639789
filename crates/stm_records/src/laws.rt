//! The laws of files of records, across a restart. Each function does nothing: its contract is the law.
ghost use Rattle.stm_records.specs.Laws.{ServesTheAcknowledged, TellsDamage, LeavesTheHurt};

/// A file of acknowledged records, one more in flight, a crash, and an opening: what is served is what was acknowledged, in order, with the one in flight
/// or without.
pub fn serves_the_acknowledged()
    ensures { ServesTheAcknowledged }
{}

/// A record that is not the last, and whose bytes are no record any more: nothing is served, its offset is told, and no other one.
pub fn tells_damage()
    ensures { TellsDamage }
{}

/// What a crash leaves of a file that is hurt, at any moment of an opening, is the file itself.
pub fn leaves_the_hurt()
    ensures { LeavesTheHurt }
{}
