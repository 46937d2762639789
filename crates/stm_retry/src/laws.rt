//! The laws of runs that ran out of memory. Each function does nothing: its contract is the law.
ghost use Rattle.stm_retry.specs.Stops.{StopsGoOn, WrongStops};

/// What was stopped because memory ran out goes on alike once there is memory again, wherever and however often it is stopped.
///
/// An advance that was cut short after some expiries, or none, and is made again expires exactly the rest, in the same order and with the
/// same revisions, and comes to the same store, moment and refusal. Any other event that was refused is taken as it would have been.
/// So a run of the events from `done` on gives the replies to these of one run of all events, and leaves its world, but that
/// the advance reports its list in parts; and so it is however often a run is stopped. (A run that is stopped drops the replies to
/// the events before: the law says what they were.)
///
/// The worlds are equal in all: history, live leases, moment, watchers with how far each was notified, runners with what each has read, and entries.
pub fn stops_go_on()
    ensures { StopsGoOn }
{}

/// Some wrong accounts of how a run goes on after an advance that had expired leases when it was stopped: the advance reports its
/// whole list again; the world is as it was before the advance.
pub fn wrong_stops_are_none()
    ensures { WrongStops }
{}
