//! What of a scenario's events is its set-up.
ghost use Rattle.std.specs.Prelude.{◌≡◌, ◌≤◌, length, take, drop};
ghost use Rattle.stm_schedules.specs.Scenarios.{is_start, up_to_last_start, after_last_start};

use stm_texts::WorldEvent;

/// Whether an event is a start.
pub(crate) fn is_start(event: &WorldEvent) -> bool
    ensures { result ≡ is_start event.now }
{
    matches!(event, WorldEvent::Start { .. })
}

/// How many events stand up to and including the last start, 0 where there is none.
fn setup_length(events: &[WorldEvent]) -> usize
    ensures within { result ≤ length events.now }
    ensures front { take result events.now ≡ up_to_last_start events.now }
    ensures rest { drop result events.now ≡ after_last_start events.now }
{
    let mut count = events.len();
    while count > 0 {
        if is_start(&events[count - 1]) {
            return count;
        }
        count -= 1;
    }
    0
}

/// The events up to and including the last start, and those after it.
pub(crate) fn setup_and_others(events: &[WorldEvent]) -> (&[WorldEvent], &[WorldEvent])
    ensures setup { result.0.now ≡ up_to_last_start events.now }
    ensures others { result.1.now ≡ after_last_start events.now }
{
    events.split_at(setup_length(events))
}
