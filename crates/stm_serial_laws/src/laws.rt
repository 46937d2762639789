//! The laws. Each function does nothing: its contract is the law.
ghost use Rattle.stm_serial_laws.specs.Ends.{SchedulesEndSerially};

/// Every schedule of runners at the serializable levels ends as a serial run does. Where the runners that have not ended have made no step, and the others
/// bring no start and no step, some serial run of the same runners leaves the store as the schedule does, and each runner whose run committed, aborted or came
/// to a fault in the schedule ends so in it, with the same output, text or fault. A run that gave up, or that the store ended, has no place in it, nor has
/// one that goes on.
#[tactic(auto, using(crate::proofs::Serialized::schedules_end_serially))]
pub fn schedules_end_serially()
    ensures { SchedulesEndSerially }
{}
