//! The law of what is printed of a schedule. The function does nothing: its contract is the law.
ghost use Rattle.stm_exploring.specs.Laws.{SchedulesSpell};

/// What is printed of a schedule after a broken rule spells, by the grammar of scenarios, the scenario that was read with the events of the
/// schedule in it, if it has no more than 100000 events. So `script` takes it.
#[tactic(auto, using(crate::proofs::ScheduledSpells::schedules_spell))]
pub fn schedules_spell()
    ensures { SchedulesSpell }
{}
