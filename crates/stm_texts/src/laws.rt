//! The law of what is written. The function does nothing: its contract is the law.
ghost use Rattle.stm_texts.specs.Laws.{WrittenScenariosSpell, ScenariosHaveNoFloat};

/// A scenario of at most 100000 events, of which each can stand in a scenario, is spelled by the data that it is written as, so that
/// `read_scenario` reads it from their text.
///
/// No number in these data is a float, so that their compact text is determined.
pub fn written_scenarios_spell()
    ensures spell { WrittenScenariosSpell }
    ensures no_float { ScenariosHaveNoFloat }
{}
