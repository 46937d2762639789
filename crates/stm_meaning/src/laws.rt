//! Laws of runs. Each stands on a function without a body.
ghost use Rattle.stm_meaning.specs.Laws.{AnswersGiveTheRun, WholeLookupsEnd, WantedKeysAreUnknown};
ghost use Rattle.stm_meaning.specs.RunKeys.{KeysAreNotEmpty, ReadsAreKnown};
ghost use Rattle.stm_meaning.specs.EffectLaw.{EffectLeavesLastWrites};
ghost use Rattle.stm_meaning.specs.Leaves.{GetGives, RevGives, TextsAreKeys, NumbersAreReadBack};

/// A run on recorded answers, and the run of the same program on any look-up that these answers agree with
/// in value and modification revision, such as a state.
///
/// Where the run on the answers came to its end, by `abort` or by a fault too, it is the other run. Where it
/// wants a key, what it saw until then is the beginning of what the other run sees.
pub fn answers_give_the_run()
    ensures { AnswersGiveTheRun }
{}

/// A run over a look-up that knows every key, such as a state, comes to its end.
pub fn whole_lookups_end()
    ensures { WholeLookupsEnd }
{}

/// A key that a run wants is not empty, and its look-up knows nothing of it.
pub fn wanted_keys_are_unknown()
    ensures { WantedKeysAreUnknown }
{}

/// No key that a run writes or reads is empty, and none of its latest writes is of the empty key.
pub fn keys_are_not_empty()
    ensures { KeysAreNotEmpty }
{}

/// The look-up of a run knows each key that the run reads, and no key stands twice among them.
pub fn reads_are_known()
    ensures { ReadsAreKnown }
{}

/// The effect of writes leaves of each key what its last write leaves: its last write of the key is the key's
/// last write, or nothing where that one deletes an absent key.
pub fn effect_leaves_last_writes()
    ensures { EffectLeavesLastWrites }
{}

/// Over a look-up that knows every key, a `get` gives the key's value after the run's writes.
pub fn get_gives_the_value()
    ensures { GetGives }
{}

/// Over a look-up that knows every key, a `rev` gives the key's modification revision there.
pub fn rev_gives_the_revision()
    ensures { RevGives }
{}

/// A text that is not empty is a key, and a put and a deletion of it are writes.
pub fn texts_are_keys()
    ensures { TextsAreKeys }
{}

/// A number in range that was written as text is read back.
pub fn numbers_are_read_back()
    ensures { NumbersAreReadBack }
{}
