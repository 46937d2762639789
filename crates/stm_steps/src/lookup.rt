//! Where a run looks keys up.
ghost use Rattle.std.specs.Prelude.{◌≡◌, ◌≤◌, ℕ, List, Option, option_map, option_copied, IfSome};
ghost use Rattle.stm_history.specs.declared.revisions.TheConstants.{HIGHEST_NUMBER};
ghost use Rattle.stm_steps.specs.Answer.{Answer};

/// Where a run looks up the keys that it has not written: a state, which knows every key, or a list of
/// recorded answers.
pub trait Lookup {
    /// What is known of a key: value and modification revision, "" and 0 where the key is absent.
    ghost answers: { Self → List ℕ → Option Answer };

    /// The value of a key, "" where it is absent, and `None` where nothing is known of it.
    fn value(&self, key: &str) -> Option<&str>
        ensures { option_copied result ≡ option_map (λ a. a.value) (answers self.now key.now) };

    /// The modification revision of a key, 0 where it is absent, and `None` where nothing is known of it.
    fn mod_rev(&self, key: &str) -> Option<u64>
        ensures answer { result ≡ option_map (λ a. a.mod_rev) (answers self.now key.now) }
        ensures in_range { IfSome result (λ revision. revision ≤ HIGHEST_NUMBER) };
}
