//! Places that somebody looks at, as a search comes to them.
ghost use Rattle.stm_explore.specs.Spots.{ShowTheSame};
ghost use Rattle.stm_explore.specs.Waiting.{waiting_rules_steps, waiting_respected};

use crate::places::ReportedPlace;
use crate::waiting::Waiting;
use std::alloc::AllocError;
use stm_schedules::{Move, Outcome, RunnerEnd};
use stm_visited::{Nobody, System};

/// Who is shown each place where a search asks a rule. It only looks: nothing that it does changes what the search answers.
pub trait Onlooker {
    /// A rule is asked at a place where this is known of the ends of runners. It is a last one where no schedule goes on from it.
    fn see(&self, ends: &[Option<RunnerEnd>], is_last: bool);
}

impl Onlooker for Nobody {
    fn see(&self, _ends: &[Option<RunnerEnd>], _is_last: bool) {}
}

/// The places of a scenario in which runners wait, and who looks at them.
#[derive(Drop)]
pub(crate) struct Watched<'a, L> {
    pub(crate) waiting: Waiting<'a>,
    pub(crate) onlooker: &'a L,
}

impl<'a, L: Onlooker> System for Watched<'a, L> {
    type Place = ReportedPlace;

    type Move = Move;

    type Shown = Outcome;

    ghost steps = { λ s. waiting_rules_steps s.waiting.waits.now s.waiting.when s.waiting.rules.now s.waiting.gathered.others.now };

    ghost Alike = { λ s. ShowTheSame s.waiting.gathered.others.now };

    fn moves(&self, place: &ReportedPlace) -> Result<Vec<Move>, AllocError> {
        self.waiting.moves(place)
    }

    fn moved(&self, place: &ReportedPlace, chosen: Move) -> Result<ReportedPlace, AllocError> {
        self.waiting.moved(place, chosen)
    }

    fn is_kept(&self, rule: usize, place: &ReportedPlace) -> Result<bool, AllocError> {
        let moves = self.waiting.moves(place)?;
        self.onlooker.see(place.ends.as_slice(), moves.is_empty());
        self.waiting.is_kept(rule, place)
    }

    fn is_alike(&self, one: &ReportedPlace, other: &ReportedPlace) -> bool {
        self.waiting.is_alike(one, other)
    }

    fn hint(&self, place: &ReportedPlace) -> u64 {
        self.waiting.hint(place)
    }

    fn held_hint(&self, place: &ReportedPlace) -> u64 {
        self.waiting.held_hint(place)
    }

    fn sharing(
        &self,
        place: ReportedPlace,
        other: &ReportedPlace,
    ) -> Result<ReportedPlace, AllocError> {
        self.waiting.sharing(place, other)
    }

    ghost respects = { λ s. waiting_respected s.waiting.waits.now s.waiting.when s.waiting.rules.now s.waiting.gathered.others.now };
}
