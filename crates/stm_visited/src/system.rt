//! What a search goes through.
ghost use Rattle.std.specs.Prelude.{◌≡◌, ℕ, true, IfOk};
ghost use Rattle.stm_visited.specs.Search.{Steps};
ghost use Rattle.stm_visited.specs.Alike.{Respects};
ghost use Rattle.stm_visited.specs.Layers.{AreEnough};

use std::alloc::AllocError;

/// Places, the moves that can be made at each, rules, and what a place shows where no move can be made. Some places are alike: what can be
/// seen from there on is the same. Rules have numbers, from 0 on.
pub trait System {
    /// A place.
    type Place: Drop;
    /// A move.
    type Move: Copy;
    /// What a place shows.
    type Shown;

    /// The moves at a place, where each leads to, whether a place keeps the rule of a number, and what it shows.
    ghost steps: { Self → ℕ → Steps Self.Place Self.Move Self.Shown };

    /// Two places are alike.
    ghost Alike: { Self → Self.Place → Self.Place → Type 0 };

    /// The moves that can be made at a place, in their order.
    fn moves(&self, place: &Self::Place) -> Result<Vec<Self::Move>, AllocError>
        ensures { IfOk result (λ all. (rule : ℕ) → all.items ≡ (steps self.now rule).moves place.now) };

    /// Moves that are enough to go on with from a place: all that can be made, unless a system knows that some are.
    fn enough(&self, place: &Self::Place) -> Result<Vec<Self::Move>, AllocError>
        ensures { IfOk result (λ few. (rule : ℕ) → AreEnough Self.Place Self.Move Self.Shown (steps self.now rule) place.now few.items) }
    {
        self.moves(place)
    }

    /// The place that a move leads to.
    fn moved(&self, place: &Self::Place, chosen: Self::Move) -> Result<Self::Place, AllocError>
        ensures { IfOk result (λ next. (rule : ℕ) → next ≡ (steps self.now rule).after chosen place.now) };

    /// Whether a place keeps the rule of a number.
    fn is_kept(&self, rule: usize, place: &Self::Place) -> Result<bool, AllocError>
        ensures { IfOk result (λ kept. kept ≡ (steps self.now rule).keeps place.now) };

    /// Whether two places are alike. It may say no of places that are.
    fn is_alike(&self, one: &Self::Place, other: &Self::Place) -> bool
        ensures { result ≡ true → Alike self.now one.now other.now };

    /// A number that alike places have in common: places with different numbers are not compared. No contract says so: where alike places
    /// have different numbers, each is gone on from.
    fn hint(&self, place: &Self::Place) -> u64;

    /// A number that places have in common which hold the same in part: one that was come to later may share that with the first. No contract says so.
    fn held_hint(&self, _place: &Self::Place) -> u64 {
        0
    }

    /// The place, which from now on shares with another one what both hold, where the two do not share it yet. It is the same place, and takes less memory.
    fn sharing(&self, place: Self::Place, _other: &Self::Place) -> Result<Self::Place, AllocError>
        ensures { IfOk result (λ shared. shared ≡ place) }
    {
        Ok(place)
    }

    ghost respects: { (s : Self) (rule : ℕ) → Respects Self.Place Self.Move Self.Shown (steps s rule) (Alike s) };
}
