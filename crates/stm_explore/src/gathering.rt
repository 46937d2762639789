//! The places of a scenario, with what they show where no move can be made.
ghost use Rattle.std.specs.Prelude.{◌≡◌, [], ◌∷◌, true, IfOk, IfSome};
ghost use Rattle.stm_retry.specs.AtBase.{NextIsAtBase};
ghost use Rattle.stm_schedules.specs.declared.moves.Move.TheVariants.{Step as StepOf};
ghost use Rattle.stm_explore.specs.Spots.{outcome_steps, ShowTheSame};
ghost use Rattle.stm_explore.specs.AlikeSpots.{outcomes_respected};

use crate::alike::{hint_of, is_alike};
use crate::ends::are_same_ends;
use crate::moving::{find_at_base, moves_at, rest_of, taken_after};
use crate::places::{ReportedPlace, WorldPlace};
use crate::reporting::describe_move;
use crate::sharing::{held_hint, sharing_reported};
use std::alloc::{AllocError, Global};
use stm_retry::SharedWorld;
use stm_schedules::{Move, Outcome};
use stm_visited::System;
use stm_world::WorldEvent;

/// What the others bring.
#[derive(Drop)]
pub(crate) struct Gathered<'a> {
    pub(crate) alloc: Global,
    pub(crate) others: &'a [WorldEvent],
}

/// A runner whose step is enough, if one is known: it fetches a key at the base of its attempt, and the others have nothing left to bring.
fn first_of(world: &SharedWorld, rest: &[WorldEvent]) -> Option<u64>
    ensures none_left { IfSome result (λ id. rest.now ≡ []) }
    ensures at_base { IfSome result (λ id. NextIsAtBase id world.now) }
{
    match rest {
        [] => {
            let runner = find_at_base(world)?;
            Some(runner)
        }
        _ => None,
    }
}

/// The step of a runner, and no other move.
fn step_alone(alloc: Global, runner: u64) -> Result<Vec<Move>, AllocError>
    ensures { IfOk result (λ few. few.items ≡ StepOf runner ∷ []) }
{
    let mut few = Vec::with_capacity(alloc, 1)?;
    few.push(Move::Step { runner })?;
    Ok(few)
}

impl<'a> System for Gathered<'a> {
    type Place = ReportedPlace;

    type Move = Move;

    type Shown = Outcome;

    ghost steps = { λ s rule. outcome_steps s.others.now };

    ghost Alike = { λ s. ShowTheSame s.others.now };

    fn moves(&self, place: &ReportedPlace) -> Result<Vec<Move>, AllocError> {
        moves_at(
            self.alloc,
            &place.at.world,
            rest_of(self.others, place.at.taken),
        )
    }

    fn enough(&self, place: &ReportedPlace) -> Result<Vec<Move>, AllocError> {
        let rest = rest_of(self.others, place.at.taken);
        match first_of(&place.at.world, rest) {
            None => moves_at(self.alloc, &place.at.world, rest),
            Some(runner) => step_alone(self.alloc, runner),
        }
    }

    fn moved(&self, place: &ReportedPlace, chosen: Move) -> Result<ReportedPlace, AllocError> {
        let (world, ends) = describe_move(
            self.alloc,
            &place.at.world,
            rest_of(self.others, place.at.taken),
            chosen,
            &place.ends,
        )?;
        Ok(ReportedPlace {
            at: WorldPlace {
                world,
                taken: taken_after(self.others, place.at.taken, chosen),
            },
            ends,
        })
    }

    fn is_kept(&self, _rule: usize, _place: &ReportedPlace) -> Result<bool, AllocError> {
        Ok(true)
    }

    fn is_alike(&self, one: &ReportedPlace, other: &ReportedPlace) -> bool {
        if one.at.taken != other.at.taken {
            return false;
        }
        if !are_same_ends(one.ends.as_slice(), other.ends.as_slice()) {
            return false;
        }
        is_alike(&one.at.world, &other.at.world)
    }

    fn hint(&self, place: &ReportedPlace) -> u64 {
        hint_of(&place.at.world).rotate_left(7) ^ place.at.taken as u64
    }

    fn held_hint(&self, place: &ReportedPlace) -> u64 {
        held_hint(&place.at.world)
    }

    fn sharing(
        &self,
        place: ReportedPlace,
        other: &ReportedPlace,
    ) -> Result<ReportedPlace, AllocError> {
        sharing_reported(place, other)
    }

    ghost respects = { λ s rule. outcomes_respected s.others.now };
}
