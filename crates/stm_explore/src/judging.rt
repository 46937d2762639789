//! The places of a scenario, where rules are kept or are not.
ghost use Rattle.std.specs.Prelude.{◌≡◌, true, option_copied, slice_get, IfOk};
ghost use Rattle.stm_schedules.specs.Keeping.{keeps};
ghost use Rattle.stm_explore.specs.Spots.{keeps_if_there, rules_steps, AreSame};
ghost use Rattle.stm_explore.specs.AlikeSpots.{rules_respected};

use crate::alike::{hint_of, is_alike};
use crate::keeping::end_alone;
use crate::moving::{moved, moves_at, rest_of, taken_after};
use crate::places::WorldPlace;
use crate::sharing::{held_hint, sharing_world};
use std::alloc::{AllocError, Global};
use stm_meaning::End;
use stm_program::Program;
use stm_retry::SharedWorld;
use stm_schedules::Move;
use stm_visited::System;
use stm_world::WorldEvent;

/// What the others bring, and rules.
#[derive(Drop)]
pub(crate) struct Judged<'a> {
    pub(crate) alloc: Global,
    pub(crate) others: &'a [WorldEvent],
    pub(crate) rules: &'a [Program],
}

/// The rule of a number among these, if there is one.
pub(crate) fn rule_at(rules: &[Program], rule: usize) -> Option<&Program>
    ensures { option_copied result ≡ slice_get rules.now rule }
{
    if rule < rules.len() {
        Some(&rules[rule])
    } else {
        None
    }
}

/// Whether a rule is kept in a world.
pub(crate) fn is_kept(rule: &Program, world: &SharedWorld) -> Result<bool, AllocError>
    ensures { IfOk result (λ kept. kept ≡ keeps rule.now world.now) }
{
    match end_alone(rule, world)? {
        End::Done => Ok(true),
        _ => Ok(false),
    }
}

/// Whether the rule of a number among these is kept in a world, if there is one.
fn is_kept_if_there(rules: &[Program], rule: usize, world: &SharedWorld) -> Result<bool, AllocError>
    ensures { IfOk result (λ kept. kept ≡ keeps_if_there (slice_get rules.now rule) world.now) }
{
    match rule_at(rules, rule) {
        None => Ok(true),
        Some(rule) => is_kept(rule, world),
    }
}

impl<'a> System for Judged<'a> {
    type Place = WorldPlace;

    type Move = Move;

    type Shown = ();

    ghost steps = { λ s. rules_steps s.rules.now s.others.now };

    ghost Alike = { λ s. AreSame s.others.now };

    fn moves(&self, place: &WorldPlace) -> Result<Vec<Move>, AllocError> {
        moves_at(self.alloc, &place.world, rest_of(self.others, place.taken))
    }

    fn moved(&self, place: &WorldPlace, chosen: Move) -> Result<WorldPlace, AllocError> {
        let world = moved(
            self.alloc,
            &place.world,
            rest_of(self.others, place.taken),
            chosen,
        )?;
        Ok(WorldPlace {
            world,
            taken: taken_after(self.others, place.taken, chosen),
        })
    }

    fn is_kept(&self, rule: usize, place: &WorldPlace) -> Result<bool, AllocError> {
        is_kept_if_there(self.rules, rule, &place.world)
    }

    fn is_alike(&self, one: &WorldPlace, other: &WorldPlace) -> bool {
        if one.taken != other.taken {
            return false;
        }
        is_alike(&one.world, &other.world)
    }

    fn hint(&self, place: &WorldPlace) -> u64 {
        hint_of(&place.world).rotate_left(7) ^ place.taken as u64
    }

    fn held_hint(&self, place: &WorldPlace) -> u64 {
        held_hint(&place.world)
    }

    fn sharing(&self, place: WorldPlace, other: &WorldPlace) -> Result<WorldPlace, AllocError> {
        sharing_world(place, other)
    }

    ghost respects = { λ s. rules_respected s.rules.now s.others.now };
}
