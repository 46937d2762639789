//! Whether conditions hold, or where they stop.
ghost use Rattle.stm_steps.specs.Meaning.{holds};
ghost use Rattle.stm_program.specs.Syntax.{Equal, Less};
ghost use Rattle.stm_sites.specs.Sites.{condition_site, inside};
ghost use Rattle.stm_sites.specs.Returns.{Returns, StopsAt};

use crate::expressions::part_value;
use crate::halt::{Halt, on_two, within};
use crate::site::Node;
use std::alloc::Global;
use stm_program::{Cond, CondNode, Expr};
use stm_steps::{Lookup, Session, are_equal, is_below};

/// Whether the values of two expressions are equal.
#[tactic(auto, unfolding(stm_steps::specs::Meaning::holds, crate::specs::Sites::condition_site))]
fn is_equal<L: Lookup>(
    alloc: Global,
    lookup: &L,
    session: &mut Session,
    left: &Expr,
    right: &Expr,
) -> Result<bool, Halt>
    ensures reported { Returns result session.new (holds (L.answers lookup.now) (Equal left.now right.now) session.old) }
    ensures site { StopsAt result (condition_site (L.answers lookup.now) (Equal left.now right.now) session.old) }
{
    let left = part_value(alloc, lookup, session, 1, left)?;
    let right = match part_value(alloc, lookup, session, 2, right) {
        Ok(right) => right,
        Err(halt) => {
            drop(left);
            return Err(halt);
        }
    };
    let computed = are_equal(&left, &right);
    let met = on_two(alloc, Node::Comparison, computed, &left, &right);
    drop(left);
    drop(right);
    met
}

/// Whether the value of an expression is below that of another.
#[tactic(auto, unfolding(stm_steps::specs::Meaning::holds, crate::specs::Sites::condition_site))]
fn is_less<L: Lookup>(
    alloc: Global,
    lookup: &L,
    session: &mut Session,
    left: &Expr,
    right: &Expr,
) -> Result<bool, Halt>
    ensures reported { Returns result session.new (holds (L.answers lookup.now) (Less left.now right.now) session.old) }
    ensures site { StopsAt result (condition_site (L.answers lookup.now) (Less left.now right.now) session.old) }
{
    let left = part_value(alloc, lookup, session, 1, left)?;
    let right = match part_value(alloc, lookup, session, 2, right) {
        Ok(right) => right,
        Err(halt) => {
            drop(left);
            return Err(halt);
        }
    };
    let computed = is_below(&left, &right);
    let met = on_two(alloc, Node::Comparison, computed, &left, &right);
    drop(left);
    drop(right);
    met
}

/// Whether a condition holds that is the part at an index of a node.
#[cycle(truths)]
pub(crate) fn part_met<L: Lookup>(
    alloc: Global,
    lookup: &L,
    session: &mut Session,
    index: usize,
    condition: &Cond,
) -> Result<bool, Halt>
    ensures reported { Returns result session.new (holds (L.answers lookup.now) condition.now session.old) }
    ensures site { StopsAt result (inside index (condition_site (L.answers lookup.now) condition.now session.old)) }
{
    let met = is_met(alloc, lookup, session, condition);
    let met = within(index, met)?;
    Ok(met)
}

/// Whether a condition holds.
#[cycle(truths)]
#[tactic(auto, unfolding(stm_steps::specs::Meaning::holds, crate::specs::Sites::condition_site))]
fn is_met<L: Lookup>(
    alloc: Global,
    lookup: &L,
    session: &mut Session,
    condition: &Cond,
) -> Result<bool, Halt>
    ensures reported { Returns result session.new (holds (L.answers lookup.now) condition.now session.old) }
    ensures site { StopsAt result (condition_site (L.answers lookup.now) condition.now session.old) }
{
    match &condition.node {
        CondNode::Equal(left, right) => is_equal(alloc, lookup, session, left, right),
        CondNode::Less(left, right) => is_less(alloc, lookup, session, left, right),
        CondNode::Not(condition) => Ok(!part_met(alloc, lookup, session, 1, condition)?),
        CondNode::And(left, right) => {
            if part_met(alloc, lookup, session, 1, left)? {
                return part_met(alloc, lookup, session, 2, right);
            }
            Ok(false)
        }
        CondNode::Or(left, right) => {
            if part_met(alloc, lookup, session, 1, left)? {
                return Ok(true);
            }
            part_met(alloc, lookup, session, 2, right)
        }
    }
}
