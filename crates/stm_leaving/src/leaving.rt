//! Which ways out of a part of a source its statements use.
ghost use Rattle.std.specs.Prelude.{◌≡◌};
ghost use Rattle.stm_leaving.specs.Leaving as spec;
ghost use Rattle.stm_leaving.specs.Source as tree;

use crate::part::{Copies, Part, PartNode, Parts};
use crate::ways::Ways;

/// The ways out of the body of a counted loop.
const CONTINUES_ONLY: Ways = Ways {
    returns: false,
    breaks: false,
    continues: true,
};

/// The ways out of a copy of a loop's block, where the loop is left in these.
pub(crate) fn in_copies(ways: Ways) -> Ways
    ensures { result ≡ tree.in_copies ways }
{
    Ways {
        returns: ways.returns,
        breaks: true,
        continues: true,
    }
}

/// Whether each statement leaves these in one of the ways or not at all, and no `return` and no `break` stands in a counted loop that it leaves.
#[cycle(leaving)]
#[tactic(auto, unfolding(crate::specs::Leaving::keeps_to))]
pub fn keeps_to(ways: Ways, parts: &Parts) -> bool
    ensures { result ≡ spec.keeps_to ways parts.now }
{
    for part in parts.parts.iter() {
        if !keeps_to_one(ways, part) {
            return false;
        }
    }
    true
}

/// The same of one statement.
#[cycle(leaving)]
#[tactic(auto, unfolding(crate::specs::Leaving::keeps_to))]
fn keeps_to_one(ways: Ways, part: &Part) -> bool
    ensures { result ≡ spec.keeps_to_one ways part.now }
{
    match &part.node {
        PartNode::Plain(_) => true,
        PartNode::Choice(_, yes, no) => keeps_to(ways, yes) && keeps_to(ways, no),
        PartNode::Items(copies) => keep_to(in_copies(ways), copies),
        PartNode::Count(_, _, _, body) => keeps_to(CONTINUES_ONLY, body),
        PartNode::Return => ways.returns,
        PartNode::Break => ways.breaks,
        PartNode::Continue => ways.continues,
    }
}

/// The same of each copy.
#[cycle(leaving)]
#[tactic(auto, unfolding(crate::specs::Leaving::keeps_to))]
pub(crate) fn keep_to(ways: Ways, copies: &Copies) -> bool
    ensures { result ≡ spec.keep_to ways copies.now }
{
    for copy in copies.copies.iter() {
        if !keeps_to(ways, copy) {
            return false;
        }
    }
    true
}
