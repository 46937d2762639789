//! How many statements are written, whatever comes to them.
ghost use Rattle.std.specs.Prelude.{◌≡◌};
ghost use Rattle.stm_leaving.specs.Written as spec;

use crate::part::{Copies, Part, PartNode, Parts};

/// Whether a statement leaves a block anywhere in these.
#[cycle(leaves)]
#[tactic(auto, unfolding(crate::specs::Written::leaves))]
fn leaves(parts: &Parts) -> bool
    ensures { result ≡ spec.leaves parts.now }
{
    for part in parts.parts.iter() {
        if one_leaves(part) {
            return true;
        }
    }
    false
}

#[cycle(leaves)]
#[tactic(auto, unfolding(crate::specs::Written::leaves))]
fn one_leaves(part: &Part) -> bool
    ensures { result ≡ spec.one_leaves part.now }
{
    match &part.node {
        PartNode::Plain(_) => false,
        PartNode::Choice(_, yes, no) => leaves(yes) || leaves(no),
        PartNode::Items(copies) => copies_leave(copies),
        PartNode::Count(_, _, _, body) => leaves(body),
        PartNode::Return | PartNode::Break | PartNode::Continue => true,
    }
}

#[cycle(leaves)]
#[tactic(auto, unfolding(crate::specs::Written::leaves))]
fn copies_leave(copies: &Copies) -> bool
    ensures { result ≡ spec.copies_leave copies.now }
{
    for copy in copies.copies.iter() {
        if leaves(copy) {
            return true;
        }
    }
    false
}

fn one_less(room: usize) -> Option<usize>
    ensures { result ≡ spec.one_less room }
{
    if room == 0 { None } else { Some(room - 1) }
}

/// How many of so many statements are left behind these; none where these are more.
#[cycle(written)]
#[tactic(auto, unfolding(crate::specs::Written::written_left))]
fn written_left(parts: &Parts, room: usize) -> Option<usize>
    ensures { result ≡ spec.written_left room parts.now }
{
    let mut left = room;
    for part in parts.parts.iter() {
        left = one_left(part, left)?;
    }
    Some(left)
}

#[cycle(written)]
#[tactic(auto, unfolding(crate::specs::Written::written_left))]
fn one_left(part: &Part, room: usize) -> Option<usize>
    ensures { result ≡ spec.one_left room part.now }
{
    match &part.node {
        PartNode::Plain(_) => one_less(room),
        PartNode::Choice(_, yes, no) => {
            let left = one_less(room)?;
            let left = written_left(yes, left)?;
            written_left(no, left)
        }
        PartNode::Items(copies) => copies_left(copies, room),
        PartNode::Count(_, _, _, body) => {
            let left = one_less(room)?;
            written_left(body, left)
        }
        PartNode::Return | PartNode::Break | PartNode::Continue => Some(room),
    }
}

#[cycle(written)]
#[tactic(auto, unfolding(crate::specs::Written::written_left))]
fn copies_left(copies: &Copies, room: usize) -> Option<usize>
    ensures { result ≡ spec.copies_left room copies.now }
{
    let mut left = room;
    for copy in copies.copies.iter() {
        left = written_left(copy, left)?;
    }
    Some(left)
}

/// Whether these have more statements than `most`, and one leaves a block: what follows would be copied into too many branches to be made at all.
pub fn is_too_long(parts: &Parts, most: usize) -> bool
    ensures { result ≡ spec.is_too_long most parts.now }
{
    leaves(parts) && written_left(parts, most).is_none()
}
