//! Where a statement may leave its block, and how statements end.
ghost use Rattle.std.specs.Prelude.{◌≡◌};
ghost use Rattle.stm_terms.specs.Outcome.{Returns};
ghost use Rattle.stm_source.specs.Leaving as spec;

use stm_leaving::{Part, PartNode};
use stm_terms::{SourceCause, SourceError, fault};
use stm_tokens::Word;

/// What is around a statement.
#[derive(Clone, Copy, PartialEq, Eq)]
pub(crate) struct Around {
    /// The loops.
    pub loops: Loops,
    /// Whether a mark stands before each statement, which says where that begins.
    pub marks: bool,
}

/// The loops around a statement.
#[derive(Clone, Copy, PartialEq, Eq)]
pub(crate) enum Loops {
    /// None.
    Program,
    /// Loops over items.
    Items,
    /// A counted loop, and none within it.
    Turns,
    /// A counted loop, and within it loops over items.
    ItemsOfTurns,
}

/// A statement that leaves its block.
#[derive(Clone, Copy, PartialEq, Eq)]
pub(crate) enum Leave {
    /// `return`
    Return,
    /// `break`
    Break,
    /// `continue`
    Continue,
}

/// How a statement, or a block, ends.
#[derive(Clone, Copy, PartialEq, Eq)]
pub(crate) enum Ending {
    /// What stands behind it may come next.
    GoesOn,
    /// Nothing that stands behind it comes next: it is left in any case, and not always by an `abort`.
    Leaves,
    /// By an `abort` in any case.
    Aborts,
}

impl Ending {
    /// Whether it is a fault that a statement stands behind it.
    pub(crate) fn is_left(self) -> bool
        ensures { result ≡ spec.is_left self }
    {
        match self {
            Ending::Leaves => true,
            Ending::GoesOn | Ending::Aborts => false,
        }
    }
}

/// How a choice ends, of the blocks that end so.
pub(crate) fn choice_ending(yes: Ending, no: Ending) -> Ending
    ensures { result ≡ spec.choice_ending yes no }
{
    match yes {
        Ending::GoesOn => Ending::GoesOn,
        Ending::Aborts => no,
        Ending::Leaves => match no {
            Ending::GoesOn => Ending::GoesOn,
            Ending::Leaves | Ending::Aborts => Ending::Leaves,
        },
    }
}

/// What is around the statements of a program.
pub(crate) fn around_all(marks: bool) -> Around
    ensures { result ≡ spec.around_all marks }
{
    let loops = Loops::Program;
    Around { loops, marks }
}

/// What is around the statements of a counted loop.
pub(crate) fn in_turns(around: Around) -> Around
    ensures { result ≡ spec.in_turns around }
{
    Around {
        loops: Loops::Turns,
        marks: around.marks,
    }
}

/// The loops around the statements of a loop over items.
fn items_in(loops: Loops) -> Loops
    ensures { result ≡ spec.items_in loops }
{
    match loops {
        Loops::Program | Loops::Items => Loops::Items,
        Loops::Turns | Loops::ItemsOfTurns => Loops::ItemsOfTurns,
    }
}

/// What is around the statements of a loop over items.
pub(crate) fn in_items(around: Around) -> Around
    ensures { result ≡ spec.in_items around }
{
    Around {
        loops: items_in(around.loops),
        marks: around.marks,
    }
}

/// The statement that a word is, if it is one that leaves its block.
pub(crate) fn leave_word(word: Word) -> Option<Leave>
    ensures { result ≡ spec.leave_word word }
{
    if word.is(Word::Return) {
        Some(Leave::Return)
    } else if word.is(Word::Break) {
        Some(Leave::Break)
    } else if word.is(Word::Continue) {
        Some(Leave::Continue)
    } else {
        None
    }
}

/// Why a statement may not leave its block there, if it may not: no loop is around it, or a counted one that it would leave.
fn leave_fault(loops: Loops, leave: Leave) -> Option<SourceCause>
    ensures { result ≡ spec.leave_fault loops leave }
{
    match leave {
        Leave::Return => match loops {
            Loops::Program | Loops::Items => None,
            Loops::Turns | Loops::ItemsOfTurns => Some(SourceCause::Return),
        },
        Leave::Break => match loops {
            Loops::Program => Some(SourceCause::Syntax),
            Loops::Turns => Some(SourceCause::Return),
            Loops::Items | Loops::ItemsOfTurns => None,
        },
        Leave::Continue => match loops {
            Loops::Program => Some(SourceCause::Syntax),
            Loops::Items | Loops::Turns | Loops::ItemsOfTurns => None,
        },
    }
}

/// A statement that leaves its block. It begins at a byte.
pub(crate) fn leaving_part(around: Around, leave: Leave, at: usize) -> Result<Part, SourceError>
    ensures { Returns (λ p. p) result (spec.leaving_part around leave at) }
{
    if let Some(cause) = leave_fault(around.loops, leave) {
        return Err(fault(at, cause));
    }
    let node = match leave {
        Leave::Return => PartNode::Return,
        Leave::Break => PartNode::Break,
        Leave::Continue => PartNode::Continue,
    };
    Ok(Part { node })
}
