//! What the comparison of two texts comes to.
ghost use Rattle.std.specs.Prelude.{◌≡◌, IfOk};
ghost use Rattle.stm_report.specs.declared.whole_comparing.WholeChecked.TheVariants.{No};
ghost use Rattle.stm_report.specs.WholeComparing.{compared as compared_texts, is_yes as is_yes_answer};

use crate::whole_lines::first_unlike;
use std::alloc::{AllocError, Global};
use stm_history::Sequence;

/// What a check of a whole report comes to.
#[derive(Debug, Drop)]
pub enum WholeChecked {
    /// Every line is the one that a script writes.
    Yes,
    /// A line is not.
    No {
        /// The first such line, counted from 1.
        line: u64,
        /// What a script writes there, its line feed with it: empty where its report has ended.
        expected: Sequence<u8>,
    },
}

impl WholeChecked {
    /// Whether every line is the one that a script writes.
    pub fn is_yes(&self) -> bool
        ensures { result ≡ is_yes_answer self.now }
    {
        match self {
            WholeChecked::Yes => true,
            WholeChecked::No { .. } => false,
        }
    }
}

/// The answer where a line is not as expected.
fn no(alloc: Global, line: u64, expected: &[u8]) -> Result<WholeChecked, AllocError>
    ensures { IfOk result (λ checked. checked ≡ No line expected.now) }
{
    let expected = Vec::from_slice(alloc, expected)?;
    Ok(WholeChecked::No {
        line,
        expected: Sequence::of(expected),
    })
}

/// What the comparison of the text that is given with the one that is expected comes to.
pub(crate) fn compared(
    alloc: Global,
    expected: &[u8],
    given: &[u8],
) -> Result<WholeChecked, AllocError>
    ensures { IfOk result (λ checked. checked ≡ compared_texts expected.now given.now) }
{
    match first_unlike(expected, given) {
        None => Ok(WholeChecked::Yes),
        Some((line, expected)) => no(alloc, line, expected),
    }
}
