//! Reading what the store opens with.
ghost use Rattle.std.specs.Prelude.{◌≡◌, ◌≤◌, codes, IfOk};
ghost use Rattle.stm_outcome.specs.Terms.{most_operations};
ghost use Rattle.stm_terms.specs.Cursor as cursor;
ghost use Rattle.stm_terms.specs.Outcome.{Returns};
ghost use Rattle.stm_source.specs.Events as spec;

use crate::events::plain_number;
use crate::story::Story;
use stm_history::HIGHEST_REVISION;
use stm_outcome::MOST_OPERATIONS;
use stm_terms::{SourceCause, SourceError, after_name, fault, place, unexpected};
use stm_texts::Opening;
use stm_tokens::Token;

/// A number from a least to a most.
fn number_between(least: u64, most: u64, tokens: &[Token]) -> Result<(u64, &[Token]), SourceError>
    ensures is { Returns (λ x. (x.0, x.1.now)) result (spec.number_between least most tokens.now) }
    ensures bounded { IfOk result (λ x. (least ≤ x.0) × (x.0 ≤ most)) }
{
    let (number, rest) = plain_number(most, tokens)?;
    if number < least {
        return Err(fault(place(tokens), SourceCause::Range));
    }
    Ok((number, rest))
}

/// The most operations that the store takes.
fn operations(tokens: &[Token]) -> Result<(usize, &[Token]), SourceError>
    ensures is { Returns (λ x. (x.0, x.1.now)) result (spec.operations_by tokens.now (cursor.after_name (codes "limit") tokens.now)) }
    ensures bounded { IfOk result (λ x. (1 ≤ x.0) × (x.0 ≤ most_operations)) }
{
    let Some(rest) = after_name(tokens, "limit") else {
        return Ok((MOST_OPERATIONS, tokens));
    };
    let (operations, rest) = number_between(1, MOST_OPERATIONS as u64, rest)?;
    Ok((operations as usize, rest))
}

/// What the store opens with, behind its word.
fn opening(tokens: &[Token]) -> Result<(Opening, &[Token]), SourceError>
    ensures { Returns (λ x. (x.0, x.1.now)) result (spec.opening_at tokens.now) }
{
    let (revision, rest) = number_between(1, HIGHEST_REVISION, tokens)?;
    let (operations, rest) = operations(rest)?;
    match Opening::of(revision, operations) {
        Some(opening) => Ok((opening, rest)),
        None => unreachable!(),
    }
}

/// What the store opens with, which stands before all events.
pub(crate) fn begin<'a>(
    story: &mut Story,
    tokens: &'a [Token],
    rest: &'a [Token],
) -> Result<&'a [Token], SourceError>
    ensures { Returns (λ rest. (story.new, rest.now)) result (spec.begin_at story.old tokens.now rest.now) }
{
    if story.has_events {
        return Err(unexpected(tokens));
    }
    match opening(rest) {
        Ok((opening, rest)) => {
            story.opening = Some(opening);
            story.has_events = true;
            Ok(rest)
        }
        Err(error) => Err(error),
    }
}
