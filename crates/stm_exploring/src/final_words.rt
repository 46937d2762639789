//! What finals ask of runners: of their ends what none is, and of their outputs which.

use crate::rules::RuleAnswer;
use std::alloc::{AllocError, Global};
use stm_explore::When;
use stm_named_keys::{Compared, keys_looked_up, values_compared};
use strsim::levenshtein;

/// What the key of how a runner ended begins with, before the runner's number.
const END_KEY: &str = "#end/";

/// What the key of an output begins with, before the runner's number, a slash and the output's place.
pub(crate) const OUTPUT_KEY: &str = "#out/";

/// How a runner ends.
const ENDS: [&str; 5] = ["committed", "aborted", "faulted", "gaveup", "ended"];

/// A comparison with what is no end of a runner.
#[derive(Drop)]
pub(crate) struct WrongEnd {
    /// The place of the rule.
    pub(crate) rule: usize,
    /// The runner, by the digits of its number.
    pub(crate) runner: String,
    /// What its end is compared with.
    pub(crate) word: String,
    /// The end that is nearest to that.
    pub(crate) near: &'static str,
}

/// The end that is nearest to a word.
fn nearest_end<'a>(alloc: Global, ends: &[&'a str], word: &str) -> Result<&'a str, AllocError> {
    let mut found = "committed";
    let mut least = word.chars().count() / 2 + 6;
    for end in ends {
        let edits = levenshtein(alloc, word, end)?;
        if edits < least {
            least = edits;
            found = *end;
        }
    }
    Ok(found)
}

/// Adds a comparison, where it is one of a runner's end with what is none.
fn add_wrong(
    alloc: Global,
    wrong: &mut Vec<WrongEnd>,
    rule: usize,
    compared: &Compared,
) -> Result<(), AllocError> {
    let word = compared.text.as_str();
    let Some(runner) = compared.key.text.as_str().strip_prefix(END_KEY) else {
        return Ok(());
    };
    if !compared.key.is_whole || word.is_empty() || ENDS.contains(&word) {
        return Ok(());
    }
    let near = nearest_end(alloc, &ENDS, word)?;
    let runner = String::from_str(alloc, runner)?;
    let word = String::from_str(alloc, word)?;
    wrong.push(WrongEnd {
        rule,
        runner,
        word,
        near,
    })?;
    Ok(())
}

/// The comparisons of a runner's end with what is none, in finals.
pub(crate) fn wrong_ends(
    alloc: Global,
    answers: &[RuleAnswer],
) -> Result<Vec<WrongEnd>, AllocError> {
    let mut wrong = Vec::new(alloc);
    for (rule, a) in answers.iter().enumerate() {
        if a.rule.when == When::Last {
            let all = values_compared(alloc, &a.rule.program)?;
            for compared in all.as_slice() {
                add_wrong(alloc, &mut wrong, rule, compared)?;
            }
        }
    }
    Ok(wrong)
}

/// An output that a final asks for.
#[derive(Clone, Copy)]
pub(crate) struct AskedOutput {
    /// The place of the rule.
    pub(crate) rule: usize,
    /// The runner's number.
    pub(crate) runner: u64,
    /// The place of the output among those of the runner.
    pub(crate) place: u64,
}

/// The output whose key this is, where it is one.
fn output_of(rule: usize, key: &str) -> Option<AskedOutput> {
    let rest = key.strip_prefix(OUTPUT_KEY)?;
    let (runner, place) = rest.split_once('/')?;
    match (runner.parse::<u64>(), place.parse::<u64>()) {
        (Ok(runner), Ok(place)) => Some(AskedOutput {
            rule,
            runner,
            place,
        }),
        _ => None,
    }
}

/// The outputs that finals ask for by their spelling.
pub(crate) fn outputs_asked(
    alloc: Global,
    answers: &[RuleAnswer],
) -> Result<Vec<AskedOutput>, AllocError> {
    let mut asked = Vec::new(alloc);
    for (rule, a) in answers.iter().enumerate() {
        if a.rule.when == When::Last {
            let names = keys_looked_up(alloc, &a.rule.program)?;
            for name in names.as_slice() {
                if let (true, Some(output)) = (name.is_whole, output_of(rule, name.text.as_str())) {
                    asked.push(output)?;
                }
            }
        }
    }
    Ok(asked)
}
