//! What a source calls runners and their programs.
ghost use Rattle.std.specs.Prelude.{◌≡◌, IfOk, option_copied, option_map};
ghost use Rattle.stm_formats.specs.FormatLabels.{label_of, name_of, program_of, runner_words, short_title, title};

use crate::format_pieces::{Piece, said};
use std::alloc::{AllocError, Global};
use stm_history::{Sequence, Text};

/// So many columns a report has for runners at most. All runners from this number on stand in the last one, each row with its runner's number.
pub(crate) const MOST_COLUMNS: u64 = 9;

/// What a source calls a runner, and the program that it runs.
#[derive(Debug, Drop)]
pub struct RunnerLabel {
    /// Its name, where the source gives it one.
    pub name: Option<Text>,
    /// The name of its program with the arguments, as the source has them, where its start names one.
    pub program: Option<Text>,
}

/// The label of a runner: those of the list are of the runners 1, 2 and so on.
fn label_of(labels: &[RunnerLabel], runner: u64) -> Option<&RunnerLabel>
    ensures { option_copied result ≡ label_of labels.now runner }
{
    if runner == 0 {
        return None;
    }
    let place = (runner - 1) as usize;
    if place < labels.len() {
        Some(&labels[place])
    } else {
        None
    }
}

/// The name of a runner, where it has one.
fn name_of(labels: &[RunnerLabel], runner: u64) -> Option<&str>
    ensures { option_map (λ name. name.now) result ≡ name_of labels.now runner }
{
    match label_of(labels, runner) {
        None => None,
        Some(label) => match &label.name {
            None => None,
            Some(name) => Some(name.as_str()),
        },
    }
}

/// The program that a runner runs with its arguments, where the source names it.
pub(crate) fn program_of(labels: &[RunnerLabel], runner: u64) -> Option<&str>
    ensures { option_map (λ program. program.now) result ≡ program_of labels.now runner }
{
    match label_of(labels, runner) {
        None => None,
        Some(label) => match &label.program {
            None => None,
            Some(program) => Some(program.as_str()),
        },
    }
}

/// A runner, by its name and its number.
pub(crate) fn runner_words(
    alloc: Global,
    labels: &[RunnerLabel],
    runner: u64,
) -> Result<Sequence<u8>, AllocError>
    ensures { IfOk result (λ words. words ≡ runner_words labels.now runner) }
{
    match name_of(labels, runner) {
        None => said(alloc, &[Piece::Say("runner "), Piece::Number(runner)]),
        Some(name) => {
            let pieces = [
                Piece::Key(name),
                Piece::Say(" (runner "),
                Piece::Number(runner),
                Piece::Say(")"),
            ];
            said(alloc, &pieces)
        }
    }
}

/// The title of a column.
pub(crate) fn title(
    alloc: Global,
    labels: &[RunnerLabel],
    column: u64,
) -> Result<Sequence<u8>, AllocError>
    ensures { IfOk result (λ words. words ≡ title labels.now column) }
{
    if column == 0 {
        return said(alloc, &[Piece::Say("store")]);
    }
    if column >= MOST_COLUMNS {
        return said(alloc, &[Piece::Say("others")]);
    }
    runner_words(alloc, labels, column)
}

/// The title of a column, without the number of a runner that has a name.
pub(crate) fn short_title(
    alloc: Global,
    labels: &[RunnerLabel],
    column: u64,
) -> Result<Sequence<u8>, AllocError>
    ensures { IfOk result (λ words. words ≡ short_title labels.now column) }
{
    match name_of(labels, column) {
        Some(name) if column < MOST_COLUMNS => said(alloc, &[Piece::Key(name)]),
        _ => title(alloc, labels, column),
    }
}
