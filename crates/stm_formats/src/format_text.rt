//! A report as text.
ghost use Rattle.std.specs.Prelude.{◌≡◌, ◌++◌, ◌≤◌, IfOk, OnOk};
ghost use Rattle.stm_formats.specs.FormatText.{titled, room, fitted, heading, headings, row_text, rows_text, note_text, notes_text, text_of};

use crate::format_columns::{all_places, column, last_column, most_width, place};
use crate::format_label::{RunnerLabel, short_title, title};
use crate::format_pieces::{Piece, push_padded, push_pieces, push_spaces, said};
use crate::format_row::Row;
use crate::format_wrap::push_fitted;
use std::alloc::{AllocError, Global};
use stm_history::Sequence;

/// So many spaces stand between two titles at least.
const LEAST_SPACE: u64 = 2;

/// Adds the title of a runner's column, after the spaces that are left of the column before it, which has this title.
fn push_title(
    out: &mut Vec<u8>,
    places: &[u64],
    number: u64,
    before: &[u8],
    words: &[u8],
) -> Result<(), AllocError>
    ensures { OnOk result (out.new.items ≡ out.old.items ++ titled places.now number before.now words.now) }
{
    let left = place(places, number).saturating_sub(place(places, number.saturating_sub(1)));
    let pieces = [
        Piece::Spaces(left.saturating_sub(before.len() as u64).max(LEAST_SPACE)),
        Piece::Raw(words),
    ];
    push_pieces(out, &pieces)
}

/// How many characters a column has for its title.
fn room(places: &[u64], number: u64) -> u64
    requires { number ≤ 9 }
    ensures { result ≡ room places.now number }
{
    place(places, number + 1)
        .saturating_sub(place(places, number))
        .saturating_sub(LEAST_SPACE)
}

/// The title of a column, in its short form where the whole one is too long for the column, or its number alone.
fn fitted_title(
    alloc: Global,
    labels: &[RunnerLabel],
    places: &[u64],
    number: u64,
) -> Result<Sequence<u8>, AllocError>
    requires { number ≤ 9 }
    ensures { IfOk result (λ words. words ≡ fitted labels.now places.now number) }
{
    let words = title(alloc, labels, number)?;
    if words.len() as u64 <= room(places, number) {
        return Ok(words);
    }
    let words = short_title(alloc, labels, number)?;
    if words.len() as u64 <= room(places, number) {
        return Ok(words);
    }
    said(alloc, &[Piece::Number(number)])
}

/// Adds the title of a runner's column.
fn push_heading(
    alloc: Global,
    labels: &[RunnerLabel],
    out: &mut Vec<u8>,
    places: &[u64],
    number: u64,
) -> Result<(), AllocError>
    requires { number ≤ 9 }
    ensures { OnOk result (out.new.items ≡ out.old.items ++ heading labels.now places.now number) }
{
    let before = fitted_title(alloc, labels, places, number.saturating_sub(1))?;
    let words = fitted_title(alloc, labels, places, number)?;
    push_title(out, places, number, before.as_slice(), words.as_slice())
}

/// Adds the titles of the runners' columns.
fn push_headings(
    alloc: Global,
    labels: &[RunnerLabel],
    out: &mut Vec<u8>,
    places: &[u64],
    last: u64,
) -> Result<(), AllocError>
    requires { last ≤ 9 }
    ensures { OnOk result (out.new.items ≡ out.old.items ++ headings labels.now places.now last) }
{
    for before in 0..last {
        push_heading(alloc, labels, out, places, before + 1)?;
    }
    Ok(())
}

/// Adds a row.
fn push_row(
    alloc: Global,
    width: Option<u32>,
    out: &mut Vec<u8>,
    places: &[u64],
    row: &Row,
) -> Result<(), AllocError>
    ensures { OnOk result (out.new.items ≡ out.old.items ++ row_text width places.now row.now) }
{
    let indent = 2 + place(places, column(row.lane));
    let pieces = [Piece::Tag(row.lane), Piece::Raw(row.words.as_slice())];
    let words = said(alloc, &pieces)?;
    push_padded(out, row.number)?;
    push_spaces(out, indent)?;
    push_fitted(out, width, indent + 6, words.as_slice())?;
    out.push(b'\n')?;
    Ok(())
}

/// Adds the rows, one line for each, or more where a width wants that.
fn push_rows(
    alloc: Global,
    width: Option<u32>,
    out: &mut Vec<u8>,
    places: &[u64],
    rows: &[Row],
) -> Result<(), AllocError>
    ensures { OnOk result (out.new.items ≡ out.old.items ++ rows_text width places.now rows.now) }
{
    for row in rows {
        push_row(alloc, width, out, places, row)?;
    }
    Ok(())
}

/// Adds a note.
fn push_note(out: &mut Vec<u8>, note: &Sequence<u8>) -> Result<(), AllocError>
    ensures { OnOk result (out.new.items ≡ out.old.items ++ note_text note.now) }
{
    push_pieces(out, &[Piece::Raw(note.as_slice()), Piece::Say("\n")])
}

/// Adds the notes, one line for each.
fn push_notes(out: &mut Vec<u8>, notes: &[Sequence<u8>]) -> Result<(), AllocError>
    ensures { OnOk result (out.new.items ≡ out.old.items ++ notes_text notes.now) }
{
    for note in notes {
        push_note(out, note)?;
    }
    Ok(())
}

/// The text of a report of these rows and notes, of a width, with runners of these labels. It fails where a growth was refused.
pub(crate) fn text_of(
    alloc: Global,
    width: Option<u32>,
    labels: &[RunnerLabel],
    rows: &[Row],
    notes: &[Sequence<u8>],
) -> Result<Vec<u8>, AllocError>
    ensures { IfOk result (λ text. text.items ≡ text_of width labels.now rows.now notes.now) }
{
    let limit = most_width(width, last_column(rows));
    let places = all_places(alloc, limit, labels, rows)?;
    let mut out = Vec::new(alloc);
    out.extend_from_slice(b" event  store")?;
    push_headings(
        alloc,
        labels,
        &mut out,
        places.as_slice(),
        last_column(rows),
    )?;
    out.push(b'\n')?;
    push_rows(alloc, width, &mut out, places.as_slice(), rows)?;
    out.push(b'\n')?;
    push_notes(&mut out, notes)?;
    Ok(out)
}
