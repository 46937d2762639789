//! The columns of a report.
ghost use Rattle.std.specs.Prelude.{◌≡◌, ◌≤◌, IfOk};
ghost use Rattle.stm_formats.specs.FormatColumns.{lane_number, column, last_column, width_in, shortest, least_width, width, titled_width, each, most_width, all_places, place};

use crate::format_label::{MOST_COLUMNS, RunnerLabel, title};
use crate::format_row::{Lane, Row};
use std::alloc::{AllocError, Global};

/// So wide is a column at least, in characters, where the width of a report has room for that.
const LEAST_WIDTH: u64 = 10;

/// So many characters the last column has at least, where columns are narrower than it would have them.
const LAST_WIDTH: u64 = 40;

/// The greatest width of a column, in characters, where no width of a report says otherwise.
pub(crate) const MOST_WIDTH: u64 = 28;

/// So wide are the columns of runners together at most, but the last one's words, where no width of a report says otherwise.
const MOST_TOGETHER: u64 = 84;

/// The greatest width of a column at all.
const WIDEST: u64 = 1000;

/// The most characters before a column.
const MOST_PLACE: u64 = 300;

/// The number of a column's runner, 0 for the store.
fn lane_number(lane: Lane) -> u64
    ensures { result ≡ lane_number lane }
{
    match lane {
        Lane::Store => 0,
        Lane::Runner(runner) => runner,
    }
}

/// The column of a lane.
pub(crate) fn column(lane: Lane) -> u64
    ensures number { result ≡ column lane }
    ensures within { result ≤ 9 }
{
    lane_number(lane).min(MOST_COLUMNS)
}

/// The greatest number of a column of these rows.
pub(crate) fn last_column(rows: &[Row]) -> u64
    ensures number { result ≡ last_column rows.now }
    ensures within { result ≤ 9 }
{
    let mut last = 0;
    for row in rows {
        last = column(row.lane).max(last);
    }
    last
}

/// The width of the words of a row, as far as it counts for a column, up to a limit.
fn width_in(limit: u64, number: u64, row: &Row) -> u64
    ensures width { result ≡ width_in limit number row.now }
    ensures within { result ≤ limit }
{
    if column(row.lane) == number {
        (row.words.len() as u64).min(limit)
    } else {
        0
    }
}

/// The width of the shortest title of a column: of the store's name, or of a runner's number.
fn shortest(number: u64) -> u64
    ensures width { result ≡ shortest number }
    ensures within { result ≤ 5 }
{
    if number == 0 { 5 } else { 1 }
}

/// The least width of a column with this title, up to a limit.
fn least_width(limit: u64, number: u64, title: &[u8]) -> u64
    requires { limit ≤ 1000 }
    ensures width { result ≡ least_width limit number title.now }
    ensures within { result ≤ 1000 }
{
    let titled = (title.len() as u64).max(LEAST_WIDTH).min(limit);
    titled.max(shortest(number))
}

/// The width of a column of these rows, up to a limit, and at least this one.
fn width(limit: u64, least: u64, number: u64, rows: &[Row]) -> u64
    requires { (limit ≤ 1000) × (least ≤ 1000) }
    ensures width { result ≡ width limit least number rows.now }
    ensures within { result ≤ 1000 }
{
    let mut widest = least;
    for row in rows {
        widest = width_in(limit, number, row).max(widest);
    }
    widest
}

/// The width of a column of these rows, up to a limit, that is at least as wide as its title.
fn titled_width(
    alloc: Global,
    limit: u64,
    labels: &[RunnerLabel],
    number: u64,
    rows: &[Row],
) -> Result<u64, AllocError>
    requires { limit ≤ 1000 }
    ensures width { IfOk result (λ width. width ≡ titled_width limit labels.now number rows.now) }
    ensures within { IfOk result (λ width. width ≤ 1000) }
{
    let words = title(alloc, labels, number)?;
    Ok(width(
        limit,
        least_width(limit, number, words.as_slice()),
        number,
        rows,
    ))
}

/// How wide so many columns are together behind the number of an event, each with two spaces behind it, in so many characters.
fn each(characters: u64, columns: u64) -> u64
    ensures { result ≡ each characters columns }
{
    (characters.saturating_sub(8) / columns.max(1)).saturating_sub(2)
}

/// The greatest width of a column of a report with so many runners' columns, so that the last one begins before its middle, or columns are not narrower than
/// leaves it its least width.
pub(crate) fn most_width(width: Option<u32>, last: u64) -> u64
    ensures width { result ≡ most_width width last }
    ensures within { result ≤ 1000 }
{
    match width {
        None => (MOST_TOGETHER / last.max(1))
            .min(MOST_WIDTH)
            .max(LEAST_WIDTH),
        Some(width) => {
            let half = each(width as u64 / 2, last);
            let narrow = each((width as u64).saturating_sub(LAST_WIDTH), last);
            narrow.min(LEAST_WIDTH).max(half).min(WIDEST)
        }
    }
}

/// Where the columns of these rows begin, each as wide as a limit at most, and where one behind the last would.
#[tactic(auto, unfolding(crate::specs::FormatColumns::all_places))]
pub(crate) fn all_places(
    alloc: Global,
    limit: u64,
    labels: &[RunnerLabel],
    rows: &[Row],
) -> Result<Vec<u64>, AllocError>
    requires { limit ≤ 1000 }
    ensures { IfOk result (λ v. v.items ≡ all_places limit labels.now rows.now) }
{
    let mut places = Vec::new(alloc);
    let mut begin = 0;
    for number in 0..11u64 {
        places.push(begin)?;
        begin += titled_width(alloc, limit, labels, number, rows)? + 2;
    }
    Ok(places)
}

/// Where a column begins, by the places of all.
pub(crate) fn place(places: &[u64], column: u64) -> u64
    ensures place { result ≡ place places.now column }
    ensures within { result ≤ 300 }
{
    let index = column as usize;
    if index < places.len() {
        places[index].min(MOST_PLACE)
    } else {
        0
    }
}
