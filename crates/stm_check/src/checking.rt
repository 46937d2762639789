//! Checking a report beside its scenario.
ghost use Rattle.std.specs.Prelude.{◌≡◌, ◌+◌, ◌≤◌, length, drop, IfOk, IfSome, None};
ghost use Rattle.stm_check.specs.Judged.{IsJudged, IsJudgedFrom, IsJudgedEnd, IsWrongEvent, AreRightEvents};
ghost use Rattle.stm_entries.specs.LiveLeases.{HasLeases};
ghost use Rattle.stm_check.specs.StoreLines.{final_lines as lines_of_end};
ghost use Rattle.stm_check.specs.Points.{point_of};
ghost use Rattle.stm_check.specs.Wrong.{point_after};

use crate::cause::WrongCause;
use crate::count::add_count;
use crate::finals::{final_lines, first_off};
use crate::point::Point;
use std::alloc::{AllocError, Global};
use stm_events::{Report, ReportLine, WorldEvent};
use stm_texts::{Scenario, opens_with};

/// What a check comes to.
#[derive(Clone, Copy, Debug, PartialEq, Eq)]
pub enum Checked {
    /// No line is wrong.
    Yes,
    /// The first wrong line, counted from 1, and why it is wrong.
    No {
        /// Its number.
        line: u64,
        /// Why it is wrong.
        cause: WrongCause,
    },
}

/// The first wrong line among those of the events.
fn first_wrong_event(
    point: &mut Point,
    events: &[WorldEvent],
    lines: &[ReportLine],
) -> Result<Option<Checked>, AllocError>
    requires { HasLeases point.old.leases point.old.store.standing.live }
    ensures wrong { IfOk result (λ found. IfSome found (IsWrongEvent 1 (point_of point.old) events.now lines.now)) }
    ensures right { IfOk result (λ found. found ≡ None → AreRightEvents 1 (point_of point.old) events.now lines.now) }
    ensures point { IfOk result (λ found. found ≡ None → point_of point.new ≡ point_after (point_of point.old) events.now lines.now) }
    ensures leases { IfOk result (λ found. found ≡ None → HasLeases point.new.leases point.new.store.standing.live) }
{
    for (index, event) in events.iter().enumerate() {
        let number = index as u64 + 1;
        if index >= lines.len() {
            return Ok(Some(Checked::No {
                line: number,
                cause: WrongCause::Count,
            }));
        }
        if let Some(cause) = point.take(number, event, &lines[index])? {
            return Ok(Some(Checked::No {
                line: number,
                cause,
            }));
        }
    }
    Ok(None)
}

/// The first wrong line among those of the end, which stand after this number of lines.
fn first_wrong_final(
    point: &Point,
    before: usize,
    lines: &[ReportLine],
) -> Result<Checked, AllocError>
    requires { HasLeases point.now.leases point.now.store.standing.live }
    ensures { IfOk result (IsJudgedEnd (before + 1) (lines_of_end (point_of point.now)) lines.now) }
{
    let wanted = final_lines(point)?;
    match first_off(wanted.as_slice(), lines) {
        None => Ok(Checked::Yes),
        Some((index, cause)) => {
            let front = add_count(before as u64, index as u64)?;
            let line = add_count(front, 1)?;
            Ok(Checked::No { line, cause })
        }
    }
}

/// The lines after this number of them.
fn lines_after(lines: &[ReportLine], count: usize) -> &[ReportLine]
    requires { count ≤ length lines.now }
    ensures { result.now ≡ drop count lines.now }
{
    &lines[count..]
}

/// What the lines come to, from a point before the first of them.
fn judge(
    point: &mut Point,
    events: &[WorldEvent],
    lines: &[ReportLine],
) -> Result<Checked, AllocError>
    requires { HasLeases point.old.leases point.old.store.standing.live }
    ensures { IfOk result (IsJudgedFrom 1 (point_of point.old) events.now lines.now) }
{
    match first_wrong_event(point, events, lines)? {
        Some(wrong) => Ok(wrong),
        None => first_wrong_final(point, events.len(), lines_after(lines, events.len())),
    }
}

/// Whether a report is one of a scenario: `Yes` exactly where no line is wrong, else the first wrong line with its cause.
///
/// A line in an event's place is wrong as `Event` where it is no line that this event can have there, else as `Replay`
/// where it reports something else than the replay of the entries gives. After the events' lines a line is wrong as
/// `Final` where it is not the key, lease or end line of the replay's last state, and as `Count` where it is missing or
/// stands after the end line.
///
/// It fails only where an allocation does.
pub fn check(alloc: Global, scenario: &Scenario, report: &Report) -> Result<Checked, AllocError>
    ensures { IfOk result (IsJudged scenario.now report.now) }
{
    let mut point = Point::begin(alloc, opens_with(scenario.opening))?;
    let checked = judge(
        &mut point,
        scenario.events.as_slice(),
        report.lines.as_slice(),
    );
    drop(point);
    checked
}
