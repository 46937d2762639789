//! The lines of the end.
ghost use Rattle.std.specs.Prelude.{◌≡◌, ◌++◌, ◌+◌, ℕ, IfOk, IfSome, OnOk, None};
ghost use Rattle.stm_leases.specs.Live.{Live};
ghost use Rattle.stm_history.specs.History.{key_now};
ghost use Rattle.stm_entries.specs.LiveLeases.{HasLeases};
ghost use Rattle.stm_check.specs.StoreLines.{key_lines_of, key_lines, lease_lines, final_lines as lines_of_end};
ghost use Rattle.stm_check.specs.Points.{point_of};
ghost use Rattle.stm_check.specs.Wrong.{IsOff};
ghost use Rattle.stm_txn.specs.LeaseKeys.{keys_named};

use crate::cause::WrongCause;
use crate::point::Point;
use std::alloc::{AllocError, Global};
use std::collections::BTreeMap;
use stm_entries::LiveLease;
use stm_events::{ReportLine, are_same_lines};
use stm_history::Text;
use stm_journal::present_keys;
use stm_keys::Keys;

/// Adds the line of a key, if it is present.
fn add_key(
    alloc: Global,
    lines: &mut Vec<ReportLine>,
    keys: &Keys,
    key: &str,
) -> Result<(), AllocError>
    ensures { OnOk result (lines.new.items ≡ lines.old.items ++ key_lines_of key.now (key_now keys.now.history key.now)) }
{
    match keys.get(key) {
        None => Ok(()),
        Some(found) => {
            let key = Text::copy_of(alloc, key)?;
            let state = found.clone()?;
            lines.push(ReportLine::Key { key, state })?;
            Ok(())
        }
    }
}

/// Adds the lines of the keys.
fn add_keys(alloc: Global, lines: &mut Vec<ReportLine>, keys: &Keys) -> Result<(), AllocError>
    ensures { OnOk result (lines.new.items ≡ lines.old.items ++ key_lines keys.now.history (keys_named keys.now.history)) }
{
    let present = present_keys(alloc, keys)?;
    for key in present.as_slice() {
        add_key(alloc, lines, keys, key.as_str())?;
    }
    Ok(())
}

/// Adds the lines of the leases, ascending by id.
fn add_leases(
    lines: &mut Vec<ReportLine>,
    leases: &BTreeMap<u64, LiveLease>,
) -> Result<(), AllocError>
    ensures { OnOk result ((live : Live) → HasLeases leases.now live → lines.new.items ≡ lines.old.items ++ lease_lines live) }
{
    for (id, lease) in leases {
        lines.push(ReportLine::Lease {
            id: *id,
            ttl: lease.ttl,
            renewed: lease.renewed,
        })?;
    }
    Ok(())
}

/// The lines of the end: the keys that are present, ascending by bytes, the live leases, ascending by id, and the end
/// line with the revision and the number of entries.
pub(crate) fn final_lines(point: &Point) -> Result<Vec<ReportLine>, AllocError>
    requires { HasLeases point.now.leases point.now.store.standing.live }
    ensures { IfOk result (λ lines. lines.items ≡ lines_of_end (point_of point.now)) }
{
    let mut lines = Vec::new(point.alloc);
    add_keys(point.alloc, &mut lines, point.store.keys())?;
    add_leases(&mut lines, &point.leases)?;
    lines.push(ReportLine::End {
        revision: point.store.keys().revision(),
        entries: point.entries,
    })?;
    Ok(lines)
}

/// The place of the first line that is not the one wanted there, and why it is wrong.
pub(crate) fn first_off(wanted: &[ReportLine], lines: &[ReportLine]) -> Option<(usize, WrongCause)>
    ensures same { result ≡ None → lines.now ≡ wanted.now }
    ensures off { IfSome result (λ off. (n : ℕ) → IsOff n wanted.now lines.now (n + off.0) off.1) }
{
    for (index, line) in lines.iter().enumerate() {
        if index >= wanted.len() {
            return Some((index, WrongCause::Count));
        }
        if !are_same_lines(&wanted[index], line) {
            return Some((index, WrongCause::Final));
        }
    }
    if lines.len() < wanted.len() {
        Some((lines.len(), WrongCause::Count))
    } else {
        None
    }
}
