//! Copies of the parts of the watchers.
ghost use Rattle.std.specs.Prelude.{◌≡◌, List, Option, ℕ, IfOk};
ghost use Rattle.indexmap.specs.IndexMap.{get_by_text};
ghost use Rattle.stm_watch.specs.declared.page.RangeEntry.{RangeEntry as Entry};
ghost use Rattle.stm_watch.specs.declared.watched.Watcher.{Watcher as Kept};
ghost use Rattle.stm_watch.specs.Pages.{HasIn};

use crate::page::RangeEntry;
use crate::ranges::Ranges;
use crate::watched::Watcher;
use indexmap::IndexMap;
use std::alloc::AllocError;
use stm_lists::{Lists, NodeId};

/// A copy of lists of places. The lists and their nodes keep their ids.
pub(crate) fn copy_lists(lists: &Lists<usize>) -> Result<Lists<usize>, AllocError>
    ensures { IfOk result (λ copy. copy.lists ≡ lists.now.lists) }
{
    let copy = lists.clone()?;
    Ok(copy)
}

/// A copy of the table of the keys' groups.
pub(crate) fn copy_keys(
    keys: &IndexMap<String, usize>,
) -> Result<IndexMap<String, usize>, AllocError>
    ensures { IfOk result (λ copy. (key : List ℕ) → get_by_text copy key ≡ get_by_text keys.now key) }
{
    let copy = keys.clone()?;
    Ok(copy)
}

/// A copy of the watchers' nodes.
pub(crate) fn copy_nodes(nodes: &Vec<Option<NodeId>>) -> Result<Vec<Option<NodeId>>, AllocError>
    ensures { IfOk result (λ copy. copy.items ≡ nodes.now.items) }
{
    let copy = nodes.clone()?;
    Ok(copy)
}

/// A copy of what stands at the places.
pub(crate) fn copy_watchers(
    watchers: &Vec<Option<Watcher>>,
) -> Result<Vec<Option<Watcher>>, AllocError>
    ensures { IfOk result (λ copy. copy.items ≡ watchers.now.items) }
{
    let copy = watchers.clone()?;
    Ok(copy)
}

/// A copy of the entries of a page.
pub(crate) fn copy_entries(entries: &Vec<RangeEntry>) -> Result<Vec<RangeEntry>, AllocError>
    ensures { IfOk result (λ copy. copy.items ≡ entries.now.items) }
{
    let copy = entries.clone()?;
    Ok(copy)
}

/// A copy of the groups, in which no watcher is missing.
pub(crate) fn copy_groups(groups: &Vec<Ranges>) -> Result<Vec<Ranges>, AllocError>
    ensures { IfOk result (λ copy. (ws : List (Option Kept)) (g : ℕ) (e : Entry) → HasIn ws groups.now.items g e → HasIn ws copy.items g e) }
{
    let copy = groups.clone()?;
    Ok(copy)
}
