//! What a new revision makes of the watchers.
ghost use Rattle.std.specs.Prelude.{◌≡◌, map, option_map};
ghost use Rattle.stm_keys.specs.Events.{change_of_event};
ghost use Rattle.stm_watch.specs.Kept.{Covers};
ghost use Rattle.stm_watch.specs.Pages.{AreFound, GroupsKeep, IsAny, IsTouched, KeepsAll, Reaches, ReachesAt, ReachesIn, ReachesOn, ReachesOver};
ghost use Rattle.stm_watch.specs.Touch.{touch, touch_key};

use crate::groups::{Groups, OF_RANGES};
use crate::index::Index;
use crate::page::{Page, RangeEntry};
use crate::ranges::Ranges;
use crate::shelf::Shelf;
use crate::slots::Slots;
use stm_history::Text;
use stm_keys::Event;

/// Notes a change of a key at a new revision for the watcher of an entry, where it watches that key. No text is compared for one that is ready, or is yet to
/// start: the watcher says so before its key or range is looked at.
fn touch_entry(slots: &mut Slots, index: &mut Index, entry: &RangeEntry, revision: u64, key: &Text)
    requires { Covers index.old slots.old }
    ensures slots { IsTouched revision key.now (λ i. Reaches key.now i entry.now) slots.old slots.new }
    ensures covers { Covers index.new slots.new }
{
    if slots.touch(entry.place, revision, key) {
        let ready = index.ready;
        index.move_to(entry.place, ready);
    }
}

/// Notes it for those of these watchers.
fn touch_entries(
    slots: &mut Slots,
    index: &mut Index,
    entries: &[RangeEntry],
    revision: u64,
    key: &Text,
)
    requires { Covers index.old slots.old }
    ensures slots { IsTouched revision key.now (λ i. IsAny (Reaches key.now i) entries.now) slots.old slots.new }
    ensures covers { Covers index.new slots.new }
{
    for entry in entries {
        touch_entry(slots, index, entry, revision, key);
    }
}

/// Notes it for those on a page, if it may concern one of them.
fn touch_page(slots: &mut Slots, index: &mut Index, page: &Page, revision: u64, key: &Text)
    requires { Covers index.old slots.old }
    ensures slots { IsTouched revision key.now (λ i. ReachesOn revision key.now i page.now) slots.old slots.new }
    ensures covers { Covers index.new slots.new }
{
    if page.reach.may_concern(revision, key) {
        touch_entries(slots, index, page.entries.as_slice(), revision, key);
    }
}

/// Notes it for those on these pages.
fn touch_pages(slots: &mut Slots, index: &mut Index, pages: &[Page], revision: u64, key: &Text)
    requires { Covers index.old slots.old }
    ensures slots { IsTouched revision key.now (λ i. IsAny (ReachesOn revision key.now i) pages.now) slots.old slots.new }
    ensures covers { Covers index.new slots.new }
{
    for page in pages {
        touch_page(slots, index, page, revision, key);
    }
}

/// Notes it for those on a shelf, if it may concern one of them.
fn touch_shelf(slots: &mut Slots, index: &mut Index, shelf: &Shelf, revision: u64, key: &Text)
    requires { Covers index.old slots.old }
    ensures slots { IsTouched revision key.now (λ i. ReachesOver revision key.now i shelf.now) slots.old slots.new }
    ensures covers { Covers index.new slots.new }
{
    if shelf.reach.may_concern(revision, key) {
        touch_pages(slots, index, shelf.pages.as_slice(), revision, key);
    }
}

/// Notes it for those on these shelves.
fn touch_shelves(slots: &mut Slots, index: &mut Index, shelves: &[Shelf], revision: u64, key: &Text)
    requires { Covers index.old slots.old }
    ensures slots { IsTouched revision key.now (λ i. IsAny (ReachesOver revision key.now i) shelves.now) slots.old slots.new }
    ensures covers { Covers index.new slots.new }
{
    for shelf in shelves {
        touch_shelf(slots, index, shelf, revision, key);
    }
}

/// Notes it for those on shelves. Where that makes one ready, the bounds of its page and its shelf are to leave it out.
fn touch_ranges(
    slots: &mut Slots,
    index: &mut Index,
    ranges: &mut Ranges,
    revision: u64,
    key: &Text,
)
    requires { Covers index.old slots.old }
    ensures slots { IsTouched revision key.now (λ i. ReachesIn revision key.now i ranges.old) slots.old slots.new }
    ensures covers { Covers index.new slots.new }
    ensures kept { KeepsAll ranges.old ranges.new }
{
    let before = index.ready_count();
    touch_shelves(slots, index, ranges.shelves.as_slice(), revision, key);
    let after = index.ready_count();
    if after > before {
        ranges.unsettle(key);
    }
}

/// Notes it for those of a group.
fn touch_group(
    slots: &mut Slots,
    index: &mut Index,
    groups: &mut Groups,
    group: Option<usize>,
    revision: u64,
    key: &Text,
)
    requires { Covers index.old slots.old }
    ensures slots { IsTouched revision key.now (λ i. ReachesAt revision key.now i groups.old.groups.items group) slots.old slots.new }
    ensures covers { Covers index.new slots.new }
    ensures kept { GroupsKeep groups.old groups.new }
{
    if let Some(group) = group {
        if group < groups.groups.len() {
            touch_ranges(slots, index, &mut groups.groups[group], revision, key);
        }
    }
}

/// Notes a change of a key at a new revision for all watchers that it concerns.
fn touch_of(slots: &mut Slots, index: &mut Index, groups: &mut Groups, revision: u64, key: &Text)
    requires { AreFound index.old groups.old slots.old }
    ensures slots { slots.new ≡ map (option_map (touch_key revision key.now)) slots.old }
    ensures found { AreFound index.new groups.new slots.new }
{
    let its_own = groups.of_key(key);
    groups.settle(its_own, slots, revision);
    groups.settle(Some(OF_RANGES), slots, revision);
    touch_group(slots, index, groups, its_own, revision, key);
    touch_group(slots, index, groups, Some(OF_RANGES), revision, key);
}

/// Notes a new revision with these events for all watchers that it concerns.
pub(crate) fn touch_all(
    slots: &mut Slots,
    index: &mut Index,
    groups: &mut Groups,
    revision: u64,
    events: &[Event],
)
    requires { AreFound index.old groups.old slots.old }
    ensures slots { slots.new ≡ map (option_map (touch revision (map change_of_event events.now))) slots.old }
    ensures found { AreFound index.new groups.new slots.new }
{
    for event in events {
        touch_of(slots, index, groups, revision, event.key());
    }
}
