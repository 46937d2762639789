//! The look at the ends of jobs, once nobody is at the hall.
ghost use Rattle.std.specs.Prelude.{◌≡◌, ◌+◌, ◌<◌, ◌≤◌, ◌↔◌, ◌||◌, ℕ, true, false, length, get_or, set, slice_get, IfOk, IfSome, IfNone, IsTrue, Some};
ghost use Rattle.stm_hall.specs.Showing.{IsShown, AreShownAt};
ghost use Rattle.stm_workers.specs.Ends.{AreOfOneState, MayHaveStopped};
ghost use Rattle.stm_workers.specs.Ends.{entry_named, names_entry, IsCommitOf, IsGivenUp, IsBorneOut, BorneOutAt, StandsAt, AllStand};
ghost use Rattle.stm_workers.specs.Marks.{NamesWithin, IsNewAt, is_marked, revision_of};

use crate::start_point::StartPoint;
use std::alloc::{AllocError, Global};
use stm_entries::Entry;
use stm_hall::{Hall, ReadAnswer};
use stm_job::{Job, JobEnd};

/// Whether an entry is a commit of this job after which the store's revision was this.
fn is_commit_of(entry: &Entry, job: &Job, after: u64) -> bool
    ensures { IsTrue result ↔ IsCommitOf job.now after (Some entry.now) }
{
    match entry {
        Entry::Program {
            program,
            level,
            revision,
            ..
        } => {
            if !program.is_same(&job.program) {
                return false;
            }
            if !(*level).is_same(job.level) {
                return false;
            }
            *revision == after
        }
        _ => false,
    }
}

/// The entry at a place.
fn entry_at(entries: &[Entry], index: usize) -> &Entry
    requires { index < length entries.now }
    ensures { slice_get entries.now index ≡ Some result.now }
{
    &entries[index]
}

/// Whether the entry at a place is that commit, made since the run began.
fn has_commit(entries: &[Entry], begun: StartPoint, job: &Job, index: usize, after: u64) -> bool
    ensures { IsTrue result ↔ ((begun.entries ≤ index) × IsCommitOf job.now after (slice_get entries.now index)) }
{
    if index < begun.entries {
        return false;
    }
    if index >= entries.len() {
        return false;
    }
    is_commit_of(entry_at(entries, index), job, after)
}

/// Whether a counter has grown by at least `many` since it was this.
fn has_grown_by(now: u64, since: u64, many: u32) -> bool
    ensures { IsTrue result ↔ since + many ≤ now }
{
    if now < since {
        return false;
    }
    now - since >= many as u64
}

/// Whether a job may have sent its last commit over a key that others changed.
fn may_have_given_up(hall: &Hall, begun: StartPoint, job: &Job, key: &str) -> bool
    ensures { IsTrue result ↔ IsGivenUp begun hall.now job.now key.now }
{
    if !job.level.is_comparing() {
        return false;
    }
    if !has_grown_by(hall.revision(), begun.revision, job.limit) {
        return false;
    }
    hall.is_changed_above(key, begun.revision)
}

/// The revision that reads are of: the one that the first of them shows, and where nothing was read the one from which the run went on.
fn revision_of(begun: StartPoint, reads: &[ReadAnswer]) -> u64
    ensures { result ≡ revision_of begun.revision reads.now }
{
    match reads {
        [] => begun.revision,
        [first, ..] => first.of_rev,
    }
}

/// Whether the hall's history shows an answer at this revision.
fn is_shown_at(hall: &Hall, revision: u64, read: &ReadAnswer) -> bool
    ensures { IsTrue result ↔ ((read.now.of_rev ≡ revision) × IsShown hall.now.standing.history read.now) }
{
    if read.of_rev != revision {
        return false;
    }
    hall.shows(read)
}

/// The answer at a place.
fn read_at(reads: &[ReadAnswer], place: usize) -> &ReadAnswer
    requires { place < length reads.now }
    ensures { slice_get reads.now place ≡ Some result.now }
{
    &reads[place]
}

/// Whether it shows each of these at this revision.
fn are_shown_at(hall: &Hall, revision: u64, reads: &[ReadAnswer]) -> bool
    ensures { IsTrue result ↔ AreShownAt hall.now.standing.history revision reads.now }
{
    for place in 0..reads.len() {
        if !is_shown_at(hall, revision, read_at(reads, place)) {
            return false;
        }
    }
    true
}

/// Whether reads are of one state of the hall's history since the run began.
fn are_of_one_state(hall: &Hall, begun: StartPoint, reads: &[ReadAnswer]) -> bool
    ensures { IsTrue result ↔ AreOfOneState begun hall.now reads.now }
{
    let revision = revision_of(begun, reads);
    if revision < begun.revision {
        return false;
    }
    if hall.revision() < revision {
        return false;
    }
    are_shown_at(hall, revision, reads)
}

/// Whether a job may have aborted, or come to a fault, on these reads.
fn may_have_stopped(hall: &Hall, begun: StartPoint, job: &Job, reads: &[ReadAnswer]) -> bool
    ensures { IsTrue result ↔ MayHaveStopped begun hall.now job.now reads.now }
{
    if !job.level.is_serializable() {
        return true;
    }
    are_of_one_state(hall, begun, reads)
}

/// Whether what an end says of the hall is so.
fn is_borne_out(hall: &Hall, begun: StartPoint, job: &Job, end: &JobEnd) -> bool
    ensures { IsTrue result ↔ IsBorneOut begun hall.now job.now end.now }
{
    match end {
        JobEnd::Committed { index, revision } => {
            has_commit(hall.entries(), begun, job, *index, *revision)
        }
        JobEnd::GaveUp { key } => may_have_given_up(hall, begun, job, key.as_str()),
        JobEnd::Aborted { reads, .. } => may_have_stopped(hall, begun, job, reads.as_slice()),
        JobEnd::Faulted { reads, .. } => may_have_stopped(hall, begun, job, reads.as_slice()),
        JobEnd::Refused(_) => true,
    }
}

/// The job at a place.
pub(crate) fn job_at(jobs: &[Job], place: usize) -> &Job
    requires { place < length jobs.now }
    ensures { slice_get jobs.now place ≡ Some result.now }
{
    &jobs[place]
}

/// The end at a place.
fn end_at(ends: &[JobEnd], place: usize) -> &JobEnd
    requires { place < length ends.now }
    ensures { slice_get ends.now place ≡ Some result.now }
{
    &ends[place]
}

/// Whether what the end at a place says of the hall is so.
fn is_borne_out_at(
    jobs: &[Job],
    ends: &[JobEnd],
    place: usize,
    begun: StartPoint,
    hall: &Hall,
) -> bool
    requires { (place < length jobs.now) × (place < length ends.now) }
    ensures { IsTrue result ↔ BorneOutAt begun hall.now jobs.now ends.now place }
{
    is_borne_out(hall, begun, job_at(jobs, place), end_at(ends, place))
}

/// The first job whose end the hall does not bear out.
fn find_unborne(jobs: &[Job], ends: &[JobEnd], begun: StartPoint, hall: &Hall) -> Option<usize>
    requires { length ends.now ≡ length jobs.now }
    ensures clear { IfNone result ((place : ℕ) → BorneOutAt begun hall.now jobs.now ends.now place) }
    ensures fault { IfSome result (λ place. (place < length jobs.now) × (BorneOutAt begun hall.now jobs.now ends.now place → ⊥)) }
{
    for place in 0..ends.len() {
        if !is_borne_out_at(jobs, ends, place, begun, hall) {
            return Some(place);
        }
    }
    None
}

/// Marks an entry, and returns whether it was marked before.
fn set_mark(marks: &mut Vec<bool>, index: usize) -> bool
    requires { index < length marks.old.items }
    ensures was { result ≡ get_or marks.old.items index false }
    ensures marks { marks.new.items ≡ set marks.old.items index true }
{
    let was = marks[index];
    marks[index] = true;
    was
}

/// Marks the entry that an end names, and returns whether it was marked before.
fn mark(marks: &mut Vec<bool>, end: &JobEnd) -> bool
    requires { IfSome (entry_named end.now) (λ index. index < length marks.old.items) }
    ensures reported { result ≡ is_marked marks.old.items (entry_named end.now) }
    ensures marks { (index : ℕ) → index < length marks.old.items → get_or marks.new.items index false ≡ (names_entry index end.now || get_or marks.old.items index false) }
    ensures length { length marks.new.items ≡ length marks.old.items }
{
    match end {
        JobEnd::Committed { index, .. } => set_mark(marks, *index),
        JobEnd::Aborted { .. } => false,
        JobEnd::Faulted { .. } => false,
        JobEnd::Refused(_) => false,
        JobEnd::GaveUp { .. } => false,
    }
}

/// The first job whose end names an entry that the end of an earlier job names.
fn find_repeated(
    alloc: Global,
    ends: &[JobEnd],
    entries: usize,
) -> Result<Option<usize>, AllocError>
    requires { NamesWithin ends.now entries }
    ensures clear { IfOk result (λ found. IfNone found ((place : ℕ) → IsNewAt ends.now place)) }
    ensures fault { IfOk result (λ found. IfSome found (λ place. (place < length ends.now) × (IsNewAt ends.now place → ⊥))) }
{
    let mut marks = Vec::from_elem(alloc, false, entries)?;
    for place in 0..ends.len() {
        if mark(&mut marks, end_at(ends, place)) {
            return Ok(Some(place));
        }
    }
    Ok(None)
}

/// The audit of ends that the hall bears out: whether each names an entry of its own.
fn audit_names(
    alloc: Global,
    jobs: &[Job],
    ends: &[JobEnd],
    begun: StartPoint,
    hall: &Hall,
) -> Result<Option<usize>, AllocError>
    requires many { length ends.now ≡ length jobs.now }
    requires borne { (place : ℕ) → BorneOutAt begun hall.now jobs.now ends.now place }
    ensures clear { IfOk result (λ found. IfNone found (AllStand begun hall.now jobs.now ends.now)) }
    ensures fault { IfOk result (λ found. IfSome found (λ place. (place < length jobs.now) × (StandsAt begun hall.now jobs.now ends.now place → ⊥))) }
{
    match find_repeated(alloc, ends, hall.entries().len())? {
        None => Ok(None),
        Some(place) => Ok(Some(place)),
    }
}

/// A job whose end the hall does not bear out, or whose entry an earlier job has named: one of the former, or else one of the latter.
/// `None`: each end stands.
///
/// There are as many ends as jobs. `AllocError`: an allocation failed.
pub fn audit(
    alloc: Global,
    jobs: &[Job],
    ends: &[JobEnd],
    begun: StartPoint,
    hall: &Hall,
) -> Result<Option<usize>, AllocError>
    requires { length ends.now ≡ length jobs.now }
    ensures clear { IfOk result (λ found. IfNone found (AllStand begun hall.now jobs.now ends.now)) }
    ensures fault { IfOk result (λ found. IfSome found (λ place. (place < length jobs.now) × (StandsAt begun hall.now jobs.now ends.now place → ⊥))) }
{
    match find_unborne(jobs, ends, begun, hall) {
        Some(place) => Ok(Some(place)),
        None => audit_names(alloc, jobs, ends, begun, hall),
    }
}
