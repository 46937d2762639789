//! How often commits failed over each key.
ghost use Rattle.std.specs.Prelude.{◌≡◌, ◌++◌, IfOk, OnOk};
ghost use Rattle.stm_job.specs.Ends.{all_given_up_over, all_lost, failed_keys, given_up_over};
ghost use Rattle.stm_job_texts.specs.Tallies.{Counts};

use crate::tally::count_one;
use std::alloc::{AllocError, Global};
use std::collections::BTreeMap;
use stm_history::{Sequence, Text};
use stm_job::JobEnd;

/// Adds copies of keys.
fn push_keys(all: &mut Vec<Text>, keys: &[Text]) -> Result<(), AllocError>
    ensures { OnOk result (all.new.items ≡ all.old.items ++ keys.now) }
{
    for key in keys {
        all.push(key.clone()?)?;
    }
    Ok(())
}

/// Adds copies of the keys of lists.
fn push_lost(all: &mut Vec<Text>, lost: &[Sequence<Text>]) -> Result<(), AllocError>
    ensures { OnOk result (all.new.items ≡ all.old.items ++ all_lost lost.now) }
{
    for keys in lost {
        push_keys(all, keys.as_slice())?;
    }
    Ok(())
}

/// Adds a copy of the key over which the last commit of a job failed that gave up.
fn push_given_up(all: &mut Vec<Text>, end: &JobEnd) -> Result<(), AllocError>
    ensures { OnOk result (all.new.items ≡ all.old.items ++ given_up_over end.now) }
{
    match end {
        JobEnd::GaveUp { key } => {
            all.push(key.clone()?)?;
            Ok(())
        }
        _ => Ok(()),
    }
}

/// Adds copies of those of these ends.
fn push_all_given_up(all: &mut Vec<Text>, ends: &[JobEnd]) -> Result<(), AllocError>
    ensures { OnOk result (all.new.items ≡ all.old.items ++ all_given_up_over ends.now) }
{
    for end in ends {
        push_given_up(all, end)?;
    }
    Ok(())
}

/// The keys over which commits failed, one for each.
fn failed_keys(
    alloc: Global,
    ends: &[JobEnd],
    lost: &[Sequence<Text>],
) -> Result<Vec<Text>, AllocError>
    ensures { IfOk result (λ all. all.items ≡ failed_keys ends.now lost.now) }
{
    let mut all = Vec::new(alloc);
    push_lost(&mut all, lost)?;
    push_all_given_up(&mut all, ends)?;
    Ok(all)
}

/// How often each of these texts came.
fn tally_of(alloc: Global, texts: &[Text]) -> Result<BTreeMap<Text, u64>, AllocError>
    ensures { IfOk result (λ tally. Counts texts.now tally.entries) }
{
    let mut tally = BTreeMap::new(alloc);
    for before in 0..texts.len() {
        let text = texts[before].clone()?;
        count_one(&mut tally, text, before as u64)?;
    }
    Ok(tally)
}

/// How often commits failed over each key, of jobs with these ends, to which they came after commits that failed over these keys. It fails where an
/// allocation failed.
pub(crate) fn conflicts_of(
    alloc: Global,
    ends: &[JobEnd],
    lost: &[Sequence<Text>],
) -> Result<BTreeMap<Text, u64>, AllocError>
    ensures { IfOk result (λ tally. Counts (failed_keys ends.now lost.now) tally.entries) }
{
    let texts = failed_keys(alloc, ends, lost)?;
    tally_of(alloc, texts.as_slice())
}
