//! How answers of a hall are shown in the texts of the examples.
use std::alloc::AllocError;
use stm_hall::{CommitRefusal, Entry, FetchRefusal, Verdict};
use stm_history::ReadAnswer;
use stm_txn::{AdvanceRefused, Expired, OpAnswer, Refusal, TxnAnswer};

/// A key, its state, and the revisions that it is of and was read at.
fn report_read(reported: &mut String, answer: &ReadAnswer) -> Result<(), AllocError> {
    write!(reported, " {} ", answer.key)?;
    match &answer.kv {
        None => reported.push_str("absent")?,
        Some(state) => write!(reported, "{}@{}", state.value, state.mod_rev)?,
    }
    write!(reported, " at {} of {}", answer.of_rev, answer.revision)
}

/// The revision of an answer, and what was read.
fn report_answer(reported: &mut String, answer: &TxnAnswer) -> Result<(), AllocError> {
    write!(reported, "{}:", answer.revision)?;
    for op in answer.answers.as_slice() {
        if let OpAnswer::Get(read) = op {
            report_read(reported, read)?;
        }
    }
    Ok(())
}

/// What was fetched, or why it was not.
pub(crate) fn report_fetched(
    reported: &mut String,
    fetched: &Result<TxnAnswer, FetchRefusal>,
) -> Result<(), AllocError> {
    match fetched {
        Ok(answer) => report_answer(reported, answer),
        Err(FetchRefusal::Behind { seen, now }) => write!(reported, "Behind {seen} {now}"),
        Err(FetchRefusal::Store(cause)) => write!(reported, "{cause}"),
    }
}

/// What was fetched of one key, or why it was not.
pub(crate) fn report_one_fetched(
    reported: &mut String,
    fetched: &Result<ReadAnswer, FetchRefusal>,
) -> Result<(), AllocError> {
    match fetched {
        Ok(read) => {
            write!(reported, "{}:", read.revision)?;
            report_read(reported, read)
        }
        Err(FetchRefusal::Behind { seen, now }) => write!(reported, "Behind {seen} {now}"),
        Err(FetchRefusal::Store(cause)) => write!(reported, "{cause}"),
    }
}

/// The revision of a foreign transaction, or why it was refused.
pub(crate) fn report_foreign(
    reported: &mut String,
    made: &Result<TxnAnswer, Refusal>,
) -> Result<(), AllocError> {
    match made {
        Ok(answer) => write!(reported, "{}", answer.revision),
        Err(refusal) => write!(reported, "{refusal}"),
    }
}

fn report_expired(reported: &mut String, expired: &[Expired]) -> Result<(), AllocError> {
    reported.push_str("expired")?;
    for lease in expired {
        write!(reported, " {}@{}", lease.id, lease.revision)?;
    }
    Ok(())
}

/// The leases that an advance ended, or why it stopped.
pub(crate) fn report_advanced(
    reported: &mut String,
    advanced: &Result<Vec<Expired>, AdvanceRefused>,
) -> Result<(), AllocError> {
    match advanced {
        Ok(expired) => report_expired(reported, expired.as_slice()),
        Err(stopped) => write!(reported, "{stopped}"),
    }
}

fn report_verdict(reported: &mut String, verdict: &Verdict) -> Result<(), AllocError> {
    match verdict {
        Verdict::Committed { index, revision } => write!(reported, "Committed {index} {revision}"),
        Verdict::Failed {
            key,
            seen,
            now,
            answers,
        } => {
            write!(reported, "Failed {key} seen {seen} now {now}:")?;
            for read in answers.as_slice() {
                report_read(reported, read)?;
            }
            Ok(())
        }
    }
}

/// The verdict on a commit, or why there is none.
pub(crate) fn report_judged(
    reported: &mut String,
    judged: &Result<Verdict, CommitRefusal>,
) -> Result<(), AllocError> {
    match judged {
        Ok(verdict) => report_verdict(reported, verdict),
        Err(CommitRefusal::Unvouched { key }) => write!(reported, "Unvouched {key}"),
        Err(CommitRefusal::Store(cause)) => write!(reported, "{cause}"),
    }
}

/// What changed the store since the hall was made.
pub(crate) fn report_entries(reported: &mut String, entries: &[Entry]) -> Result<(), AllocError> {
    reported.push_str("entries")?;
    for entry in entries {
        match entry {
            Entry::Foreign { .. } => reported.push_str(" foreign")?,
            Entry::Expire { id } => write!(reported, " expire {id}")?,
            _ => reported.push_str(" another")?,
        }
    }
    Ok(())
}
