//! The answers of a transaction that reads.
ghost use Rattle.std.specs.Prelude.{◌≡◌, [], ◌∷◌, ◌++◌, IfOk, OnOk};
ghost use Rattle.stm_journal.specs.Reads.{reads_in};

use std::alloc::{AllocError, Global};
use stm_history::ReadAnswer;
use stm_txn::{OpAnswer, ShortList};

/// Adds the answer, where it is that of a read.
fn push_read(reads: &mut Vec<ReadAnswer>, answer: OpAnswer) -> Result<(), AllocError>
    ensures { OnOk result (reads.new.items ≡ reads.old.items ++ reads_in (answer ∷ [])) }
{
    match answer {
        OpAnswer::Get(read) => {
            reads.push(read)?;
            Ok(())
        }
        OpAnswer::Put => Ok(()),
        OpAnswer::Del(_) => Ok(()),
    }
}

/// The answers of the reads among these, in order.
pub fn take_reads(
    alloc: Global,
    answers: ShortList<OpAnswer>,
) -> Result<Vec<ReadAnswer>, AllocError>
    ensures { IfOk result (λ reads. reads.items ≡ reads_in answers) }
{
    let mut reads = Vec::with_capacity(alloc, answers.len())?;
    for answer in answers.into_vec()? {
        push_read(&mut reads, answer)?;
    }
    Ok(reads)
}
