//! Whether a reply is that of a transaction that was answered so.
ghost use Rattle.std.specs.Prelude.{◌≡◌, ◌↔◌, IsTrue, map};
ghost use Rattle.stm_events.specs.Replies.{op_reply, txn_reply};

use crate::reply::{OpReply, Reply};
use crate::same::are_same_states;
use stm_txn::{OpAnswer, TxnAnswer};

/// Whether this is the reply to an operation that was answered so.
fn is_op_reply(reply: &OpReply, answer: &OpAnswer) -> bool
    ensures { IsTrue result ↔ reply.now ≡ op_reply answer.now }
{
    match answer {
        OpAnswer::Get(read) => match reply {
            OpReply::Get { revision, kv } => {
                *revision == read.revision && are_same_states(kv, &read.kv)
            }
            _ => false,
        },
        OpAnswer::Put => match reply {
            OpReply::Put => true,
            _ => false,
        },
        OpAnswer::Del(count) => match reply {
            OpReply::Del { count: deleted } => *deleted == *count,
            _ => false,
        },
    }
}

/// Whether these are the replies to the operations of a branch that were answered so, in their order.
fn are_op_replies(replies: &[OpReply], answers: &[OpAnswer]) -> bool
    ensures { IsTrue result ↔ replies.now ≡ map op_reply answers.now }
{
    match replies {
        [] => answers.is_empty(),
        [first, rest @ ..] => match answers {
            [] => false,
            [answer, others @ ..] => is_op_reply(first, answer) && are_op_replies(rest, others),
        },
    }
}

/// Whether this is the reply to a transaction that was answered so.
pub fn is_txn_reply(reply: &Reply, answer: &TxnAnswer) -> bool
    ensures { IsTrue result ↔ reply.now ≡ txn_reply answer.now }
{
    match reply {
        Reply::Txn {
            succeeded,
            revision,
            answers,
        } => {
            *succeeded == answer.succeeded
                && *revision == answer.revision
                && are_op_replies(answers.as_slice(), answer.answers.as_slice())
        }
        _ => false,
    }
}
