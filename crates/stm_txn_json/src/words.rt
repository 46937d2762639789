//! The words that compares are spelled with.
ghost use Rattle.stm_json.specs.Returns.{Returns};
ghost use Rattle.stm_txn_json.specs.Words.{order_named, target_named};

use std::alloc::Global;
use stm_json::{Cause, ReadError, fault};
use stm_outcome::Order;

/// The first word of a compare: what it looks at.
#[derive(Clone, Copy, Debug, PartialEq, Eq)]
pub enum TargetWord {
    /// `version`
    Version,
    /// `create`
    Create,
    /// `mod`
    Mod,
    /// `lease`
    Lease,
    /// `value`
    Value,
}

/// What a compare that begins with a word looks at.
#[tactic(auto, unfolding(crate::specs::Words::target_named))]
pub(crate) fn target_word(alloc: Global, word: &str) -> Result<TargetWord, ReadError>
    ensures { Returns (λ t. t) result (target_named word.now) }
{
    match word {
        "version" => Ok(TargetWord::Version),
        "create" => Ok(TargetWord::Create),
        "mod" => Ok(TargetWord::Mod),
        "lease" => Ok(TargetWord::Lease),
        "value" => Ok(TargetWord::Value),
        _ => Err(fault(alloc, Cause::Shape)),
    }
}

/// The order of a word.
#[tactic(auto, unfolding(crate::specs::Words::order_named))]
pub(crate) fn order_word(alloc: Global, word: &str) -> Result<Order, ReadError>
    ensures { Returns (λ o. o) result (order_named word.now) }
{
    match word {
        "=" => Ok(Order::Equal),
        "!=" => Ok(Order::NotEqual),
        ">" => Ok(Order::Greater),
        "<" => Ok(Order::Less),
        _ => Err(fault(alloc, Cause::Shape)),
    }
}
