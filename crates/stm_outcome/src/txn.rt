//! A transaction: compares that pick one of two lists of operations.
ghost use Rattle.std.specs.Prelude.{◌≡◌, IfOk};
ghost use Rattle.stm_outcome.specs.declared.txn.Op.TheVariants.{Get, Put, Del};
ghost use Rattle.stm_outcome.specs.Operations.{key_of_op};

use crate::short_list::ShortList;
use std::alloc::{AllocError, Global};
use std::default::MadeWith;
use stm_history::Text;

/// A transaction: where all compares hold the success list runs, otherwise the failure list.
///
/// (etcd's API reference, "Transaction".) A clone of it, or of a part, is the same: its texts and lists are copies.
#[derive(Debug, Drop)]
pub struct Txn {
    /// The compares, which all have to hold of the keys as they are now for the success list to run. At most 128, or as many as the store takes.
    pub compares: ShortList<Compare>,
    /// The operations that run where all compares hold. At most 128, or as many as the store takes.
    pub success: ShortList<Op>,
    /// The operations that run where a compare fails. At most 128, or as many as the store takes.
    pub failure: ShortList<Op>,
}

/// A test of what a key is now. The stored side is on the left of the order.
#[derive(Debug, Drop)]
pub struct Compare {
    /// The key that is looked at. It is not empty.
    pub key: Text,
    /// What of the key is looked at, and the compare's side.
    pub target: Target,
    /// How the key's side has to compare with the compare's side.
    pub order: Order,
}

/// What a compare looks at, with what it is compared with.
///
/// An absent key has 0 in the four number targets, and fails every compare of its value.
#[derive(Debug, Drop)]
pub enum Target {
    /// The number of puts since the key was made.
    Version(u64),
    /// The revision that made the key.
    Create(u64),
    /// The revision of the key's last put.
    Mod(u64),
    /// The lease that the key is attached to, 0 for none.
    Lease(u64),
    /// The value. Texts compare by bytes.
    Value(Text),
}

/// The order that a compare asks for.
#[derive(Debug, Clone, Copy, PartialEq, Eq)]
pub enum Order {
    /// The two sides are equal.
    Equal,
    /// They are not equal. It fails for the value of an absent key.
    NotEqual,
    /// The stored side is above the compare's.
    Greater,
    /// The stored side is below the compare's.
    Less,
}

/// One operation of a branch.
#[derive(Debug, Drop)]
pub enum Op {
    /// Reads the key at a revision. 0 is the current state, with what the branch did before.
    Get { key: Text, rev: u64 },
    /// Puts the key, and attaches it to the lease (0 for none).
    Put { key: Text, value: Text, lease: u64 },
    /// Deletes the key.
    Del { key: Text },
}

impl Op {
    /// The key that the operation is about.
    pub fn key(&self) -> &Text
        ensures { result.now ≡ key_of_op self.now }
    {
        match self {
            Op::Get { key, .. } => key,
            Op::Put { key, .. } => key,
            Op::Del { key } => key,
        }
    }
}

impl MadeWith<Global> for Compare {
    fn made_with(alloc: Global) -> Compare {
        Compare {
            key: Text::new(String::new(alloc)),
            target: Target::Version(0),
            order: Order::Equal,
        }
    }
}

impl MadeWith<Global> for Op {
    fn made_with(alloc: Global) -> Op {
        Op::Del {
            key: Text::new(String::new(alloc)),
        }
    }
}

impl Clone for Target {
    ghost is_clone = { λ target copy. copy ≡ target };

    fn clone(&self) -> Result<Target, AllocError> {
        match self {
            Target::Version(n) => Ok(Target::Version(*n)),
            Target::Create(n) => Ok(Target::Create(*n)),
            Target::Mod(n) => Ok(Target::Mod(*n)),
            Target::Lease(n) => Ok(Target::Lease(*n)),
            Target::Value(text) => Ok(Target::Value(text.clone()?)),
        }
    }
}

impl Clone for Compare {
    ghost is_clone = { λ compare copy. copy ≡ compare };

    fn clone(&self) -> Result<Compare, AllocError> {
        let key = self.key.clone()?;
        let target = self.target.clone()?;
        Ok(Compare {
            key,
            target,
            order: self.order,
        })
    }
}

/// A get of a copy of this key.
fn get_of(key: &Text, rev: u64) -> Result<Op, AllocError>
    ensures { IfOk result (λ op. op ≡ Get key.now rev) }
{
    let key = key.clone()?;
    Ok(Op::Get { key, rev })
}

/// A put of copies of these texts.
fn put_of(key: &Text, value: &Text, lease: u64) -> Result<Op, AllocError>
    ensures { IfOk result (λ op. op ≡ Put key.now value.now lease) }
{
    let key = key.clone()?;
    let value = value.clone()?;
    Ok(Op::Put { key, value, lease })
}

/// A delete of a copy of this key.
fn del_of(key: &Text) -> Result<Op, AllocError>
    ensures { IfOk result (λ op. op ≡ Del key.now) }
{
    let key = key.clone()?;
    Ok(Op::Del { key })
}

impl Clone for Op {
    ghost is_clone = { λ op copy. copy ≡ op };

    fn clone(&self) -> Result<Op, AllocError> {
        match self {
            Op::Get { key, rev } => get_of(key, *rev),
            Op::Put { key, value, lease } => put_of(key, value, *lease),
            Op::Del { key } => del_of(key),
        }
    }
}

impl Clone for Txn {
    ghost is_clone = { λ txn copy. copy ≡ txn };

    fn clone(&self) -> Result<Txn, AllocError> {
        let compares = self.compares.clone()?;
        let Ok(success) = self.success.clone() else {
            drop(compares);
            return Err(AllocError);
        };
        let Ok(failure) = self.failure.clone() else {
            drop(success);
            drop(compares);
            return Err(AllocError);
        };
        Ok(Txn {
            compares,
            success,
            failure,
        })
    }
}
