//! Compares of a transaction.
ghost use Rattle.std.specs.Prelude.{◌≡◌, IfOk};
ghost use Rattle.stm_outcome.specs.declared.txn.Target.TheVariants.{Create as CreateTarget, Value as ValueTarget};
ghost use Rattle.stm_outcome.specs.declared.txn.Order.TheVariants.{Equal, NotEqual, Greater, Less};
ghost use Rattle.stm_requests.specs.declared.compares.Number.TheVariants.{Version, Create, Mod, Lease};
ghost use Rattle.stm_requests.specs.Requests.{compare_of, number_of};

use std::alloc::{AllocError, Global};
use stm_history::Text;
use stm_outcome::{Compare, Order, Target};

/// The numbers of a key, each of which is 0 where the key is absent.
#[derive(Debug, Clone, Copy)]
pub enum Number {
    /// The number of puts since the key was made.
    Version,
    /// The revision that made the key.
    Create,
    /// The revision of the key's last put.
    Mod,
    /// The lease that the key is attached to, 0 for none.
    Lease,
}

/// A number of a key, that a transaction compares.
#[derive(Debug, Drop)]
pub struct KeyNumber {
    /// The key.
    pub key: Text,
    /// Which of its numbers.
    pub number: Number,
}

/// The compare of a number of a key with another one.
fn compare_number(side: KeyNumber, other: u64, order: Order) -> Compare
    ensures { result ≡ compare_of side.key side.number other order }
{
    let KeyNumber { key, number } = side;
    let target = match number {
        Number::Version => Target::Version(other),
        Number::Create => Target::Create(other),
        Number::Mod => Target::Mod(other),
        Number::Lease => Target::Lease(other),
    };
    Compare { key, target, order }
}

impl KeyNumber {
    /// It is this number.
    pub fn equals(self, other: u64) -> Compare
        ensures { result ≡ compare_of self.key self.number other Equal }
    {
        compare_number(self, other, Order::Equal)
    }

    /// It is another number.
    pub fn differs_from(self, other: u64) -> Compare
        ensures { result ≡ compare_of self.key self.number other NotEqual }
    {
        compare_number(self, other, Order::NotEqual)
    }

    /// It is above this number.
    pub fn is_above(self, other: u64) -> Compare
        ensures { result ≡ compare_of self.key self.number other Greater }
    {
        compare_number(self, other, Order::Greater)
    }

    /// It is below this number.
    pub fn is_below(self, other: u64) -> Compare
        ensures { result ≡ compare_of self.key self.number other Less }
    {
        compare_number(self, other, Order::Less)
    }
}

/// A number of a key. It fails only where an allocation failed, as all calls beside it.
fn number_of(alloc: Global, key: &str, number: Number) -> Result<KeyNumber, AllocError>
    ensures { IfOk result (λ side. side ≡ number_of key.now number) }
{
    let key = Text::copy_of(alloc, key)?;
    Ok(KeyNumber { key, number })
}

/// The number of puts of a key since it was made, 0 where it is absent.
pub fn version(alloc: Global, key: &str) -> Result<KeyNumber, AllocError>
    ensures { IfOk result (λ side. side ≡ number_of key.now Version) }
{
    number_of(alloc, key, Number::Version)
}

/// The revision that made a key, 0 where it is absent.
pub fn create_rev(alloc: Global, key: &str) -> Result<KeyNumber, AllocError>
    ensures { IfOk result (λ side. side ≡ number_of key.now Create) }
{
    number_of(alloc, key, Number::Create)
}

/// The revision of the last put of a key, 0 where it is absent.
pub fn mod_rev(alloc: Global, key: &str) -> Result<KeyNumber, AllocError>
    ensures { IfOk result (λ side. side ≡ number_of key.now Mod) }
{
    number_of(alloc, key, Number::Mod)
}

/// The lease that a key is attached to, 0 for none.
pub fn lease(alloc: Global, key: &str) -> Result<KeyNumber, AllocError>
    ensures { IfOk result (λ side. side ≡ number_of key.now Lease) }
{
    number_of(alloc, key, Number::Lease)
}

/// Holds where the key is absent.
pub fn absent(alloc: Global, key: &str) -> Result<Compare, AllocError>
    ensures { IfOk result (λ compare. compare ≡ compare_of key.now Create 0 Equal) }
{
    let side = create_rev(alloc, key)?;
    Ok(side.equals(0))
}

/// Holds where the key is present.
pub fn present(alloc: Global, key: &str) -> Result<Compare, AllocError>
    ensures { IfOk result (λ compare. compare ≡ compare_of key.now Create 0 Greater) }
{
    let side = create_rev(alloc, key)?;
    Ok(side.is_above(0))
}

/// Holds where the key is present and has this value.
pub fn value_is(alloc: Global, key: &str, value: &str) -> Result<Compare, AllocError>
    ensures { IfOk result (λ compare. compare ≡ record { key = key.now; target = ValueTarget value.now; order = Equal }) }
{
    let key = Text::copy_of(alloc, key)?;
    let value = Text::copy_of(alloc, value)?;
    Ok(Compare {
        key,
        target: Target::Value(value),
        order: Order::Equal,
    })
}
