//! The words that name a recipe, and what can be wrong with them.
ghost use Rattle.std.specs.Prelude.{◌≡◌};
ghost use Rattle.stm_recipe_lines.specs.FaultTexts.{arguments_text, wanted_text, fault_text};

use std::error::Error;
use std::fmt;

/// The name of a recipe and up to three arguments, as a command line has them.
#[derive(Clone, Copy, Debug, PartialEq, Eq)]
pub struct RecipeWords<'a> {
    /// The name.
    pub name: &'a str,
    /// The first argument.
    pub first: Option<&'a str>,
    /// The second argument.
    pub second: Option<&'a str>,
    /// The third argument.
    pub third: Option<&'a str>,
}

/// Which recipe it is.
#[derive(Clone, Copy, Debug, PartialEq, Eq)]
pub enum RecipeKind {
    /// `transfer FROM TO AMOUNT`
    Transfer,
    /// `deposit ACCOUNT AMOUNT`
    Deposit,
    /// `enqueue QUEUE ITEM`
    Enqueue,
    /// `dequeue QUEUE`
    Dequeue,
    /// `reserve_slot SLOT HOLDER LEASE`
    ReserveSlot,
    /// `release_slot SLOT HOLDER`
    ReleaseSlot,
}

impl RecipeKind {
    /// Which arguments the recipe takes, in a sentence without an end.
    pub fn arguments(self) -> &'static str
        ensures { result.now ≡ arguments_text self }
    {
        match self {
            RecipeKind::Transfer => "transfer takes FROM TO AMOUNT",
            RecipeKind::Deposit => "deposit takes ACCOUNT AMOUNT",
            RecipeKind::Enqueue => "enqueue takes QUEUE ITEM",
            RecipeKind::Dequeue => "dequeue takes QUEUE",
            RecipeKind::ReserveSlot => "reserve_slot takes SLOT HOLDER LEASE",
            RecipeKind::ReleaseSlot => "release_slot takes SLOT HOLDER",
        }
    }
}

/// An argument that is a text.
#[derive(Clone, Copy, Debug, PartialEq, Eq)]
pub enum Argument {
    /// The account that pays.
    From,
    /// The account that is paid.
    To,
    /// The account of a deposit.
    Account,
    /// The name of a queue.
    Queue,
    /// The item that joins a queue.
    Item,
    /// The key of a slot.
    Slot,
    /// Who holds a slot.
    Holder,
}

impl Argument {
    /// What the argument has to be, in a sentence without an end.
    pub fn wanted(self) -> &'static str
        ensures { result.now ≡ wanted_text self }
    {
        match self {
            Argument::From => "FROM has to have 1 to 1024 bytes",
            Argument::To => "TO has to have 1 to 1024 bytes",
            Argument::Account => "ACCOUNT has to have 1 to 1024 bytes",
            Argument::Queue => "QUEUE has to have 1 to 1024 bytes",
            Argument::Item => "ITEM has to have 1 to 1024 bytes",
            Argument::Slot => "SLOT has to have 1 to 1024 bytes",
            Argument::Holder => "HOLDER has to have 1 to 1024 bytes",
        }
    }
}

/// Why words spell no recipe.
#[derive(Clone, Copy, Debug, PartialEq, Eq)]
pub enum WordsFault {
    /// No recipe has the name.
    UnknownName,
    /// The recipe of the name takes fewer or more arguments.
    Count(RecipeKind),
    /// The argument is empty or has more than 1024 bytes.
    Text(Argument),
    /// The amount is no whole number from 0 to 4294967295.
    Amount,
    /// The lease is no whole number from 0 to 9223372036854775807.
    Lease,
}

impl WordsFault {
    /// What is wrong, and what is allowed, in a sentence without an end.
    pub fn text(self) -> &'static str
        ensures { result.now ≡ fault_text self }
    {
        match self {
            WordsFault::UnknownName => {
                "NAME has to be transfer, deposit, enqueue, dequeue, reserve_slot or release_slot"
            }
            WordsFault::Count(kind) => kind.arguments(),
            WordsFault::Text(argument) => argument.wanted(),
            WordsFault::Amount => "AMOUNT has to be a whole number from 0 to 4294967295",
            WordsFault::Lease => {
                "LEASE has to be a whole number from 0 to 9223372036854775807, 0 for no lease"
            }
        }
    }
}

impl fmt::Display for WordsFault {
    ghost use Rattle.std.specs.Prelude.{Some};
    ghost use Rattle.stm_recipe_lines.specs.FaultTexts.{fault_text};

    ghost output = { λ fault. Some (fault_text fault) };

    fn fmt<W: fmt::Write>(&self, f: &mut fmt::Formatter<W>) -> fmt::Result {
        f.write_str(self.text())
    }
}

impl Error for WordsFault {}
