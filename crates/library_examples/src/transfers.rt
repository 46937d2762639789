//! Transactions as closures: money goes from one account to another, and a closure that refuses leaves the accounts as they were.
use anyhow::Result;
use std::alloc::Global;
use std::error::Error;
use std::fmt;
use stm_closures::{Hall, Level, NotCommitted, Store, Text, TransactionError, atomically};

/// Why a transfer was not made.
#[derive(Debug, Drop)]
enum TransferError {
    /// The account holds less.
    TooLittle,
    /// What an account holds is no number, or would be too large.
    NoNumber,
    /// A key was not read or written.
    Transaction(TransactionError),
}

impl fmt::Display for TransferError {
    fn fmt<W: fmt::Write>(&self, f: &mut fmt::Formatter<W>) -> fmt::Result {
        match self {
            TransferError::TooLittle => fmt::Display::fmt(&"the account holds less", f),
            TransferError::NoNumber => fmt::Display::fmt(&"an account holds no number", f),
            TransferError::Transaction(error) => fmt::Display::fmt(error, f),
        }
    }
}

impl Error for TransferError {}

impl From<TransactionError> for TransferError {
    fn from(error: TransactionError) -> TransferError {
        TransferError::Transaction(error)
    }
}

pub(crate) fn run(rt: &impl Print, alloc: Global) -> Result<()> {
    let store = Store::new(alloc)?;
    let mut hall = Hall::new(alloc, store);
    let done = pay(rt, alloc, &mut hall);
    drop(hall);
    done
}

fn pay(rt: &impl Print, alloc: Global, hall: &mut Hall) -> Result<()> {
    open(alloc, hall, "ana", "100")?;
    open(alloc, hall, "ben", "20")?;
    transfer(alloc, hall, "ana", "ben", 30)?;
    report(rt, alloc, hall)?;
    match transfer(alloc, hall, "ana", "ben", 500) {
        Ok(()) => println!(rt; "500 were moved")?,
        Err(error) => println!(rt; "refused: {error}")?,
    }
    report(rt, alloc, hall)
}

/// An account begins with an amount.
fn open(
    alloc: Global,
    hall: &mut Hall,
    account: &str,
    amount: &str,
) -> Result<(), NotCommitted<TransactionError>> {
    atomically(
        alloc,
        hall,
        Level::Serializable,
        1,
        |tx| tx.put(account, amount, 0),
    )
}

/// Moves an amount between two accounts.
fn transfer(
    alloc: Global,
    hall: &mut Hall,
    from: &str,
    to: &str,
    amount: u64,
) -> Result<(), NotCommitted<TransferError>> {
    atomically(alloc, hall, Level::Serializable, 5, |tx| {
        let had = number_of(tx.get(from)?.as_str())?;
        let rest = less(had, amount)?;
        tx.put(from, text_of(alloc, rest)?.as_str(), 0)?;
        let had = number_of(tx.get(to)?.as_str())?;
        let sum = more(had, amount)?;
        tx.put(to, text_of(alloc, sum)?.as_str(), 0)?;
        Ok(())
    })
}

fn number_of(text: &str) -> Result<u64, TransferError> {
    match text.parse() {
        Ok(number) => Ok(number),
        Err(_) => Err(TransferError::NoNumber),
    }
}

fn text_of(alloc: Global, number: u64) -> Result<String, TransferError> {
    match format!(in alloc; "{number}") {
        Ok(text) => Ok(text),
        Err(_) => Err(TransferError::Transaction(TransactionError::OutOfMemory)),
    }
}

fn less(number: u64, amount: u64) -> Result<u64, TransferError> {
    number.checked_sub(amount).ok_or(TransferError::TooLittle)
}

fn more(number: u64, amount: u64) -> Result<u64, TransferError> {
    number.checked_add(amount).ok_or(TransferError::NoNumber)
}

/// Prints what both accounts hold at one moment.
fn report(rt: &impl Print, alloc: Global, hall: &mut Hall) -> Result<()> {
    let (ana, ben) = atomically(
        alloc,
        hall,
        Level::Serializable,
        1,
        |tx| -> Result<(Text, Text), TransactionError> {
            let ana = tx.get("ana")?;
            let ben = tx.get("ben")?;
            Ok((ana, ben))
        },
    )?;
    println!(rt; "ana {ana}, ben {ben}")?;
    Ok(())
}
