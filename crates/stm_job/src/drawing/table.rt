//! The table, and the seats at it.
ghost use Rattle.std.specs.Prelude.{◌≡◌, ◌^◌, ◌<◌, []};
ghost use Rattle.stm_job.specs.Draw.{Knows};

use crate::drawing::rule::Dealing;
use crate::drawing::view::{Size, View};
use atomic_table::{Seat, Table};
use std::alloc::Global;

/// The jobs 0, 1 and so on, for threads to draw from through a `&`.
#[derive(Drop)]
pub struct JobTable {
    pub(crate) table: Table<(), View, Size, Dealing, Global>,
    pub(crate) size: Size,
    ghost one_word: { table.shared.table_id.words ≡ 1 },
    ghost sized: { table.shared.key ≡ size },
    ghost small: { (size.jobs < 2 ^ 63) × (size.seats < 2 ^ 63) },
}

/// The right to draw from one table, which one thread has at a time.
///
/// A seat that has all of the table's passes, used or left, and has used one, has drawn every job once; a seat that is dropped takes its
/// passes with it.
#[derive(Drop)]
pub struct JobSeat {
    pub(crate) seat: Seat<(), View>,
    pub(crate) left: usize,
    ghost reported: { left ≡ seat.me.0.left },
    ghost holds_nothing: { seat.me.1 ≡ [] },
    ghost known: { Knows seat.me.0 },
}
