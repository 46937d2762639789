//! What the seats of a table know.

use std::collections::LinkedList;

/// The size of a table.
#[derive(Clone, Copy)]
pub struct Size {
    /// How many jobs it has.
    pub jobs: usize,
    /// How many seats may share them.
    pub seats: usize,
}

/// What a seat knows. No value of it is made.
pub struct View {
    /// The size of its table.
    pub size: Size,
    /// The jobs that were drawn with it.
    pub drawn: LinkedList<usize>,
    /// How many passes it has used. A pass is a draw that finds no job.
    pub past: usize,
    /// How many passes it has left.
    pub left: usize,
}
