//! Where a run of jobs begins.

/// How far a hall had come when it was handed in.
#[derive(Clone, Copy)]
pub struct StartPoint {
    /// How many entries it had.
    pub entries: usize,
    /// Its store's counter.
    pub revision: u64,
}
