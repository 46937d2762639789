//! The ways out of a part of a source.

/// The ways in which a part of a source may be left, beside going on.
#[derive(Clone, Copy, Debug, PartialEq, Eq)]
pub struct Ways {
    /// By a `return`.
    pub returns: bool,
    /// By a `break` of a loop around it.
    pub breaks: bool,
    /// By a `continue` of a loop around it.
    pub continues: bool,
}
