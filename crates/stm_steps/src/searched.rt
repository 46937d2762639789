//! How many elements are searched before a table is kept.

/// How many keys or writes are searched one by one. For so few elements that is quicker than a table, which allocates at its first key.
pub(crate) const MOST_SEARCHED: usize = 16;
