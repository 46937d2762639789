//! What sites are. The function does nothing: its contract is the law.
ghost use Rattle.stm_sites.specs.Laws.{SitesAreFirst};

/// Where the run of a block stops, the place of its site begins with the index of a statement of the block, counted from 0: the statements
/// before that one come to their end, and with it the run stops as it does.
pub fn sites_are_first()
    ensures { SitesAreFirst }
{}
