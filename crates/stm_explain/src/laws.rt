//! The laws of the tables. The function does nothing: its contract is the law.
ghost use Rattle.stm_explain.specs.Words.{TablesAreTheReaders, OthersAreRefused};

/// The words that explanations say are allowed are exactly those that the readers know: of statements, expressions, conditions, levels, orders
/// and compares each table has these, and a word that is in neither the table of events nor that of operations begins none.
#[tactic(auto, using(crate::proofs::WordLemmas::tables, crate::proofs::WordLemmas::others))]
pub fn words_are_those_of_readers()
    ensures tables { TablesAreTheReaders }
    ensures others { OthersAreRefused }
{}
