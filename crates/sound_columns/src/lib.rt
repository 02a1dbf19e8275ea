// Clauses of a sound store, each decided on the lent words by one pass over the words that it speaks of: the table of
// kinds, the columns, the lists of kinds.
#![tactic(auto)]

pub mod lists;
pub mod slots;
pub mod sparse_set;
pub mod table;
