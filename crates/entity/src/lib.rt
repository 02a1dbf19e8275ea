// Entities over their part of the lent words: the live list with its lookups by index, and the queue of recycled
// numbers. The part has 16 * n words for a capacity of n (docs/WORDS.md).
#![tactic(auto)]

pub mod entity_allocator;
pub mod entity_part;
pub mod entity_sparse_set;
pub mod entity_storage;
pub mod in_words;
