// A component sparse set (01: column) over its part of the lent words, and the same in its slot among all of them.
// The part and the shape stay two parameters: a part is lent on as `&mut` to swap, append and remove, by a rule of the
// project, and between two of its writes it is not sound, as a type's fact would have to say.
#![tactic(auto)]

pub mod at_start;
pub mod component_sparse_set;
pub mod slots;
pub mod sparse_vec;
pub mod values_part;
