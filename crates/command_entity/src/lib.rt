// The commands over the world: one function each, which answers how many bytes it wrote. Refusals come in the order of 01's table.
#![tactic(auto)]

pub mod applying;
pub mod components;
pub mod entities;
