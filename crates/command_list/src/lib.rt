// REG, HOLD, BAR, EMPTY, TALLY and SETCALLER: one function each, which answers how many bytes it wrote. Refusals come in the order of 01's table.
#![tactic(auto)]

pub mod callers;
pub mod lists;
pub mod registering;
