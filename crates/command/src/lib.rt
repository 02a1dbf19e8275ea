// What every command has in common: what its function asks and leaves (specs/), and how it answers.
#![tactic(auto)]

pub mod answers;
