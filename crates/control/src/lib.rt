// What a store keeps besides its sparse sets: entities, staged components, excluded kinds, the caller, the refusal counts, the rule and the draft layout.
#![tactic(auto)]

pub mod draft;
pub mod entities;
pub mod excluded;
pub mod lists;
pub mod refusals;
pub mod rule;
pub mod staged;
