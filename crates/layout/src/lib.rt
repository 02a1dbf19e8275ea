// The layout of groups: families of nested groups, by value.
#![tactic(auto)]

pub mod group_layout;
pub mod group_metadata;
pub mod starts;
