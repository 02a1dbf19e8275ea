// The lent words as the model's store: specs/ says what they mean and when they are sound, proofs/ what a change of a
// part does to the meaning.
#![tactic(auto)]

pub mod empty;
