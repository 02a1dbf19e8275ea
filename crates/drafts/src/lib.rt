// Theorems on drafts: which groups a layout can have, and what GROUP adds (specs/, proofs/). No code.
#![tactic(auto)]
