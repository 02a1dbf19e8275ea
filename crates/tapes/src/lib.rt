// Theorems on the tapes that a run is given (specs/, proofs/). No code.
#![tactic(auto)]
