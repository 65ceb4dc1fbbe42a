// No code: what the log vouches for (demand 3), as theorems. specs/ says it, proofs/ proves it.

#![tactic(auto)]
