// No code: the history of the yard in a few words, and the laws of demand 3 over it. specs/ says them, proofs/ proves them.

#![tactic(auto)]
