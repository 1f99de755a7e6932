// The three demands as theorems, in specs/ and proofs/: no code stands here.
#![tactic(auto)]
