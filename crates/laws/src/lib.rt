// Pure laws of the definitions, in proofs/: no code stands here.
#![tactic(auto)]
