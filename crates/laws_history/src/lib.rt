// Pure laws of runs of calls, in proofs/: no code stands here.
#![tactic(auto)]
