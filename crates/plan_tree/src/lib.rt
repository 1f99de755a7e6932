// Trees in numbers: full subtrees, the right edge, where new blocks stand, what a cut leaves.
#![tactic(auto)]

pub mod cuts;
pub mod edge;
pub mod seats;
pub mod subtrees;
