// Show, for any edition: where a leaf's data bytes lie in the pool.
#![tactic(auto)]

pub mod find;
pub mod place;
