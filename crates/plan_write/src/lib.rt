// What each slot becomes in a write, and how it is stored.
#![tactic(auto)]

pub mod patch;
pub mod stretch;
