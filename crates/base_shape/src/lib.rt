// A length's leaves, height and block total, and whether the free slots are enough.
#![tactic(auto)]

pub mod shape;
mod sheet;
pub mod vacancy;
