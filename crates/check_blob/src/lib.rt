// The blob check: the walk from one root, with what it notes of the leaves.
#![tactic(auto)]

pub mod descent;
pub mod notes;
pub mod open;
pub mod row;
pub mod visit;
pub mod walk;
