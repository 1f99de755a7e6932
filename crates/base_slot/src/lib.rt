// One slot: where its block and record lie, what they say, whether it is usable.
#![tactic(auto)]

pub mod fields;
pub mod record;
pub mod slot;
pub mod usable;
