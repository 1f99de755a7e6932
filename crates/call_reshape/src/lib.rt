// A blob made longer or shorter, past every refusal: the block that is kept first, then every slot stored as planned, rising.
#![tactic(auto)]

pub mod longer;
pub mod longer_slots;
pub mod shorter;
pub mod shorter_slots;
