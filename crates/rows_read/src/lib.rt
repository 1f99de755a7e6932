// In which rows does a reading call run? In those of the least size that suffices. The rows of each size stand in a frame of their own, which is in no
// other function's: so a call does not pay for larger rows than its own.
#![tactic(auto)]

pub mod audit;
pub mod leaf;
pub mod length;
pub mod read;
