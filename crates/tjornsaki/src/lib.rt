// The store's calls for C. Slices come as pointer and length; the answer is eight lent numbers.
#![tactic(auto)]

pub mod changes;
pub mod heads;
pub mod reads;
