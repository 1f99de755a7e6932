// Numbers, and runs of bytes, in lent slices; ranges of bytes.
#![tactic(auto)]

pub mod number;
pub mod range;
pub mod runs;
