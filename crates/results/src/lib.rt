// The sizes of buffers, and the records of the numbers 0 and 15.
#![tactic(auto)]

pub mod blocked;
mod consistent;
pub mod kept;
mod sizes;
pub mod timings;
