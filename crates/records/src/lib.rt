// Numbers as bytes: reading them, and writing the records of an answer.
#![tactic(auto)]

pub mod read;
pub mod write;
