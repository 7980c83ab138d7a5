// The printed form of an answer.
#![tactic(auto)]

mod lines;
pub mod print;
mod record;
mod writer;
