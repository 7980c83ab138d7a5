// Ratios and weights of a table: numbers 13 and 14.
#![tactic(auto)]

pub mod ratios;
mod weights;
mod whole;

// Some weight passes 10,000.
#[derive(Clone, Copy)]
struct OverLimit;
