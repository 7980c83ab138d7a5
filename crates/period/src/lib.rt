// The least period of a component, or why there is none.
#![tactic(auto)]

pub mod constraint_graph;
pub mod cycle;
pub mod delay;
mod edge;
pub mod limit;
mod price;
pub mod search;
mod sums;
