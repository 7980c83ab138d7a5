// Rounds of starts over the edges of a constraint graph, and the cycle behind rounds that do not settle.
#![tactic(auto)]

pub mod back;
pub mod starts;
