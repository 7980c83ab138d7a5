// The constraint graphs of a table: its connections by component, and what a search over them says of the graph (specs/).
#![tactic(auto)]

pub mod connections;
