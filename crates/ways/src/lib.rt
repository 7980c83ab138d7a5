// The components of a table: ports joined by links, direction ignored.
#![tactic(auto)]

pub mod components;
