// A spanning forest of a table's links with rows of exponents: agreement of the ratios, and the loop of a conflict.
#![tactic(auto)]

mod agreement;
mod forest;
mod loops;
pub mod parts;
mod spanning;

pub use forest::Forest;
