// The numbers from 1 to 1,000 as rows of prime exponents.
#![tactic(auto)]

mod divisors;
pub mod primes;
pub mod product;
pub mod row;
pub mod tables;
