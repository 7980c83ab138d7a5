// The tables that prime factors are looked up in.
ghost use Rattle.exponents.specs.Divisors.{FromTwo};
ghost use Rattle.exponents.specs.Factor.{Lent, IsFactor};

use crate::{divisors, primes};

// A prime factor of a number, with its place.
#[derive(Clone, Copy)]
pub(crate) struct Factor {
    pub prime: u64,
    pub place: usize,
}

// 4 KB: made once and lent.
#[derive(Drop)]
pub struct FactorTables {
    divisors: [u16; 1001],
    places: [u16; 1001],
    pub ghost lent: { Lent divisors places },
}

// A constant: a literal in `new` would take 2 KB more of the stack.
const TABLES: FactorTables = FactorTables {
    divisors: divisors::LEAST,
    places: primes::PLACE,
};

impl FactorTables {
    pub fn new() -> FactorTables {
        TABLES
    }

    // The least prime factor of n.
    pub(crate) fn prime_factor(&self, n: u64) -> Factor
        requires from_two { FromTwo n }
        ensures { IsFactor n result.prime result.place }
    {
        let prime = self.divisors[n as usize];
        Factor {
            prime: u64::from(prime),
            place: usize::from(self.places[usize::from(prime)]),
        }
    }
}
