// The quotient of the numbers that two rows stand for, multiplied out up to a bound.
ghost use Rattle.std.specs.Prelude.{◌≡◌, ◌*◌, ◌^◌};
ghost use Rattle.numbers.specs.Exponents.{powers};
ghost use Rattle.exponents.specs.Primes.{primes, prime_at};
ghost use Rattle.exponents.specs.Row.{Within, SameAbove, excess};
ghost use Rattle.exponents.specs.Product.{Factors, UpToBound};

use crate::row::Row;

// No product above it is returned.
const BOUND: u64 = 10_000;

// x times p to the power e, if that is at most 10,000.
fn times_power(x: u64, p: u64, e: u16) -> Option<u64>
    requires { Factors x p }
    ensures { UpToBound (x * p ^ e) result }
{
    let mut product = x;
    for _ in 0..e {
        product *= p;
        if BOUND < product {
            return None;
        }
    }
    Some(product)
}

// The number that a row stands for, divided by that of `least`, if that is at most 10,000. Above `most` the two rows are equal.
pub fn quotient_within(row: &Row, least: &Row, most: u64, all: &[u16]) -> Option<u64>
    requires all_value { all.now ≡ primes }
    requires within { Within least.now row.now }
    requires same_above { SameAbove least.now row.now most }
    ensures { UpToBound (powers prime_at (excess least.now row.now) 168) result }
{
    let mut product = 1;
    for (i, &p) in all.iter().enumerate() {
        let prime = u64::from(p);
        if most < prime {
            break;
        }
        product = times_power(product, prime, row[i] - least[i])?;
    }
    Some(product)
}
