// General mathematics, in specs/ alone: rational numbers, divisors, primes and lists.
#![tactic(auto)]
