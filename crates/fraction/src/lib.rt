// Exact fractions, never negative: what periods and starts are made of.
#![tactic(auto)]

ghost use Rattle.std.specs.Prelude.{◌≡◌, ◌*◌, ◌^◌, ◌<◌};
ghost use Rattle.fraction.specs.Lowest.{lowest_terms, less_than};

mod euclid;

#[derive(Clone, Copy)]
pub struct Fraction {
    pub num: u64,
    pub den: u64,
}

impl Fraction {
    pub const ZERO: Fraction = Fraction { num: 0, den: 1 };

    pub const ONE: Fraction = Fraction { num: 1, den: 1 };

    // num / den in lowest terms. A division takes longer than all else here, so 0, 1 and whole numbers take none, and what is in lowest terms already is not divided.
    #[tactic(auto, using(crate::specs::Lowest::lowest_already))]
    pub fn reduced(num: u64, den: u64) -> Fraction
        requires { 0 < den }
        ensures { result ≡ lowest_terms num den }
    {
        if num == 0 {
            return Fraction::ZERO;
        }
        if num == den {
            return Fraction::ONE;
        }
        if den == 1 {
            return Fraction { num, den };
        }
        let g = euclid::greatest_common_divisor(num, den);
        if g == 1 {
            return Fraction { num, den };
        }
        Fraction {
            num: num / g,
            den: den / g,
        }
    }

    // self < other, exact for all parts. It is no PartialOrd: by its laws equal values would have equal parts, and parts need not be in lowest terms.
    #[tactic(auto, unfolding(crate::specs::Lowest::less_than))]
    pub fn less(self, other: Fraction) -> bool
        ensures { result ≡ less_than self other }
    {
        let left = u128::from(self.num) * u128::from(other.den);
        let right = u128::from(other.num) * u128::from(self.den);
        left < right
    }

    // self times a whole weight, in lowest terms.
    pub fn times(self, weight: u64) -> Fraction
        requires { (0 < self.den) × (self.num * weight < 2 ^ 64) }
        ensures { result ≡ lowest_terms (self.num * weight) self.den }
    {
        Fraction::reduced(self.num * weight, self.den)
    }
}
