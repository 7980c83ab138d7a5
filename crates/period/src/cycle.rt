// A cycle that was found.
ghost use Rattle.period.specs.Within.{WithinSteps};

use rounds::back::Part;

// The edges of a cycle: a part of the steps, which are walked back and filled from their end.
#[derive(Clone, Copy)]
pub struct Cycle {
    pub steps: [u64; 64],
    pub part: Part,
    pub ghost within: { WithinSteps steps part },
}

impl Cycle {
    ghost use Rattle.std.specs.Prelude.{◌≡◌};
    ghost use Rattle.period.specs.Search.{cycle_of};

    // Their numbers, in walking order.
    pub fn edges(&self) -> &[u64]
        ensures { result.now ≡ cycle_of self.now }
    {
        &self.steps[self.part.first..self.part.last]
    }
}
