// A space that an input was read into.
ghost use Rattle.std.specs.Prelude.{◌≡◌, true, false, take, MatchResult};
ghost use Rattle.input.specs.Input.{has_failed, read_whole, stop_of};
ghost use Rattle.input.specs.ReadInto.{ReadInto};

use crate::{Input, Stop};

// What was read stands at the front of the space, which holds a byte more than is taken.
#[derive(Clone, Copy)]
pub struct Filled<'a> {
    pub space: &'a [u8],
    pub read: Input,
    pub ghost read_into: { ReadInto space.now read },
}

impl<'a> Filled<'a> {
    // The bytes of an input that was read whole.
    #[tactic(auto, using(crate::proofs::Whole::whole_ok, crate::proofs::Whole::whole_err))]
    pub fn bytes(&self) -> Result<&'a [u8], Stop>
        ensures { MatchResult result
            (λ s. (read_whole (has_failed self.now.read.end) self.now.read.count ≡ true) × (s.now ≡ take self.now.read.count self.now.space.now))
            (λ stop. (read_whole (has_failed self.now.read.end) self.now.read.count ≡ false) × (stop ≡ stop_of (has_failed self.now.read.end))) }
    {
        let count = self.read.whole()?;
        Ok(&self.space[..count])
    }
}
