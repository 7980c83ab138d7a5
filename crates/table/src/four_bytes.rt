// Numbers of four bytes in two's complement.
ghost use Rattle.std.specs.Prelude.{◌≡◌, ◌^◌, ◌<◌};
ghost use Rattle.specification.specs.Reading.{forward, back};

// What a number of two's complement in four bytes is above zero, and what it is below. It is compared with what it would be below zero, and
// not with 2147483648: the compiler would look at the highest byte for that, and load the four bytes one by one.
#[tactic(auto, unfolding(specification::specs::Reading::forward, specification::specs::Reading::back))]
pub fn amounts_of(v: u64) -> (u64, u64)
    requires { v < 2 ^ 32 }
    ensures { result ≡ (forward v, back v) }
{
    let below = 4294967296 - v;
    if v < below { (v, 0) } else { (0, below) }
}
