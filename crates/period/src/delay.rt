// A delay at a period: the one place where events become ticks.
ghost use Rattle.std.specs.Prelude.{◌≡◌};
ghost use Rattle.period.specs.Delay.{delay_at, SmallDelay};

use fraction::Fraction;
use specification::{Events, Ticks};

// The ticks are over the period's denominator.
pub fn delay(ticks: Ticks, events: Events, period: Fraction) -> Ticks
    requires { SmallDelay ticks events period.num period.den }
    ensures { result ≡ delay_at ticks events period.num period.den }
{
    Ticks(
        ticks.0 * period.den + events.0 * period.num,
        ticks.1 * period.den + events.1 * period.num,
    )
}
