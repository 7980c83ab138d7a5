// The floor that the ports' rates make: the greatest of their rate limits.
ghost use Rattle.std.specs.Prelude.{◌≡◌};
ghost use Rattle.table.specs.Slices.{ports_of};
ghost use Rattle.period.specs.Edges.{limits_of, PortNumbers};
ghost use Rattle.period.specs.Greatest.{GreatestLimit};
ghost use Rattle.period.specs.LimitOf.{HasLimit, limit_of};
ghost use Rattle.period.specs.Limited.{Limited};

use fraction::Fraction;
use table::ports;

// The rate limit of a port, in lowest terms.
#[derive(Clone, Copy)]
pub struct Limit {
    pub port: u64,
    pub value: Fraction,
}

// The first of a component's ports with the greatest limit; none where no port has a rate.
pub fn greatest_limit(ports: &[u32], weights: &[u64; 64], members: &[u64]) -> Option<Limit>
    requires port_numbers { PortNumbers (ports_of ports.now) members.now }
    requires limited { Limited members.now (limits_of (ports_of ports.now) weights.now) }
    ensures { GreatestLimit members.now (limits_of (ports_of ports.now) weights.now) result }
{
    // No Option until the end: it would be looked into for every port. Until a port has a rate the value is zero.
    let mut greatest = Limit {
        port: 0,
        value: Fraction::ZERO,
    };
    for &port in members {
        let value = limit_of(ports, weights, port);
        if greatest.value.less(value) {
            greatest = Limit { port, value };
        }
    }
    if greatest.value.num == 0 {
        return None;
    }
    Some(greatest)
}

// The rate limit of a port: 1 divided by rate times weight; zero without a rate. An Option would be no plainer: zero is the least that is compared.
fn limit_of(ports: &[u32], weights: &[u64; 64], port: u64) -> Fraction
    requires { HasLimit (ports_of ports.now) weights.now port }
    ensures { result ≡ limit_of (limits_of (ports_of ports.now) weights.now) port }
{
    let p = port as usize;
    let rate = ports::port(ports, p);
    let over = rate.num * weights[p];
    if over == 0 {
        return Fraction::ZERO;
    }
    Fraction::reduced(rate.den, over)
}
