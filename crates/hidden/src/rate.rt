// The rate of the lowest-numbered sender of a port that is hidden.
ghost use Rattle.std.specs.Prelude.{◌≡◌, ◌*◌, ◌≤◌, ◌<◌};
ghost use Rattle.specification.specs.Table.{most_part};
ghost use Rattle.specification.specs.Hiding.{carried_rate, slower, rate_leaves, sender_link};
ghost use Rattle.table.specs.WellFormed.{PartFits, PortFits};
ghost use Rattle.table.specs.Held.{table_in};
ghost use Rattle.hidden.specs.OfSides.{limit_in};

use crate::sides::Sides;
use fraction::Fraction;
use specification::{Link, Port, limits};

// The sender that a hidden port's rate may lower, and the rate that it then has, none where its own stays.
#[derive(Clone, Copy)]
pub struct Limit {
    pub sender: usize,
    pub rate: Option<Port>,
}

// 19 of the lowered rate.
pub fn leaves_range(rate: Port) -> bool
    ensures { result ≡ rate_leaves rate }
{
    limits::PART < rate.num || limits::PART < rate.den
}

// A rate divided by the ratio of a link, in lowest terms.
fn carried_rate(r: Port, l: Link) -> Port
    requires port_fits { PortFits r }
    requires num_nonzero { 0 < r.num }
    requires num_fits { PartFits l.num }
    requires den_fits { PartFits l.den }
    ensures value { result ≡ carried_rate r l }
    ensures num_bound { result.num ≤ most_part * most_part }
    ensures den_bound { result.den ≤ most_part * most_part }
{
    let rate = Fraction::reduced(r.num * l.den, r.den * l.num);
    Port {
        num: rate.num,
        den: rate.den,
    }
}

// The first is the smaller rate; a port without a rate has no limit.
#[tactic(auto, unfolding(specification::specs::Hiding::slower))]
fn is_slower(r: Port, s: Port) -> bool
    requires num_bound { r.num ≤ most_part * most_part }
    requires den_bound { r.den ≤ most_part * most_part }
    requires port_fits { PortFits s }
    ensures { result ≡ slower r s }
{
    s.num == 0 || r.num * s.den < s.num * r.den
}

// Of the links into the port that come from the lowest the first.
fn lowest_sender(sides: &Sides) -> Link
    ensures { result ≡ sender_link (table_in sides.now.table.now) sides.now.port }
{
    let mut lowest = sides.link(sides.into[0]);
    for k in &sides.into[1..] {
        let l = sides.link(*k);
        if l.from < lowest.from {
            lowest = l;
        }
    }
    lowest
}

// The lowest sender, and the rate that it is lowered to: none where the port has no rate, or the sender is no faster.
pub fn limit_of(sides: &Sides) -> Limit
    ensures { result ≡ limit_in sides.now }
{
    let l = lowest_sender(sides);
    let sender = l.from;
    let hidden = sides.table.port(sides.port);
    if hidden.num == 0 {
        return Limit { sender, rate: None };
    }
    let rate = carried_rate(hidden, l);
    let lowers = is_slower(rate, sides.table.port(sender));
    Limit {
        sender,
        rate: lowers.then_some(rate),
    }
}
