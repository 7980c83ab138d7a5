// The connections that stand for one into a hidden port and one out of it, and number 19.
ghost use Rattle.std.specs.Prelude.{◌≡◌, not, ◌+◌, ◌*◌, ◌≤◌, ◌<◌, length, get_or};
ghost use Rattle.numbers.specs.Lists.{keep};
ghost use Rattle.specification.specs.Table.{most_events, most_over, no_link};
ghost use Rattle.specification.specs.Hiding.{none, via, link_leaves};
ghost use Rattle.table.specs.WellFormed.{LinkFits};
ghost use Rattle.hidden.specs.OfSides.{made_in};
ghost use Rattle.hidden.specs.ViaParts.{IsNet, IsDelta, made_of};

use crate::sides::Sides;
use fraction::Fraction;
use specification::{Link, Ticks, limits};

// A new connection whose values may leave their ranges.
#[derive(Clone, Copy)]
pub struct Made {
    pub from: usize,
    pub to: usize,
    pub num: u64,
    pub den: u64,
    pub ticks: Ticks,
    pub delta: Delta,
}

// An amount of events forward, one back, and the denominator of both.
#[derive(Clone, Copy)]
pub struct Delta {
    pub forward: u64,
    pub back: u64,
    pub over: u64,
}

// An amount of the first δ plus one of the second divided by the first link's ratio, over the denominator of both.
fn sum_via(x: Link, y: Link, first: u64, second: u64) -> u64
    requires x_fits { LinkFits 64 x }
    requires y_fits { LinkFits 64 y }
    requires first_bound { first ≤ most_events * most_over }
    requires second_bound { second ≤ most_events * most_over }
    ensures { result ≡ first * (y.over * x.num) + second * (x.den * x.over) }
{
    first * (u64::from(y.over) * x.num) + second * (x.den * u64::from(x.over))
}

// The first amount less the second, over a denominator, in lowest terms.
fn net(forward: u64, back: u64, over: u64) -> Delta
    requires { 0 < over }
    ensures { IsNet forward back over result }
{
    let gained = forward.saturating_sub(back);
    let lost = back.saturating_sub(forward);
    Delta {
        forward: Fraction::reduced(gained, over).num,
        back: Fraction::reduced(lost, over).num,
        over: Fraction::reduced(gained + lost, over).den,
    }
}

fn delta_via(x: Link, y: Link) -> Delta
    requires x_fits { LinkFits 64 x }
    requires y_fits { LinkFits 64 y }
    ensures { IsDelta x y result }
{
    let forward = sum_via(x, y, x.events.0, y.events.0);
    let back = sum_via(x, y, x.events.1, y.events.1);
    net(forward, back, u64::from(x.over) * u64::from(y.over) * x.num)
}

#[tactic(auto, unfolding(specification::specs::Hiding::via))]
fn ticks_via(x: Link, y: Link) -> Ticks
    requires x_fits { LinkFits 64 x }
    requires y_fits { LinkFits 64 y }
    ensures { result ≡ (via x y).ticks }
{
    let forward = x.ticks.0 + y.ticks.0;
    let back = x.ticks.1 + y.ticks.1;
    Ticks(forward.saturating_sub(back), back.saturating_sub(forward))
}

fn made_via(x: Link, y: Link) -> Made
    requires x_fits { LinkFits 64 x }
    requires y_fits { LinkFits 64 y }
    ensures { made_of result ≡ via x y }
{
    let ratio = Fraction::reduced(x.num * y.num, x.den * y.den);
    Made {
        from: x.from,
        to: y.to,
        num: ratio.num,
        den: ratio.den,
        ticks: ticks_via(x, y),
        delta: delta_via(x, y),
    }
}

// A value leaves its range.
#[tactic(auto, unfolding(specification::specs::Hiding::link_leaves))]
fn leaves_range(m: Made) -> bool
    ensures { result ≡ link_leaves (made_of m) }
{
    let delta = m.delta;
    limits::PART < m.num
        || limits::PART < m.den
        || limits::TICKS < m.ticks.0
        || limits::TICKS < m.ticks.1
        || limits::OVER < delta.over
        || limits::EVENTS * delta.over < delta.forward
        || limits::EVENTS * delta.over < delta.back
}

// New connection k: by the first connection, then the second.
pub fn made_at(sides: &Sides, k: usize) -> Made
    requires { k < length (made_in sides.now) }
    ensures { made_of result ≡ get_or (made_in sides.now) k no_link }
{
    let x = sides.link(sides.into[k / sides.from.len()]);
    let y = sides.link(sides.from[k % sides.from.len()]);
    made_via(x, y)
}

// 19 of the new connections, of which there may be 16,384. Two loops and no `any` over pairs by their number: that divides at each, and was slower.
pub fn any_leaves(sides: &Sides) -> bool
    ensures { result ≡ not (none (keep link_leaves (made_in sides.now))) }
{
    for first in sides.into {
        let x = sides.link(*first);
        for second in sides.from {
            if leaves_range(made_via(x, sides.link(*second))) {
                return true;
            }
        }
    }
    false
}
