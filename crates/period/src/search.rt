// The least period of a component; or that it has periods but no least; or a floor and a cycle that blocks every period.
ghost use Rattle.std.specs.Prelude.{◌≡◌, ◌+◌, ◌*◌, ◌≤◌, length};
ghost use Rattle.period.specs.Component.{Component};
ghost use Rattle.period.specs.Greatest.{GreatestLimit};
ghost use Rattle.period.specs.Held.{limits_in, edges_in};
ghost use Rattle.period.specs.Prices.{prices_of};
ghost use Rattle.period.specs.Search.{first_tried, SearchResult};
ghost use Rattle.period.specs.Try.{Trying, TryResult};

use crate::constraint_graph::ConstraintGraph;
use crate::cycle::Cycle;
use crate::limit::Limit;
use crate::{price, sums};
use fraction::Fraction;
use rounds::back::Part;
use rounds::{back, starts};

// What stands under every period: the rate limit of a port; the lower limit of a cycle; or zero.
#[derive(Clone, Copy)]
pub enum Floor {
    Rate(u64),
    Lower(Cycle),
    Zero,
}

// How a search ends, and how many rounds were run at the last a/b.
#[derive(Clone, Copy)]
pub enum SearchEnd {
    // With the least period, which is the limit that the floor has.
    Least {
        period: Fraction,
        floor: Floor,
        rounds: usize,
    },
    // With periods but no least.
    NoLeast {
        rounds: usize,
    },
    // With a cycle that blocks every period above the floor.
    Blocked {
        floor: Floor,
        block: Cycle,
        rounds: usize,
    },
}

// Just above zero: it stands for the periods there, and is in no answer.
const JUST_ABOVE_ZERO: Fraction = Fraction {
    num: 1,
    den: 640_000_001,
};

// The first a/b that is tried: the greatest rate limit, or just above zero.
fn first_tried(greatest: Option<Limit>) -> Fraction
    ensures { result ≡ first_tried greatest }
{
    greatest.map_or(JUST_ABOVE_ZERO, |limit| limit.value)
}

// The rounds that changed something at one a/b, or the part of the steps that is a cycle positive there. The rows of starts come first in
// work, and behind row n the costs. The steps are lent: made here, they would be copied for each a/b.
fn try_at(
    graph: &ConstraintGraph,
    period: Fraction,
    work: &mut [u64],
    steps: &mut [u64; 64],
) -> Result<usize, Part>
    requires { Trying (edges_in graph.now) (length graph.now.numbers.now) period.num period.den (length graph.now.members.now) work.old }
    ensures try_result { TryResult (prices_of (edges_in graph.now) period.num period.den) (length graph.now.members.now) work.new steps.new result }
    ensures work_len_unchanged { length work.new ≡ length work.old }
{
    let n = graph.members.len();
    let count = graph.numbers.len();
    let base = 64 * n + 64;
    price::price(graph, period, &mut work[base..]);
    match starts::settle(work, n, count) {
        Ok(rounds) => Ok(rounds),
        Err(unsettled) => {
            let end = base + 4 * count;
            // The rows and the costs are read together, so both are parts of one shared slice.
            let rows = &work[..];
            Err(back::cycle_back(rows, n, &rows[base..end], unsettled.port, steps))
        }
    }
}

// The search begins at the greatest of the ports' rate limits, or just above zero. Where it ends with the least period, the starts are row
// `rounds` - 1 of work.
pub fn least_period(graph: &ConstraintGraph, greatest: Option<Limit>, work: &mut [u64]) -> SearchEnd
    requires component { Component graph.now.members.now (limits_in graph.now) (edges_in graph.now) }
    requires numbers_in_bounds { 64 * length graph.now.members.now + 64 + 4 * length graph.now.numbers.now ≤ length work.old }
    requires greatest_limit { GreatestLimit graph.now.members.now (limits_in graph.now) greatest }
    ensures search_result { SearchResult graph.now.members.now (limits_in graph.now) (edges_in graph.now) work.new result }
    ensures work_len_unchanged { length work.new ≡ length work.old }
{
    let mut period = first_tried(greatest);
    let mut floor = match greatest {
        Some(limit) => Floor::Rate(limit.port),
        None => Floor::Zero,
    };
    let mut steps = [0u64; 64];
    loop {
        match try_at(graph, period, work, &mut steps) {
            Ok(changed) => {
                let rounds = changed + 1;
                return match floor {
                    Floor::Zero => SearchEnd::NoLeast { rounds },
                    _ => SearchEnd::Least {
                        period,
                        floor,
                        rounds,
                    },
                };
            }
            Err(part) => {
                let cycle = Cycle { steps, part };
                let sums = sums::sums_of(graph, cycle.edges());
                if sums.events.1 <= sums.events.0 {
                    return SearchEnd::Blocked {
                        floor,
                        block: cycle,
                        rounds: graph.members.len(),
                    };
                }
                period = Fraction::reduced(
                    sums.ticks.0 - sums.ticks.1,
                    sums.events.1 - sums.events.0,
                );
                floor = Floor::Lower(cycle);
            }
        }
    }
}
