// What the edges of a component cost at one a/b.
ghost use Rattle.period.specs.Held.{edges_in};
ghost use Rattle.period.specs.Prices.{Pricing, PricesMade};

use crate::constraint_graph::ConstraintGraph;
use crate::delay;
use fraction::Fraction;

// Writes from, to, gain and loss of every edge: four numbers in a row, since the rounds go over numbers in one room.
pub fn price(graph: &ConstraintGraph, period: Fraction, costs: &mut [u64])
    requires { Pricing (edges_in graph.now) period.num period.den costs.old }
    ensures { PricesMade (edges_in graph.now) period.num period.den costs.old costs.new }
{
    for k in 0..graph.numbers.len() {
        let edge = graph.edge(k);
        let cost = delay::delay(edge.ticks, edge.events, period);
        let at = 4 * k;
        costs[at] = edge.from;
        costs[at + 1] = edge.to;
        costs[at + 2] = cost.0;
        costs[at + 3] = cost.1;
    }
}
