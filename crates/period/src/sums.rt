// E and D of the edges of a cycle.
ghost use Rattle.period.specs.Held.{edges_in};
ghost use Rattle.period.specs.Sums.{Summing, SumsOf};

use crate::constraint_graph::ConstraintGraph;
use specification::{Events, Ticks};

#[derive(Clone, Copy)]
pub struct Sums {
    pub ticks: Ticks,
    pub events: Events,
}

pub fn sums_of(graph: &ConstraintGraph, path: &[u64]) -> Sums
    requires { Summing (edges_in graph.now) path.now }
    ensures { SumsOf (edges_in graph.now) path.now result }
{
    let mut ticks = Ticks(0, 0);
    let mut events = Events(0, 0);
    for &i in path {
        let edge = graph.edge(i as usize);
        ticks.0 += edge.ticks.0;
        ticks.1 += edge.ticks.1;
        events.0 += edge.events.0;
        events.1 += edge.events.1;
    }
    Sums { ticks, events }
}
