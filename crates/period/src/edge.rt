// The connections of a component as edges, read of the table.
ghost use Rattle.std.specs.Prelude.{◌≡◌, ◌*◌, ◌/◌, ◌<◌, length};
ghost use Rattle.period.specs.Edges.{Weighable, EdgeAt};
ghost use Rattle.period.specs.Held.{edges_in};

use crate::constraint_graph::ConstraintGraph;
use specification::{Events, Ticks};
use table::links;

#[derive(Clone, Copy)]
pub struct Edge {
    pub from: u64,
    pub to: u64,
    pub ticks: Ticks,
    pub events: Events,
}

impl<'a> ConstraintGraph<'a> {
    // The edge of the i-th connection: its events are weighed by the sender.
    pub(crate) fn edge(&self, i: usize) -> Edge
        requires { i < length self.now.numbers.now }
        ensures { EdgeAt (edges_in self.now) i result }
    {
        let link = links::link(self.links, self.numbers[i] as usize);
        let weight = self.weights[link.from];
        let over = u64::from(link.over);
        Edge {
            from: link.from as u64,
            to: link.to as u64,
            ticks: link.ticks,
            events: Events(
                weighed(link.events.0, weight, over),
                weighed(link.events.1, weight, over),
            ),
        }
    }
}

// An amount divided by `over`, times a weight. A division takes longer than all else here.
fn weighed(amount: u64, weight: u64, over: u64) -> u64
    requires { Weighable amount weight over }
    ensures { result ≡ amount * weight / over }
{
    let product = amount * weight;
    if over == 1 { product } else { product / over }
}
