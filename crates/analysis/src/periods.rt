// The periods and starts of all components, kept by port.
ghost use Rattle.std.specs.Prelude.{◌+◌, ◌*◌, ◌≤◌, ◌≡◌, length, get_or};
ghost use Rattle.specification.specs.Table.{link_count};
ghost use Rattle.table.specs.Held.{table_in};
ghost use Rattle.table.specs.Slices.{table_of};
ghost use Rattle.graph.specs.Arranged.{Labelled, most_members};
ghost use Rattle.analysis.specs.Decided.{Decided};
ghost use Rattle.analysis.specs.Timed.{Members, IsKept, number_of, OneTimed, ComponentSlices};

use crate::arranged::Arranged;
use crate::show;
use fraction::Fraction;
use period::constraint_graph::ConstraintGraph;
use period::search::SearchEnd;
use period::{limit, search};
use refusals::Refusal;
use results::kept::Kept;
use results::timings::Timings;
use specification::Outcome;

// Keeps a component's period and its ports' starts with each port. The component is its lowest port; a port past the starts has the start 0.
fn keep(members: &[u64], period: Fraction, starts: &[u64], kept: &mut [Kept; 64])
    requires { Members members.now }
    ensures { IsKept members.now period starts.now kept.old kept.new }
{
    let component = members[0];
    for &port in members {
        let p = port as usize;
        kept[p] = Kept {
            component,
            period,
            start: starts.get(p).copied().unwrap_or(0),
        };
    }
}

// What stands for a port before its component is timed. All of it is 0, since to fill with anything else takes longer.
const NOTHING: Kept = Kept {
    component: 0,
    period: Fraction { num: 0, den: 0 },
    start: 0,
};

// What timing comes to: the least periods and starts are kept; there are periods but no least; or a floor and a block are shown in so many
// bytes of the answer. No Result: the second of the three ends nothing, and the third is the refusal.
#[derive(Clone, Copy)]
pub enum Timed {
    Least,
    NoLeast,
    Shown(usize),
}

impl Timed {
    pub fn number(self) -> u64
        ensures { result ≡ number_of self }
    {
        match self {
            Timed::Least => 0,
            Timed::NoLeast => Refusal::NoLeast.number(),
            Timed::Shown(_) => Refusal::Blocked.number(),
        }
    }
}

// One component. Without connections its period is the greatest rate limit, and its ports start at 0.
fn time_one(
    graph: &ConstraintGraph,
    work: &mut [u64],
    kept: &mut [Kept; 64],
    answer: &mut [u8],
) -> Timed
    requires component_slices { ComponentSlices (table_of graph.now.ports.now graph.now.links.now) graph.now.weights.now graph.now.members.now graph.now.numbers.now }
    requires numbers_in_bounds { 64 * length graph.now.members.now + 64 + 4 * length graph.now.numbers.now ≤ length work.old }
    ensures { OneTimed (table_of graph.now.ports.now graph.now.links.now) graph.now.weights.now (get_or graph.now.members.now 0 0) kept.old kept.new answer.old answer.new result }
{
    if graph.numbers.is_empty() {
        return match limit::greatest_limit(graph.ports, graph.weights, graph.members) {
            Some(limit) => {
                keep(graph.members, limit.value, &[], kept);
                Timed::Least
            }
            None => Timed::NoLeast,
        };
    }
    // A copy, so that the graph of a component that is not searched stays out of memory.
    let searched = *graph;
    search_one(&searched, work, kept, answer)
}

// A component that is searched. Apart from the other kind, which else would clear the room of the cycles too, and have fewer registers.
#[inline(never)]
fn search_one(
    graph: &ConstraintGraph,
    work: &mut [u64],
    kept: &mut [Kept; 64],
    answer: &mut [u8],
) -> Timed
    requires component_slices { ComponentSlices (table_of graph.now.ports.now graph.now.links.now) graph.now.weights.now graph.now.members.now graph.now.numbers.now }
    requires numbers_in_bounds { 64 * length graph.now.members.now + 64 + 4 * length graph.now.numbers.now ≤ length work.old }
    ensures { OneTimed (table_of graph.now.ports.now graph.now.links.now) graph.now.weights.now (get_or graph.now.members.now 0 0) kept.old kept.new answer.old answer.new result }
{
    let greatest = limit::greatest_limit(graph.ports, graph.weights, graph.members);
    match search::least_period(graph, greatest, work) {
        SearchEnd::Least { period, rounds, .. } => {
            let row = 64 * (rounds - 1);
            keep(graph.members, period, &work[row..row + 64], kept);
            Timed::Least
        }
        SearchEnd::NoLeast { .. } => Timed::NoLeast,
        SearchEnd::Blocked { floor, block, .. } => {
            Timed::Shown(show::show_blocked(graph.numbers, &floor, &block, answer))
        }
    }
}

// All components, the lowest first. The first that has no period is shown; one that has periods but no least does not end the search.
// Where each has a least, the periods, starts and sizes are written.
pub fn time_all(arranged: &Arranged, work: &mut [u64], answer: &mut [u8]) -> Outcome
    requires labelled { Labelled (table_in arranged.now.table.now) arranged.now.weighted.now.labels arranged.now.weighted.now.weights }
    requires room { 64 * most_members (table_in arranged.now.table.now) arranged.now.weighted.now.labels + 64 + 4 * link_count (table_in arranged.now.table.now) ≤ length work.old }
    ensures { Decided (table_in arranged.now.table.now) answer.old answer.new result }
{
    let table = arranged.table;
    let weights = &arranged.weighted.weights;
    let mut kept = [NOTHING; 64];
    let mut least = true;
    for c in 0..table.port_count() {
        let members = arranged.members_of(c);
        if members.is_empty() {
            continue;
        }
        let graph = ConstraintGraph {
            ports: table.ports,
            links: table.links,
            weights,
            members,
            numbers: arranged.numbers_of(c),
        };
        let one = time_one(&graph, work, &mut kept, answer);
        match one {
            Timed::Least => {}
            Timed::NoLeast => least = false,
            Timed::Shown(written) => {
                return Outcome {
                    number: one.number(),
                    place: 0,
                    written,
                };
            }
        }
    }
    if !least {
        return Refusal::NoLeast.into();
    }
    let timings = Timings {
        table,
        weights,
        kept: &kept,
    };
    Outcome {
        number: Timed::Least.number(),
        place: 0,
        written: show::show_consistent(&timings, answer),
    }
}
