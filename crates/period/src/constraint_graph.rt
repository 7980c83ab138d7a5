// The constraint graph of a component, as it stands in a table.
ghost use Rattle.std.specs.Prelude.{[]};
ghost use Rattle.table.specs.Slices.{links_of};
ghost use Rattle.period.specs.Component.{graph_of, SmallEdges};
ghost use Rattle.period.specs.Edges.{edges_of, Readable};

// The members are the numbers of the component's ports, the numbers those of its connections. The weights are those of all ports.
// It holds a table's slices and no Table, for `least_period` asks no more than the facts of one component, and a Table is well-formed.
#[derive(Clone, Copy)]
pub struct ConstraintGraph<'a> {
    pub ports: &'a [u32],
    pub links: &'a [u32],
    pub weights: &'a [u64; 64],
    pub members: &'a [u64],
    pub numbers: &'a [u64],
    pub ghost readable: { Readable (links_of links.now) numbers.now },
    pub ghost small_edges: { SmallEdges (graph_of [] [] (edges_of (links_of links.now) weights.now numbers.now)) },
}
